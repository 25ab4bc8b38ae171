// ARM64EC function names: a port of mangler.rs.
ghost use Rattle.std.specs.Prelude.{◌≤◌, ◌≡◌, ◌∷◌, length};
ghost use Rattle.format.specs.Names.{hash, tag, find};
ghost use Rattle.search.specs.Search.{place_of};
ghost use Rattle.names.specs.Built.{Built};
ghost use Rattle.names.specs.Mangler.{mangling_of, Demangles};

use crate::built::{BuiltName, fresh, lay};
use search::{find, starts_with};

// How many bytes the tag `$$h` has.
pub const TAG_LEN: usize = 3;

// What mangling a name comes to.
#[derive(Clone, Copy, Debug, PartialEq, Eq)]
pub enum Mangling {
    // A `#` goes before it.
    Prefix,
    // It is mangled already.
    Mangled,
}

// What demangling a name comes to.
#[derive(Clone, Copy, Debug, PartialEq, Eq)]
pub enum Demangled {
    // All but its first byte.
    Dropped,
    // All but the three bytes at a place.
    Cut { at: usize },
}

// Where the tag of a mangled C++ name first stands.
fn find_tag(name: &[u8]) -> Option<usize>
    ensures { result ≡ place_of (find tag name.now) }
{
    find(b"$$h", name)
}

// How a name is mangled; None where it is not known where the `$$h` of a C++ name goes. Of an empty one: as any that is not C++.
pub fn get_arm64ec_mangled_function_name(name: &[u8]) -> Option<Mangling>
    ensures { result ≡ mangling_of name.now }
{
    if !starts_with(name, b'?') {
        // For non-C++ symbols, prefix the name with "#" unless it's already mangled.
        if starts_with(name, b'#') {
            return Some(Mangling::Mangled);
        }
        return Some(Mangling::Prefix);
    }
    // If the name contains $$h, then it is already mangled.
    find_tag(name)?;
    Some(Mangling::Mangled)
}

// A name with `#` before it.
pub fn mangled(name: &[u8]) -> BuiltName
    requires { length name.now ≤ 8189 }
    ensures { Built (hash ∷ name.now) result }
{
    let mut m = fresh();
    let at = lay(&mut m.bytes, 0, b"#");
    let n = lay(&mut m.bytes, at, name);
    m.len = n;
    m
}

// How a name is demangled; None where it is not. An empty one is not, and `#` alone is no function's.
pub fn get_arm64ec_demangled_function_name(name: &[u8]) -> Option<Demangled>
    ensures { Demangles name.now result }
{
    // For non-C++ names, drop the "#" prefix.
    if starts_with(name, b'#') {
        if name.len() == 1 {
            return None;
        }
        return Some(Demangled::Dropped);
    }
    if !starts_with(name, b'?') {
        return None;
    }
    // Drop the ARM64EC "$$h" tag.
    let at = find_tag(name)?;
    if at + TAG_LEN == name.len() {
        return None;
    }
    Some(Demangled::Cut { at })
}
