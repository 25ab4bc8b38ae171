// What the Rust said to a question, compared with what the proved functions say.
ghost use Rattle.std.specs.Prelude.{◌+◌, ◌≡◌, true, ◌∷◌, ◌++◌, take, drop};
ghost use Rattle.std.proofs.Math.Option.{some};
ghost use Rattle.wire.specs.Bytes.{same};
ghost use Rattle.format.specs.Names.{hash, stem, replace, demangle, apply, plain_type};
ghost use Rattle.coff.specs.Import.{type_number};
ghost use Rattle.names.specs.Mangler.{mangling_of};
ghost use Rattle.names_run.specs.Told.{told, verdict_of, giving_type};

use coff::import::ImportNameType;
use names::mangler::{Demangled, Mangling};
use names::{dll, mangler, rename, types};

// The verdicts on a name that may be made.
const NOT_MADE: u8 = 0;

const MADE: u8 = 1;

// The verdicts on mangling.
const PREFIX: u8 = 0;

const MANGLED: u8 = 1;

const FAILS: u8 = 2;

// How long a name may be that is renamed or mangled.
const LONGEST: usize = 4095;

// Whether the public name is what the Rust says.
pub fn replace(s: &[u8], from: &[u8], to: &[u8], verdict: u8, made: &[u8]) -> bool
    ensures { result ≡ true → replace s.now from.now to.now ≡ told verdict made.now }
{
    if from.len() == 0 {
        return false;
    }
    if LONGEST < s.len() {
        return false;
    }
    if LONGEST < to.len() {
        return false;
    }
    let Some(name) = rename::replace(s, from, to) else {
        return verdict == NOT_MADE;
    };
    if verdict != MADE {
        return false;
    }
    name.equals(made)
}

// Whether the stem of a DLL name is what the Rust says.
pub fn stem(name: &[u8], verdict: u8, made: &[u8]) -> bool
    ensures { result ≡ true → some (stem name.now) ≡ told verdict made.now }
{
    if verdict != MADE {
        return false;
    }
    let n = dll::stem(name);
    wire::same(&name[..n], made)
}

// Whether the Rust made a name without its first byte.
fn is_dropped(name: &[u8], verdict: u8, made: &[u8]) -> bool
    ensures { result ≡ true → some (drop 1 name.now) ≡ told verdict made.now }
{
    if verdict != MADE {
        return false;
    }
    if name.len() == 0 {
        return false;
    }
    wire::same(&name[1..], made)
}

// Whether the Rust made a name without the three bytes at a place.
fn is_cut(name: &[u8], at: usize, verdict: u8, made: &[u8]) -> bool
    ensures { result ≡ true → some (take at name.now ++ drop (at + 3) name.now) ≡ told verdict made.now }
{
    if verdict != MADE {
        return false;
    }
    if made.len() < at {
        return false;
    }
    if name.len() < mangler::TAG_LEN {
        return false;
    }
    if name.len() - mangler::TAG_LEN < at {
        return false;
    }
    let end = at + mangler::TAG_LEN;
    if !wire::same(&name[..at], &made[..at]) {
        return false;
    }
    wire::same(&name[end..], &made[at..])
}

// Whether a name is demangled as the Rust says.
pub fn demangle(name: &[u8], verdict: u8, made: &[u8]) -> bool
    ensures { result ≡ true → demangle name.now ≡ told verdict made.now }
{
    match mangler::get_arm64ec_demangled_function_name(name) {
        Some(Demangled::Dropped) => is_dropped(name, verdict, made),
        Some(Demangled::Cut { at }) => is_cut(name, at, verdict, made),
        None => verdict == NOT_MADE,
    }
}

// Whether the Rust put a `#` before a name.
fn is_prefixed(name: &[u8], verdict: u8, made: &[u8]) -> bool
    ensures { result ≡ true → (verdict ≡ 0) × (hash ∷ name.now ≡ made.now) }
{
    if verdict != PREFIX {
        return false;
    }
    if LONGEST < name.len() {
        return false;
    }
    mangler::mangled(name).equals(made)
}

// Whether a name is mangled as the Rust says.
pub fn mangle(name: &[u8], verdict: u8, made: &[u8]) -> bool
    ensures { result ≡ true → verdict ≡ verdict_of (mangling_of name.now) }
{
    match mangler::get_arm64ec_mangled_function_name(name) {
        Some(Mangling::Prefix) => is_prefixed(name, verdict, made),
        Some(Mangling::Mangled) => verdict == MANGLED,
        None => verdict == FAILS,
    }
}

// Whether the name type of a base and a name is what the Rust says.
pub fn name_type(base: &[u8], name: &[u8], machine: u16, mingw: bool, verdict: u8) -> bool
    ensures { result ≡ true → plain_type machine mingw base.now name.now ≡ verdict }
{
    let t = types::get_name_type(base, name, machine, mingw);
    t.number() == verdict as u16
}

// Whether a type applied to a name gives the wanted one.
fn gives(t: ImportNameType, name: &[u8], wanted: &[u8]) -> bool
    ensures { result ≡ same (apply (type_number t) name.now) wanted.now }
{
    let r = types::apply_name_type(t, name);
    wire::same(wire::part(name, r.start, r.length), wanted)
}

// The number of the type by which a name gives the wanted one on I386, in the Rust's order.
fn type_giving(name: &[u8], wanted: &[u8]) -> u16
    ensures { result ≡ giving_type name.now wanted.now }
{
    if gives(ImportNameType::NameUndecorate, name, wanted) {
        return ImportNameType::NameUndecorate.number();
    }
    if gives(ImportNameType::NameNoprefix, name, wanted) {
        return ImportNameType::NameNoprefix.number();
    }
    if gives(ImportNameType::Name, name, wanted) {
        return ImportNameType::Name.number();
    }
    ImportNameType::NameExportas.number()
}

// Whether the type by which a name gives the wanted one is what the Rust says.
pub fn wanted(name: &[u8], wanted: &[u8], verdict: u8) -> bool
    ensures { result ≡ true → giving_type name.now wanted.now ≡ verdict }
{
    type_giving(name, wanted) == verdict as u16
}
