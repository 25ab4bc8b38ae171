// Strings with NUL, and string tables: the size of the whole, then each string with its NUL. A string is given in pieces, which
// stand one after the other. What writes a table works out its size, and answers where each of its strings begins.
ghost use Rattle.std.specs.Prelude.{◌≤◌, ◌≡◌, [], ◌∷◌, ◌++◌, length};
ghost use Rattle.format.specs.Layouts.{descriptor_name, null_name, thunk_name, compat_stem};
ghost use Rattle.layout.specs.Runs.{Strings, Table, begins_at, descriptor_strings, weak_strings};

// Where the first string stands in a table: after the size.
pub const STRINGS_AT: usize = 4;

// How many bytes end a string.
pub const NUL: usize = 1;

pub const IMPORT_DESCRIPTOR_PREFIX: [u8; 20] = *b"__IMPORT_DESCRIPTOR_";

pub const NULL_IMPORT_DESCRIPTOR_SYMBOL_NAME: [u8; 24] = *b"__NULL_IMPORT_DESCRIPTOR";

pub const NULL_IMPORT_DESCRIPTOR_SYMBOL_NAME_PREFIX: [u8; 25] = *b"__NULL_IMPORT_DESCRIPTOR_";

pub const NULL_THUNK_DATA_PREFIX: [u8; 1] = *b"\x7f";

pub const NULL_THUNK_DATA_SUFFIX: [u8; 16] = *b"_NULL_THUNK_DATA";

// How long the name of a null thunk is beside its stem.
pub const NULL_THUNK_DATA: usize = NULL_THUNK_DATA_PREFIX.len() + NULL_THUNK_DATA_SUFFIX.len();

// ---- strings

// Writes a string and its NUL, as far as out goes, and nothing else. Returns the next place, as all that follow do.
pub fn put_string(out: &mut [u8], at: usize, s: &[u8]) -> usize
    ensures { Strings out.old at (s.now ∷ []) out.new result }
{
    let a = wire::put(out, at, s);
    wire::put_u8(out, a, 0)
}

// A string of two pieces.
pub fn put_pieces(out: &mut [u8], at: usize, head: &[u8], tail: &[u8]) -> usize
    ensures { Strings out.old at ((head.now ++ tail.now) ∷ []) out.new result }
{
    let a = wire::put(out, at, head);
    put_string(out, a, tail)
}

// The name of an import descriptor.
fn put_descriptor_name(out: &mut [u8], at: usize, stem: &[u8]) -> usize
    ensures { Strings out.old at (descriptor_name stem.now ∷ []) out.new result }
{
    put_pieces(out, at, &IMPORT_DESCRIPTOR_PREFIX, stem)
}

// The name of a null import descriptor in two pieces: it ends in the stem under compat.
fn null_name_pieces(stem: &[u8], compat: bool) -> (&[u8], &[u8])
    ensures value { null_name (compat_stem compat stem.now) ≡ result.0.now ++ result.1.now }
    ensures bound { (length result.0.now ≤ 25) × (length result.1.now ≤ length stem.now) }
{
    if compat {
        return (&NULL_IMPORT_DESCRIPTOR_SYMBOL_NAME_PREFIX, stem);
    }
    (&NULL_IMPORT_DESCRIPTOR_SYMBOL_NAME, b"")
}

// That name.
fn put_null_name(out: &mut [u8], at: usize, stem: &[u8], compat: bool) -> usize
    ensures { Strings out.old at (null_name (compat_stem compat stem.now) ∷ []) out.new result }
{
    let (head, tail) = null_name_pieces(stem, compat);
    put_pieces(out, at, head, tail)
}

// How long it is.
pub fn null_name_len(stem: &[u8], compat: bool) -> usize
    requires { length stem.now ≤ 255 }
    ensures { (result ≡ length (null_name (compat_stem compat stem.now))) × (result ≤ 280) }
{
    let (head, tail) = null_name_pieces(stem, compat);
    head.len() + tail.len()
}

// The name of a null thunk.
fn put_thunk_name(out: &mut [u8], at: usize, stem: &[u8]) -> usize
    ensures { Strings out.old at (thunk_name stem.now ∷ []) out.new result }
{
    let a = wire::put(out, at, &NULL_THUNK_DATA_PREFIX);
    put_pieces(out, a, stem, &NULL_THUNK_DATA_SUFFIX)
}

// ---- string tables

// A table that was written: the place after it, and where each of its strings begins in it. A struct for each names them; a
// list of places for all would have to be read by number.
#[derive(Clone, Copy)]
pub struct DescriptorTable {
    pub next: usize,
    pub name_at: u32,
    pub null_at: u32,
    pub thunk_at: u32,
}

#[derive(Clone, Copy)]
pub struct WeakTable {
    pub next: usize,
    pub target_at: u32,
    pub alias_at: u32,
}

// Of an import descriptor.
pub fn put_descriptor_table(out: &mut [u8], at: usize, stem: &[u8], compat: bool) -> DescriptorTable
    requires { length stem.now ≤ 255 }
    ensures table { Table out.old at (descriptor_strings compat stem.now) out.new result.next }
    ensures name_at_value { (result.name_at ≡ begins_at (descriptor_strings compat stem.now) 0) × (result.null_at ≡ begins_at (descriptor_strings compat stem.now) 1) × (result.thunk_at ≡ begins_at (descriptor_strings compat stem.now) 2) }
{
    let null_at = STRINGS_AT + IMPORT_DESCRIPTOR_PREFIX.len() + stem.len() + NUL;
    let thunk_at = null_at + null_name_len(stem, compat) + NUL;
    let size = (thunk_at + NULL_THUNK_DATA + stem.len() + NUL) as u32;
    let null_at = null_at as u32;
    let thunk_at = thunk_at as u32;
    let a = wire::put_u32(out, at, size);
    let b = put_descriptor_name(out, a, stem);
    let c = put_null_name(out, b, stem, compat);
    let next = put_thunk_name(out, c, stem);
    DescriptorTable {
        next,
        name_at: STRINGS_AT as u32,
        null_at,
        thunk_at,
    }
}

// Of a null import descriptor; its one string begins at STRINGS_AT.
pub fn put_null_table(out: &mut [u8], at: usize, stem: &[u8], compat: bool) -> usize
    requires { length stem.now ≤ 255 }
    ensures { Table out.old at (null_name (compat_stem compat stem.now) ∷ []) out.new result }
{
    let size = (STRINGS_AT + null_name_len(stem, compat) + NUL) as u32;
    let a = wire::put_u32(out, at, size);
    put_null_name(out, a, stem, compat)
}

// Of a null thunk; its one string begins at STRINGS_AT.
pub fn put_thunk_table(out: &mut [u8], at: usize, stem: &[u8]) -> usize
    requires { length stem.now ≤ 255 }
    ensures { Table out.old at (thunk_name stem.now ∷ []) out.new result }
{
    let size = (STRINGS_AT + NULL_THUNK_DATA + stem.len() + NUL) as u32;
    let a = wire::put_u32(out, at, size);
    put_thunk_name(out, a, stem)
}

// Of a weak external: two names that begin alike.
pub fn put_weak_table(
    out: &mut [u8],
    at: usize,
    prefix: &[u8],
    sym: &[u8],
    weak: &[u8],
) -> WeakTable
    requires prefix_len_bound { length prefix.now ≤ 65536 }
    requires sym_len_bound { (length sym.now ≤ 65536) × (length weak.now ≤ 65536) }
    ensures table { Table out.old at (weak_strings prefix.now sym.now weak.now) out.new result.next }
    ensures target_at_value { (result.target_at ≡ begins_at (weak_strings prefix.now sym.now weak.now) 0) × (result.alias_at ≡ begins_at (weak_strings prefix.now sym.now weak.now) 1) }
{
    let alias_at = STRINGS_AT + prefix.len() + sym.len() + NUL;
    let size = (alias_at + prefix.len() + weak.len() + NUL) as u32;
    let alias_at = alias_at as u32;
    let a = wire::put_u32(out, at, size);
    let b = put_pieces(out, a, prefix, sym);
    let next = put_pieces(out, b, prefix, weak);
    WeakTable {
        next,
        target_at: STRINGS_AT as u32,
        alias_at,
    }
}
