// The five layouts. A member whose names are bounded is drawn whole. The names of the others are the texts at their places: of
// a weak external, what stands before them is drawn, into a scratch that holds no more; of a short import, that is one record.
// Each function returns the place after what it looks for, or a place past the end.
ghost use Rattle.std.specs.Prelude.{◌+◌, ◌≤◌, ◌≡◌, [], ◌∷◌, length};
ghost use Rattle.wire.specs.Writes.{Found};
ghost use Rattle.format.specs.Layouts.{import_header_size, descriptor, null_descriptor, null_thunk, weak, compat_stem, encode};
ghost use Rattle.format.specs.Reader.{text_at, weak_strings_at};
ghost use Rattle.members.specs.Members.{IsStem, short_of};

use crate::strings;
use crate::strings::{SYMBOL_AT, WEAK_STRINGS_AT};
use coff::machines::Machine;
use layout::tables::{NUL, NULL_IMPORT_DESCRIPTOR_SYMBOL_NAME_PREFIX};
use members::extents;
use records::ImportObjectHeader;

// How long a DLL name or a stem may be, and an import descriptor then, which is the longest member of such names.
const MAX_NAME: usize = 255;

const LONGEST: usize = extents::DESCRIPTOR
    + NULL_IMPORT_DESCRIPTOR_SYMBOL_NAME_PREFIX.len()
    + 4 * MAX_NAME;

// An import descriptor.
pub fn find_import_descriptor(
    s: &[u8],
    machine: Machine,
    dll: &[u8],
    stem: &[u8],
    compat: bool,
) -> usize
    requires dll_len_bound { length dll.now ≤ 255 }
    requires stem { IsStem stem.now dll.now }
    ensures { Found s.now 0 (encode (descriptor machine.number dll.now compat)) result }
{
    let mut member = [0; LONGEST];
    let n = members::create_import_descriptor(&mut member, 0, machine, dll, stem, compat);
    wire::find(s, 0, wire::part(&member, 0, n))
}

// A null import descriptor.
pub fn find_null_import_descriptor(s: &[u8], machine: Machine, stem: &[u8], compat: bool) -> usize
    requires { length stem.now ≤ 255 }
    ensures { Found s.now 0 (encode (null_descriptor machine.number (compat_stem compat stem.now))) result }
{
    let mut member = [0; LONGEST];
    let n = members::create_null_import_descriptor(&mut member, 0, machine, stem, compat);
    wire::find(s, 0, wire::part(&member, 0, n))
}

// A null thunk.
pub fn find_null_thunk(s: &[u8], machine: Machine, stem: &[u8]) -> usize
    requires { length stem.now ≤ 255 }
    ensures { Found s.now 0 (encode (null_thunk machine.number stem.now)) result }
{
    let mut member = [0; LONGEST];
    let n = members::create_null_thunk(&mut member, 0, machine, stem);
    wire::find(s, 0, wire::part(&member, 0, n))
}

// A short import without an export string, and with one. Its names are the texts at their places, as a weak external's are.
pub fn find_short(
    s: &[u8],
    machine: u16,
    ordinal: u16,
    types: u16,
    symbol: &[u8],
    dll: &[u8],
) -> usize
    requires symbol_len_bound { (length symbol.now ≤ 65536) × (length dll.now ≤ 65536) }
    requires symbol_value { symbol.now ≡ text_at s.now import_header_size }
    requires dll_value { dll.now ≡ text_at s.now (import_header_size + (length symbol.now + 1)) }
    ensures { Found s.now 0 (short_of machine ordinal types (symbol.now ∷ dll.now ∷ [])) result }
{
    let size_of_data = (symbol.len() + NUL + dll.len() + NUL) as u32;
    let a = ImportObjectHeader {
        machine,
        size_of_data,
        ordinal_or_hint: ordinal,
        name_type: types,
    }
    .find(s, 0);
    let b = strings::find_text(s, a, SYMBOL_AT, symbol);
    strings::find_text(s, b, SYMBOL_AT + (symbol.len() + NUL), dll)
}

pub fn find_short_as(
    s: &[u8],
    machine: u16,
    ordinal: u16,
    types: u16,
    symbol: &[u8],
    dll: &[u8],
    export: &[u8],
) -> usize
    requires symbol_len_bound { (length symbol.now ≤ 65536) × (length dll.now ≤ 65536) }
    requires symbol_value { symbol.now ≡ text_at s.now import_header_size }
    requires dll_value { dll.now ≡ text_at s.now (import_header_size + (length symbol.now + 1)) }
    requires export_len_bound { length export.now ≤ 65536 }
    requires export_value { export.now ≡ text_at s.now (import_header_size + (length symbol.now + 1) + (length dll.now + 1)) }
    ensures { Found s.now 0 (short_of machine ordinal types (symbol.now ∷ dll.now ∷ export.now ∷ [])) result }
{
    let size_of_data = (symbol.len() + NUL + dll.len() + NUL + export.len() + NUL) as u32;
    let a = ImportObjectHeader {
        machine,
        size_of_data,
        ordinal_or_hint: ordinal,
        name_type: types,
    }
    .find(s, 0);
    let dll_at = SYMBOL_AT + (symbol.len() + NUL);
    let b = strings::find_text(s, a, SYMBOL_AT, symbol);
    let c = strings::find_text(s, b, dll_at, dll);
    strings::find_text(s, c, dll_at + (dll.len() + NUL), export)
}

// A weak external.
pub fn find_weak_external(s: &[u8], machine: u16, target: &[u8], alias: &[u8]) -> usize
    requires target_len_bound { (length target.now ≤ 65536) × (length alias.now ≤ 65536) }
    requires target_value { target.now ≡ text_at s.now weak_strings_at }
    requires alias_value { alias.now ≡ text_at s.now (weak_strings_at + (length target.now + 1)) }
    ensures { Found s.now 0 (encode (weak machine target.now alias.now)) result }
{
    let mut head = [0; WEAK_STRINGS_AT];
    members::create_weak_external(&mut head, 0, target, alias, false, machine);
    let a = wire::find(s, 0, &head);
    let b = strings::find_text(s, a, WEAK_STRINGS_AT, target);
    strings::find_text(s, b, WEAK_STRINGS_AT + (target.len() + NUL), alias)
}
