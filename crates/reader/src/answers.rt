// What is answered for a member that the bytes may be: its fields, each name by its place, where it is admitted and the bytes
// are its bytes; else the refusal.
ghost use Rattle.std.specs.Prelude.{◌+◌, ◌/◌, ◌%◌, ◌≤◌, ◌≡◌, true, [], length};
ghost use Rattle.std.proofs.Math.Option.{none, some};
ghost use Rattle.format.specs.Layouts.{import_header_size, descriptor, null_descriptor, null_thunk, short, weak};
ghost use Rattle.format.specs.Reader.{ordinary, admits_dll, text_at, thunk_strings_at, weak_strings_at};
ghost use Rattle.members.specs.Members.{IsStem};
ghost use Rattle.reader.specs.Answers.{answer, Clear, Ordinary, admits_types};

use crate::texts;
use crate::texts::{MAX_STEM, MAX_SYMBOL};
use coff::machines::Machine;
use finds::layouts;
use finds::strings::{NULL_STRINGS_AT, SYMBOL_AT, THUNK_STRINGS_AT, WEAK_STRINGS_AT};
use format::{Read, Reason, Refusal, Span};
use layout::places::{DESCRIPTOR_SYMBOLS_SIZE, DLL_AT};
use layout::tables::{
    IMPORT_DESCRIPTOR_PREFIX, NUL, NULL_IMPORT_DESCRIPTOR_SYMBOL_NAME_PREFIX,
    NULL_THUNK_DATA_PREFIX, STRINGS_AT,
};
use layout::widths;

// The refusal: the bytes are no admitted member's.
pub const REFUSED: Refusal = Refusal {
    reason: Reason::NotAMember,
    place: 0,
};

// How long a weak external's names may be.
const MAX_WEAK: usize = 8195;

// Where the stem of an import descriptor stands, after its DLL name with NUL, and that of a null import descriptor.
const DESCRIPTOR_STEM_AT: usize = DESCRIPTOR_SYMBOLS_SIZE
    + STRINGS_AT
    + IMPORT_DESCRIPTOR_PREFIX.len();

const NULL_STEM_AT: usize = NULL_STRINGS_AT + NULL_IMPORT_DESCRIPTOR_SYMBOL_NAME_PREFIX.len();

// Of an import descriptor.
pub fn as_descriptor(
    b: &[u8],
    machine: Machine,
    dll: &[u8],
    stem: &[u8],
    compat: bool,
) -> Result<Read, Refusal>
    requires ordinary { Ordinary machine }
    requires dll_value { admits_dll dll.now ≡ true }
    requires stem { IsStem stem.now dll.now }
    ensures { result ≡ answer b.now (descriptor machine.number dll.now compat) }
{
    if layouts::find_import_descriptor(b, machine, dll, stem, compat) != b.len() {
        return Err(REFUSED);
    }
    Ok(Read::Descriptor {
        machine: machine.number,
        compat,
        dll: Span {
            start: DLL_AT,
            length: dll.len(),
        },
        stem: Span {
            start: DLL_AT + (dll.len() + NUL) + DESCRIPTOR_STEM_AT,
            length: stem.len(),
        },
    })
}

// Of a null import descriptor.
pub fn as_null_descriptor(b: &[u8], machine: Machine) -> Result<Read, Refusal>
    requires { Ordinary machine }
    ensures { result ≡ answer b.now (null_descriptor machine.number none) }
{
    if layouts::find_null_import_descriptor(b, machine, b"", false) != b.len() {
        return Err(REFUSED);
    }
    Ok(Read::NullDescriptor {
        machine: machine.number,
        compat: false,
        stem: Span {
            start: 0,
            length: 0,
        },
    })
}

// Of one whose name ends in a stem.
pub fn as_null_descriptor_of(b: &[u8], machine: Machine, stem: &[u8]) -> Result<Read, Refusal>
    requires ordinary { Ordinary machine }
    requires clear { Clear stem.now }
    ensures { result ≡ answer b.now (null_descriptor machine.number (some stem.now)) }
{
    if !texts::fits(stem, 1, MAX_STEM) {
        return Err(REFUSED);
    }
    if layouts::find_null_import_descriptor(b, machine, stem, true) != b.len() {
        return Err(REFUSED);
    }
    Ok(Read::NullDescriptor {
        machine: machine.number,
        compat: true,
        stem: Span {
            start: NULL_STEM_AT,
            length: stem.len(),
        },
    })
}

// Where the name of a null thunk stands.
pub fn thunk_strings_at(machine: Machine) -> usize
    ensures { (result ≡ thunk_strings_at machine.number) × (result ≤ 138) }
{
    let slot = widths::slot_size(machine) as usize;
    THUNK_STRINGS_AT + slot + slot
}

// Of a null thunk.
pub fn as_null_thunk(b: &[u8], machine: Machine, stem: &[u8]) -> Result<Read, Refusal>
    requires ordinary { Ordinary machine }
    requires clear { Clear stem.now }
    ensures { result ≡ answer b.now (null_thunk machine.number stem.now) }
{
    if !texts::fits(stem, 1, MAX_STEM) {
        return Err(REFUSED);
    }
    if layouts::find_null_thunk(b, machine, stem) != b.len() {
        return Err(REFUSED);
    }
    Ok(Read::NullThunk {
        machine: machine.number,
        stem: Span {
            start: thunk_strings_at(machine) + NULL_THUNK_DATA_PREFIX.len(),
            length: stem.len(),
        },
    })
}

// Of a short import without an export string, whose names are the texts at their places.
pub fn as_short(
    b: &[u8],
    machine: u16,
    ordinal: u16,
    types: u16,
    symbol: &[u8],
    dll: &[u8],
) -> Result<Read, Refusal>
    requires types_value { admits_types machine (types % 4) (types / 4) ≡ true }
    requires not_exportas { types / 4 ≡ 4 → ⊥ }
    requires symbol_value { symbol.now ≡ text_at b.now import_header_size }
    requires dll_value { dll.now ≡ text_at b.now (import_header_size + (length symbol.now + 1)) }
    ensures { result ≡ answer b.now (short machine ordinal (types % 4) (types / 4) symbol.now dll.now []) }
{
    if !texts::admits_names(symbol, dll) {
        return Err(REFUSED);
    }
    if layouts::find_short(b, machine, ordinal, types, symbol, dll) != b.len() {
        return Err(REFUSED);
    }
    Ok(Read::ShortImport {
        machine,
        ordinal,
        name_type: types / members::NAME_TYPE,
        import_type: types % members::NAME_TYPE,
        symbol: Span {
            start: SYMBOL_AT,
            length: symbol.len(),
        },
        dll: Span {
            start: SYMBOL_AT + (symbol.len() + NUL),
            length: dll.len(),
        },
        export: Span {
            start: 0,
            length: 0,
        },
    })
}

// Of one with an export string.
pub fn as_short_as(
    b: &[u8],
    machine: u16,
    ordinal: u16,
    types: u16,
    symbol: &[u8],
    dll: &[u8],
    export: &[u8],
) -> Result<Read, Refusal>
    requires types_value { admits_types machine (types % 4) (types / 4) ≡ true }
    requires types_value_2 { types / 4 ≡ 4 }
    requires symbol_value { symbol.now ≡ text_at b.now import_header_size }
    requires dll_value { dll.now ≡ text_at b.now (import_header_size + (length symbol.now + 1)) }
    requires export_value { export.now ≡ text_at b.now (import_header_size + (length symbol.now + 1) + (length dll.now + 1)) }
    ensures { result ≡ answer b.now (short machine ordinal (types % 4) (types / 4) symbol.now dll.now export.now) }
{
    if !texts::admits_names(symbol, dll) {
        return Err(REFUSED);
    }
    if !texts::fits(export, 1, MAX_SYMBOL) {
        return Err(REFUSED);
    }
    if layouts::find_short_as(b, machine, ordinal, types, symbol, dll, export) != b.len() {
        return Err(REFUSED);
    }
    Ok(Read::ShortImport {
        machine,
        ordinal,
        name_type: types / members::NAME_TYPE,
        import_type: types % members::NAME_TYPE,
        symbol: Span {
            start: SYMBOL_AT,
            length: symbol.len(),
        },
        dll: Span {
            start: SYMBOL_AT + (symbol.len() + NUL),
            length: dll.len(),
        },
        export: Span {
            start: SYMBOL_AT + (symbol.len() + NUL) + (dll.len() + NUL),
            length: export.len(),
        },
    })
}

// Of a weak external, whose names are the texts at their places.
pub fn as_weak(b: &[u8], machine: u16, target: &[u8], alias: &[u8]) -> Result<Read, Refusal>
    requires machine_value { ordinary machine ≡ true }
    requires target_value { target.now ≡ text_at b.now weak_strings_at }
    requires alias_value { alias.now ≡ text_at b.now (weak_strings_at + (length target.now + 1)) }
    ensures { result ≡ answer b.now (weak machine target.now alias.now) }
{
    if !texts::fits(target, 1, MAX_WEAK) {
        return Err(REFUSED);
    }
    if !texts::fits(alias, 1, MAX_WEAK) {
        return Err(REFUSED);
    }
    if layouts::find_weak_external(b, machine, target, alias) != b.len() {
        return Err(REFUSED);
    }
    Ok(Read::WeakExternal {
        machine,
        target: Span {
            start: WEAK_STRINGS_AT,
            length: target.len(),
        },
        alias: Span {
            start: WEAK_STRINGS_AT + (target.len() + NUL),
            length: alias.len(),
        },
    })
}
