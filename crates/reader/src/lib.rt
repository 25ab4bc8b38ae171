// The reader: any bytes, read exactly where they are one of the five members.
//
// The fields are taken from where the one layout that fits the header has them. Whether the member that they make is admitted
// is tested, and its bytes, as the writer writes them, are looked for: they must end where the bytes end. A name is answered by
// its place.
#![tactic(auto)]

pub mod texts; // texts.rt: names in bytes, and what is admitted
pub mod answers; // answers.rt: what is answered for a member

ghost use Rattle.std.specs.Prelude.{◌≤◌, ◌≡◌, length};
ghost use Rattle.format.specs.Layouts.{import_header_size};
ghost use Rattle.format.specs.Reader.{descriptor_guess, null_guess, thunk_guess, short_guess, weak_guess, read_fields};
ghost use Rattle.reader.specs.Answers.{answer, Ordinary, First, object_guess};

use crate::answers::REFUSED;
use coff::constants::IMAGE_SYM_ABSOLUTE;
use coff::machines::Machine;
use finds::strings::{NULL_STRINGS_AT, SYMBOL_AT, WEAK_STRINGS_AT};
use format::{Read, Refusal};
use layout::places::{DATA_AT_1, DESCRIPTOR_SYMBOLS, DLL_AT, WEAK_SYMBOLS};
use layout::tables::{
    NUL, NULL_IMPORT_DESCRIPTOR_SYMBOL_NAME, NULL_IMPORT_DESCRIPTOR_SYMBOL_NAME_PREFIX,
    NULL_THUNK_DATA, NULL_THUNK_DATA_PREFIX,
};
use members::extents;
use records::{FileHeader, ImportObjectHeader, Symbol};

// An import descriptor. Under compat it is longer, by the stem.
fn read_descriptor(b: &[u8], machine: Machine) -> Result<Read, Refusal>
    requires ordinary { Ordinary machine }
    requires first { First machine b.now }
    ensures { result ≡ answer b.now (descriptor_guess b.now) }
{
    let dll = texts::text(b, DLL_AT);
    if !texts::admits_dll(dll) {
        return Err(REFUSED);
    }
    let stem = wire::part(dll, 0, names::dll::stem(dll));
    let compat = b.len() != extents::descriptor_size(dll, stem, false);
    answers::as_descriptor(b, machine, dll, stem, compat)
}

// A null import descriptor. Its name ends in the stem, or is the name alone.
fn read_null_descriptor(b: &[u8], machine: Machine) -> Result<Read, Refusal>
    requires ordinary { Ordinary machine }
    requires first { First machine b.now }
    ensures { result ≡ answer b.now (null_guess b.now) }
{
    let name = texts::text(b, NULL_STRINGS_AT);
    if wire::same(name, &NULL_IMPORT_DESCRIPTOR_SYMBOL_NAME) {
        return answers::as_null_descriptor(b, machine);
    }
    let prefix = NULL_IMPORT_DESCRIPTOR_SYMBOL_NAME_PREFIX.len();
    if name.len() < prefix {
        return Err(REFUSED);
    }
    answers::as_null_descriptor_of(b, machine, wire::part(name, prefix, name.len() - prefix))
}

// A null thunk.
fn read_null_thunk(b: &[u8], machine: Machine) -> Result<Read, Refusal>
    requires ordinary { Ordinary machine }
    requires first { First machine b.now }
    ensures { result ≡ answer b.now (thunk_guess b.now) }
{
    let name = texts::text(b, answers::thunk_strings_at(machine));
    if name.len() < NULL_THUNK_DATA {
        return Err(REFUSED);
    }
    let n = name.len() - NULL_THUNK_DATA;
    answers::as_null_thunk(
        b,
        machine,
        wire::part(name, NULL_THUNK_DATA_PREFIX.len(), n),
    )
}

// A weak external. Its first symbol is absolute: other bytes are refused before anything is drawn.
fn read_weak(b: &[u8], machine: Machine) -> Result<Read, Refusal>
    requires ordinary { Ordinary machine }
    requires first { First machine b.now }
    ensures { result ≡ answer b.now (weak_guess b.now) }
{
    if b.len() < WEAK_STRINGS_AT {
        return Err(REFUSED);
    }
    if Symbol::read(b, DATA_AT_1).section_number != IMAGE_SYM_ABSOLUTE {
        return Err(REFUSED);
    }
    let target = texts::text(b, WEAK_STRINGS_AT);
    let alias = texts::text(b, WEAK_STRINGS_AT + (target.len() + NUL));
    answers::as_weak(b, machine.number, target, alias)
}

// A short import. The export string stands only under NameExportas.
fn read_short(b: &[u8]) -> Result<Read, Refusal>
    requires { import_header_size ≤ length b.now }
    ensures { result ≡ answer b.now (short_guess b.now) }
{
    let h = ImportObjectHeader::read(b, 0);
    let types = h.name_type;
    let name_type = types / members::NAME_TYPE;
    if !texts::admits_types(h.machine, types % members::NAME_TYPE, name_type) {
        return Err(REFUSED);
    }
    let symbol = texts::text(b, SYMBOL_AT);
    let dll_at = SYMBOL_AT + (symbol.len() + NUL);
    let dll = texts::text(b, dll_at);
    if name_type == members::EXPORT_AS {
        return answers::as_short_as(
            b,
            h.machine,
            h.ordinal_or_hint,
            types,
            symbol,
            dll,
            texts::text(b, dll_at + (dll.len() + NUL)),
        );
    }
    answers::as_short(b, h.machine, h.ordinal_or_hint, types, symbol, dll)
}

// A member with a file header, by its numbers of symbols and sections.
fn read_object(b: &[u8], machine: Machine, symbols: u32, sections: u16) -> Result<Read, Refusal>
    requires ordinary { Ordinary machine }
    requires first { First machine b.now }
    ensures { result ≡ answer b.now (object_guess symbols sections b.now) }
{
    if symbols == DESCRIPTOR_SYMBOLS {
        return read_descriptor(b, machine);
    }
    if symbols == WEAK_SYMBOLS {
        return read_weak(b, machine);
    }
    if sections == 1 {
        return read_null_descriptor(b, machine);
    }
    read_null_thunk(b, machine)
}

// Reads a member: its layout with its fields, or the refusal.
pub fn read(b: &[u8]) -> Result<Read, Refusal>
    ensures { result ≡ read_fields b.now }
{
    if b.len() < FileHeader::SIZE {
        return Err(REFUSED);
    }
    let h = FileHeader::read(b, 0);
    if h.machine == 0 {
        return read_short(b);
    }
    let Some(machine) = texts::ordinary_machine(h.machine) else {
        return Err(REFUSED);
    };
    read_object(b, machine, h.number_of_symbols, h.number_of_sections)
}
