// The five members of an import library, written: a port of ObjectFactory of coff_import_file.rs. Each is one function, in the
// order of its bytes: header, sections, data, symbols, strings; but where symbols name more than one string, the strings are
// written first, since what writes them answers where each begins. A name is copied to its place and nowhere else.
#![tactic(auto)]

pub mod extents; // extents.rt: how many bytes each member has

ghost use Rattle.std.specs.Prelude.{◌≤◌, [], ◌∷◌, ◌++◌, length};
ghost use Rattle.wire.specs.Writes.{Wrote};
ghost use Rattle.format.specs.Layouts.{IMAGE-SCN-ALIGN-8BYTES, descriptor, null_descriptor, null_thunk, short, compat_stem, encode, thunk_name, null_thunk_bytes, weak_bytes};
ghost use Rattle.coff.specs.Import.{kind_number, type_number};
ghost use Rattle.members.specs.Members.{IsStem, weak_of};

use coff::constants::{
    IMAGE_SCN_CNT_INITIALIZED_DATA, IMAGE_SCN_MEM_READ, IMAGE_SCN_MEM_WRITE,
    IMAGE_SYM_CLASS_EXTERNAL,
};
use coff::import::{ImportNameType, ImportType};
use coff::machines::Machine;
use layout::places::{
    DATA_AT_1, DATA_AT_2, DESCRIPTOR_SYMBOLS, DESCRIPTOR_SYMBOLS_SIZE, DLL_AT, DRECTVE,
    FIRST_SECTION, IDATA_4BYTES, NULL_SYMBOLS_AT, WEAK_SYMBOLS, WEAK_SYMBOLS_SIZE,
};
use layout::tables::{NUL, STRINGS_AT};
use layout::{parts, tables, widths};
use records::{FileHeader, ImportDescriptor, ImportObjectHeader, Section};

// The name type stands above the two bits of the import type.
pub const NAME_TYPE: u16 = 4;

// The number of NameExportas.
pub const EXPORT_AS: u16 = 4;

// What stands before the name of an import's address.
pub const IMP_PREFIX: [u8; 6] = *b"__imp_";

// Writes an import descriptor, as far as out goes, and nothing else: a reference to the terminators, and the name of the
// DLL. Returns the next place, as all that follow do.
pub fn create_import_descriptor(
    out: &mut [u8],
    at: usize,
    machine: Machine,
    dll: &[u8],
    stem: &[u8],
    compat: bool,
) -> usize
    requires dll_len_bound { length dll.now ≤ 255 }
    requires stem { IsStem stem.now dll.now }
    ensures { Wrote out.old at (encode (descriptor machine.number dll.now compat)) out.new result }
{
    let dll_size = dll.len() + NUL;
    let header = FileHeader {
        machine: machine.number,
        number_of_sections: 2,
        pointer_to_symbol_table: (DLL_AT + dll_size) as u32,
        number_of_symbols: DESCRIPTOR_SYMBOLS,
        characteristics: widths::characteristics(machine),
    };
    let dll_size = dll_size as u32;
    let a = header.write(out, at);
    let b = parts::put_descriptor_sections(out, a, dll_size);
    let c = parts::put_descriptor_data(out, b, machine.relocation, dll);
    let d = wire::stop(c, DESCRIPTOR_SYMBOLS_SIZE, out.len());
    let table = tables::put_descriptor_table(out, d, stem, compat);
    parts::put_descriptor_symbols(out, c, table.name_at, table.null_at, table.thunk_at);
    table.next
}

// A null import descriptor, which ends the imports of a DLL.
pub fn create_null_import_descriptor(
    out: &mut [u8],
    at: usize,
    machine: Machine,
    stem: &[u8],
    compat: bool,
) -> usize
    requires { length stem.now ≤ 255 }
    ensures { Wrote out.old at (encode (null_descriptor machine.number (compat_stem compat stem.now))) out.new result }
{
    let a = FileHeader {
        machine: machine.number,
        number_of_sections: 1,
        pointer_to_symbol_table: NULL_SYMBOLS_AT as u32,
        number_of_symbols: 1,
        characteristics: widths::characteristics(machine),
    }
    .write(out, at);
    let b = Section {
        name: *b".idata$3",
        size_of_raw_data: ImportDescriptor::SIZE as u32,
        pointer_to_raw_data: DATA_AT_1 as u32,
        pointer_to_relocations: 0,
        number_of_relocations: 0,
        characteristics: IDATA_4BYTES,
    }
    .write(out, a);
    let c = ImportDescriptor {}.write(out, b);
    let d = parts::put_long(
        out,
        c,
        STRINGS_AT as u32,
        FIRST_SECTION,
        IMAGE_SYM_CLASS_EXTERNAL,
        0,
    );
    tables::put_null_table(out, d, stem, compat)
}

// A null thunk, which ends the import lookup and address tables.
pub fn create_null_thunk(out: &mut [u8], at: usize, machine: Machine, stem: &[u8]) -> usize
    requires { length stem.now ≤ 255 }
    ensures { Wrote out.old at (encode (null_thunk machine.number stem.now)) out.new result }
{
    let slot = widths::slot_size(machine);
    let alignment = widths::slot_alignment(machine);
    put_null_thunk(out, at, machine, slot, alignment, stem)
}

// A null thunk of slots of a size.
fn put_null_thunk(
    out: &mut [u8],
    at: usize,
    machine: Machine,
    slot: u32,
    alignment: u32,
    stem: &[u8],
) -> usize
    requires slot_bound { (slot ≤ 8) × (alignment ≤ IMAGE-SCN-ALIGN-8BYTES) }
    requires stem_len_bound { length stem.now ≤ 255 }
    ensures { Wrote out.old at (null_thunk_bytes machine.number slot alignment (thunk_name stem.now)) out.new result }
{
    let characteristics = alignment
        + IMAGE_SCN_CNT_INITIALIZED_DATA
        + IMAGE_SCN_MEM_READ
        + IMAGE_SCN_MEM_WRITE;
    let second_at = (DATA_AT_2 as u32) + slot;
    let a = FileHeader {
        machine: machine.number,
        number_of_sections: 2,
        pointer_to_symbol_table: second_at + slot,
        number_of_symbols: 1,
        characteristics: widths::characteristics(machine),
    }
    .write(out, at);
    let b = Section {
        name: *b".idata$5",
        size_of_raw_data: slot,
        pointer_to_raw_data: DATA_AT_2 as u32,
        pointer_to_relocations: 0,
        number_of_relocations: 0,
        characteristics,
    }
    .write(out, a);
    let c = Section {
        name: *b".idata$4",
        size_of_raw_data: slot,
        pointer_to_raw_data: second_at,
        pointer_to_relocations: 0,
        number_of_relocations: 0,
        characteristics,
    }
    .write(out, b);
    let d = wire::put_zeros(out, c, slot as usize);
    let e = wire::put_zeros(out, d, slot as usize);
    let f = parts::put_long(
        out,
        e,
        STRINGS_AT as u32,
        FIRST_SECTION,
        IMAGE_SYM_CLASS_EXTERNAL,
        0,
    );
    tables::put_thunk_table(out, f, stem)
}

// A short import. The export string, of two pieces, is written only for NameExportas.
pub fn create_short_import(
    out: &mut [u8],
    at: usize,
    sym: &[u8],
    dll: &[u8],
    ordinal: u16,
    import_type: ImportType,
    name_type: ImportNameType,
    head: &[u8],
    tail: &[u8],
    machine: u16,
) -> usize
    requires sym_len_bound { (length sym.now ≤ 65536) × (length dll.now ≤ 65536) }
    requires head_len_bound { (length head.now ≤ 65536) × (length tail.now ≤ 65536) }
    ensures { Wrote out.old at (encode (short machine ordinal (kind_number import_type) (type_number name_type) sym.now dll.now (head.now ++ tail.now))) out.new result }
{
    let size = extents::short_size(sym, dll, name_type, head, tail);
    let number = name_type.number();
    let types = number * NAME_TYPE + import_type.number();
    let a = ImportObjectHeader {
        machine,
        size_of_data: (size - ImportObjectHeader::SIZE) as u32,
        ordinal_or_hint: ordinal,
        name_type: types,
    }
    .write(out, at);
    let b = tables::put_string(out, a, sym);
    let c = tables::put_string(out, b, dll);
    if number == EXPORT_AS {
        return tables::put_pieces(out, c, head, tail);
    }
    c
}

// A weak external: the alias `weak` resolves to sym. With imp both begin with `__imp_`.
pub fn create_weak_external(
    out: &mut [u8],
    at: usize,
    sym: &[u8],
    weak: &[u8],
    imp: bool,
    machine: u16,
) -> usize
    requires { (length sym.now ≤ 65536) × (length weak.now ≤ 65536) }
    ensures { Wrote out.old at (encode (weak_of machine imp sym.now weak.now)) out.new result }
{
    if imp {
        return put_weak_external(out, at, &IMP_PREFIX, sym, weak, machine);
    }
    put_weak_external(out, at, b"", sym, weak, machine)
}

// A weak external whose names begin with a prefix.
fn put_weak_external(
    out: &mut [u8],
    at: usize,
    prefix: &[u8],
    sym: &[u8],
    weak: &[u8],
    machine: u16,
) -> usize
    requires prefix_len_bound { length prefix.now ≤ 65536 }
    requires sym_len_bound { (length sym.now ≤ 65536) × (length weak.now ≤ 65536) }
    ensures { Wrote out.old at (weak_bytes machine (prefix.now ++ sym.now) (prefix.now ++ weak.now)) out.new result }
{
    let a = FileHeader {
        machine,
        number_of_sections: 1,
        pointer_to_symbol_table: DATA_AT_1 as u32,
        number_of_symbols: WEAK_SYMBOLS,
        characteristics: 0,
    }
    .write(out, at);
    let b = Section {
        name: *b".drectve",
        size_of_raw_data: 0,
        pointer_to_raw_data: 0,
        pointer_to_relocations: 0,
        number_of_relocations: 0,
        characteristics: DRECTVE,
    }
    .write(out, a);
    let c = wire::stop(b, WEAK_SYMBOLS_SIZE, out.len());
    let table = tables::put_weak_table(out, c, prefix, sym, weak);
    parts::put_weak_symbols(out, b, table.target_at, table.alias_at);
    table.next
}
