// Runs of records of one kind. Each is written as far as out goes, and nothing else; the next place is returned. It is kept by
// whoever calls, and in no struct with out: strings are written before the symbols that stand before them.
ghost use Rattle.wire.specs.Writes.{Wrote};
ghost use Rattle.format.specs.Layouts.{symbol, long_name};
ghost use Rattle.layout.specs.Runs.{Parts, descriptor_sections, relocations, descriptor_data, descriptor_symbols, weak_symbols};

use crate::places::{
    DATA_AT_2, DLL_AT, FIRST_SECTION, IDATA_2BYTES, IDATA_4BYTES, NUMBER_OF_RELOCATIONS,
    RELOCATIONS_AT, SECOND_SECTION,
};
use crate::tables;
use coff::constants::{
    IMAGE_SYM_ABSOLUTE, IMAGE_SYM_CLASS_EXTERNAL, IMAGE_SYM_CLASS_NULL, IMAGE_SYM_CLASS_SECTION,
    IMAGE_SYM_CLASS_STATIC, IMAGE_SYM_CLASS_WEAK_EXTERNAL, IMAGE_SYM_UNDEFINED,
    IMAGE_WEAK_EXTERN_SEARCH_ALIAS,
};
use records::{ImportDescriptor, Relocation, Section, Symbol};

// Where the symbols stand that a descriptor's relocations and a weak external speak of.
pub const DLL_NAME: u32 = 2;

pub const LOOKUP_TABLE: u32 = 3;

pub const ADDRESS_TABLE: u32 = 4;

pub const TARGET: u32 = 2;

// A symbol whose name stands in the string table.
pub fn put_long(
    out: &mut [u8],
    at: usize,
    offset: u32,
    section_number: i16,
    storage_class: u8,
    number_of_aux_symbols: u8,
) -> usize
    ensures { Wrote out.old at (symbol (long_name offset) section_number storage_class number_of_aux_symbols) out.new result }
{
    let name = records::long_name(offset);
    Symbol {
        name,
        section_number,
        storage_class,
        number_of_aux_symbols,
    }
    .write(out, at)
}

// ---- the import descriptor

// Both sections; the second holds the DLL name with its NUL.
pub fn put_descriptor_sections(out: &mut [u8], at: usize, dll_size: u32) -> usize
    ensures { Parts out.old at (descriptor_sections dll_size) out.new result }
{
    let a = Section {
        name: *b".idata$2",
        size_of_raw_data: ImportDescriptor::SIZE as u32,
        pointer_to_raw_data: DATA_AT_2 as u32,
        pointer_to_relocations: RELOCATIONS_AT as u32,
        number_of_relocations: NUMBER_OF_RELOCATIONS,
        characteristics: IDATA_4BYTES,
    }
    .write(out, at);
    Section {
        name: *b".idata$6",
        size_of_raw_data: dll_size,
        pointer_to_raw_data: DLL_AT as u32,
        pointer_to_relocations: 0,
        number_of_relocations: 0,
        characteristics: IDATA_2BYTES,
    }
    .write(out, a)
}

// The relocations of the fields that a linker sets, of a machine's type.
pub fn put_relocations(out: &mut [u8], at: usize, typ: u16) -> usize
    ensures { Parts out.old at (relocations typ) out.new result }
{
    let a = Relocation {
        virtual_address: ImportDescriptor::NAME,
        symbol_table_index: DLL_NAME,
        typ,
    }
    .write(out, at);
    let b = Relocation {
        virtual_address: ImportDescriptor::ORIGINAL_FIRST_THUNK,
        symbol_table_index: LOOKUP_TABLE,
        typ,
    }
    .write(out, a);
    Relocation {
        virtual_address: ImportDescriptor::FIRST_THUNK,
        symbol_table_index: ADDRESS_TABLE,
        typ,
    }
    .write(out, b)
}

// The data of both sections: the descriptor with its relocations, and the DLL name.
pub fn put_descriptor_data(out: &mut [u8], at: usize, typ: u16, dll: &[u8]) -> usize
    ensures { Parts out.old at (descriptor_data typ dll.now) out.new result }
{
    let a = ImportDescriptor {}.write(out, at);
    let b = put_relocations(out, a, typ);
    tables::put_string(out, b, dll)
}

// The symbols, by where its own name, the null name and the thunk's name begin in the string table.
pub fn put_descriptor_symbols(
    out: &mut [u8],
    at: usize,
    name_at: u32,
    null_at: u32,
    thunk_at: u32,
) -> usize
    ensures { Parts out.old at (descriptor_symbols name_at null_at thunk_at) out.new result }
{
    let a = put_long(out, at, name_at, FIRST_SECTION, IMAGE_SYM_CLASS_EXTERNAL, 0);
    let b = Symbol {
        name: *b".idata$2",
        section_number: FIRST_SECTION,
        storage_class: IMAGE_SYM_CLASS_SECTION,
        number_of_aux_symbols: 0,
    }
    .write(out, a);
    let c = Symbol {
        name: *b".idata$6",
        section_number: SECOND_SECTION,
        storage_class: IMAGE_SYM_CLASS_STATIC,
        number_of_aux_symbols: 0,
    }
    .write(out, b);
    let d = Symbol {
        name: *b".idata$4",
        section_number: IMAGE_SYM_UNDEFINED,
        storage_class: IMAGE_SYM_CLASS_SECTION,
        number_of_aux_symbols: 0,
    }
    .write(out, c);
    let e = Symbol {
        name: *b".idata$5",
        section_number: IMAGE_SYM_UNDEFINED,
        storage_class: IMAGE_SYM_CLASS_SECTION,
        number_of_aux_symbols: 0,
    }
    .write(out, d);
    let f = put_long(
        out,
        e,
        null_at,
        IMAGE_SYM_UNDEFINED,
        IMAGE_SYM_CLASS_EXTERNAL,
        0,
    );
    put_long(
        out,
        f,
        thunk_at,
        IMAGE_SYM_UNDEFINED,
        IMAGE_SYM_CLASS_EXTERNAL,
        0,
    )
}

// ---- the weak external

// The symbols, by where the target and the alias begin in the string table.
pub fn put_weak_symbols(out: &mut [u8], at: usize, target_at: u32, alias_at: u32) -> usize
    ensures { Parts out.old at (weak_symbols target_at alias_at) out.new result }
{
    let aux = records::auxiliary(TARGET, IMAGE_WEAK_EXTERN_SEARCH_ALIAS);
    let a = Symbol {
        name: *b"@comp.id",
        section_number: IMAGE_SYM_ABSOLUTE,
        storage_class: IMAGE_SYM_CLASS_STATIC,
        number_of_aux_symbols: 0,
    }
    .write(out, at);
    let b = Symbol {
        name: *b"@feat.00",
        section_number: IMAGE_SYM_ABSOLUTE,
        storage_class: IMAGE_SYM_CLASS_STATIC,
        number_of_aux_symbols: 0,
    }
    .write(out, a);
    let c = put_long(
        out,
        b,
        target_at,
        IMAGE_SYM_UNDEFINED,
        IMAGE_SYM_CLASS_EXTERNAL,
        0,
    );
    let d = put_long(
        out,
        c,
        alias_at,
        IMAGE_SYM_UNDEFINED,
        IMAGE_SYM_CLASS_WEAK_EXTERNAL,
        1,
    );
    Symbol {
        name: aux,
        section_number: IMAGE_SYM_UNDEFINED,
        storage_class: IMAGE_SYM_CLASS_NULL,
        number_of_aux_symbols: 0,
    }
    .write(out, d)
}
