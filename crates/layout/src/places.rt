// Where the parts of a member stand, and what its sections are; and the parts of a member set.
use coff::constants::{
    IMAGE_SCN_ALIGN_2BYTES, IMAGE_SCN_ALIGN_4BYTES, IMAGE_SCN_CNT_INITIALIZED_DATA,
    IMAGE_SCN_LNK_INFO, IMAGE_SCN_LNK_REMOVE, IMAGE_SCN_MEM_READ, IMAGE_SCN_MEM_WRITE,
};
use records::{FileHeader, ImportDescriptor, Relocation, Section, Symbol};

// ---- counts

// The symbols of an import descriptor and of a weak external, with the auxiliary record.
pub const DESCRIPTOR_SYMBOLS: u32 = 7;

pub const WEAK_SYMBOLS: u32 = 5;

// How many bytes they are.
pub const DESCRIPTOR_SYMBOLS_SIZE: usize = (DESCRIPTOR_SYMBOLS as usize) * Symbol::SIZE;

pub const WEAK_SYMBOLS_SIZE: usize = (WEAK_SYMBOLS as usize) * Symbol::SIZE;

// The relocations of an import descriptor.
pub const NUMBER_OF_RELOCATIONS: u16 = 3;

// ---- places

// What follows the sections, of one section and of two.
pub const DATA_AT_1: usize = FileHeader::SIZE + Section::SIZE;

pub const DATA_AT_2: usize = FileHeader::SIZE + 2 * Section::SIZE;

// The relocations and the DLL name of an import descriptor.
pub const RELOCATIONS_AT: usize = DATA_AT_2 + ImportDescriptor::SIZE;

pub const DLL_AT: usize = RELOCATIONS_AT + (NUMBER_OF_RELOCATIONS as usize) * Relocation::SIZE;

// The symbols of a null import descriptor.
pub const NULL_SYMBOLS_AT: usize = DATA_AT_1 + ImportDescriptor::SIZE;

// ---- sections

// A section of the import tables, beside its alignment; such a section of an alignment.
const IDATA: u32 = IMAGE_SCN_CNT_INITIALIZED_DATA | IMAGE_SCN_MEM_READ | IMAGE_SCN_MEM_WRITE;

pub const IDATA_2BYTES: u32 = IMAGE_SCN_ALIGN_2BYTES | IDATA;

pub const IDATA_4BYTES: u32 = IMAGE_SCN_ALIGN_4BYTES | IDATA;

// A section that a linker reads and leaves out.
pub const DRECTVE: u32 = IMAGE_SCN_LNK_INFO | IMAGE_SCN_LNK_REMOVE;

// The numbers of the sections of a member.
pub const FIRST_SECTION: i16 = 1;

pub const SECOND_SECTION: i16 = 2;

// ---- the member set

// How many bytes its header has, and each member's entry in its directory.
pub const SET_HEADER_SIZE: usize = 16;

pub const ENTRY_SIZE: usize = 8;

// The fixed members, which stand before both lists.
pub const FIXED_MEMBERS: usize = 3;
