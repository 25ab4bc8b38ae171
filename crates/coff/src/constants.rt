// The constants of the PE Format document that members use, in its spelling.

// ---- machines

pub const IMAGE_FILE_MACHINE_I386: u16 = 0x014C;

pub const IMAGE_FILE_MACHINE_ARMNT: u16 = 0x01C4;

pub const IMAGE_FILE_MACHINE_AMD64: u16 = 0x8664;

pub const IMAGE_FILE_MACHINE_ARM64: u16 = 0xAA64;

pub const IMAGE_FILE_MACHINE_ARM64EC: u16 = 0xA641;

pub const IMAGE_FILE_MACHINE_ARM64X: u16 = 0xA64E;

// ---- relocations to an address without the image's base

pub const IMAGE_REL_I386_DIR32NB: u16 = 7;

pub const IMAGE_REL_ARM_ADDR32NB: u16 = 2;

pub const IMAGE_REL_AMD64_ADDR32NB: u16 = 3;

pub const IMAGE_REL_ARM64_ADDR32NB: u16 = 2;

// ---- characteristics of an object file and of a section

pub const IMAGE_FILE_32BIT_MACHINE: u16 = 0x0100;

pub const IMAGE_SCN_CNT_INITIALIZED_DATA: u32 = 0x00000040;

pub const IMAGE_SCN_LNK_INFO: u32 = 0x00000200;

pub const IMAGE_SCN_LNK_REMOVE: u32 = 0x00000800;

pub const IMAGE_SCN_ALIGN_2BYTES: u32 = 0x00200000;

pub const IMAGE_SCN_ALIGN_4BYTES: u32 = 0x00300000;

pub const IMAGE_SCN_ALIGN_8BYTES: u32 = 0x00400000;

pub const IMAGE_SCN_MEM_READ: u32 = 0x40000000;

pub const IMAGE_SCN_MEM_WRITE: u32 = 0x80000000;

// ---- section numbers and storage classes of a symbol

pub const IMAGE_SYM_UNDEFINED: i16 = 0;

pub const IMAGE_SYM_ABSOLUTE: i16 = -1;

pub const IMAGE_SYM_CLASS_NULL: u8 = 0;

pub const IMAGE_SYM_CLASS_EXTERNAL: u8 = 2;

pub const IMAGE_SYM_CLASS_STATIC: u8 = 3;

pub const IMAGE_SYM_CLASS_SECTION: u8 = 104;

pub const IMAGE_SYM_CLASS_WEAK_EXTERNAL: u8 = 105;

// ---- how a weak external is searched

pub const IMAGE_WEAK_EXTERN_SEARCH_ALIAS: u32 = 3;
