// The records of a COFF object file and the header of a short import, with the PE Format document's names. Fields that
// are always 0 in a member are not held: `write` puts 0 there, and `read` passes over them. Each record has a `write` of two
// lines of its own: under a trait over the number of bytes each would have to show besides that they fit in memory.
#![tactic(auto)]

ghost use Rattle.std.specs.Prelude.{◌+◌, ◌≤◌, ◌≡◌, length};
ghost use Rattle.wire.specs.Bytes.{part};
ghost use Rattle.wire.specs.Writes.{Wrote, Found};
ghost use Rattle.format.specs.Layouts.{file_header_size, symbol_size, import_header_size, import_descriptor, long_name, auxiliary, word};
ghost use Rattle.records.specs.Records.{file_header_bytes, file_header_at, section_bytes, relocation_bytes, symbol_bytes, symbol_at, import_header_bytes, import_header_at, signed};

// The header of an object file.
#[derive(Clone, Copy)]
pub struct FileHeader {
    pub machine: u16,
    pub number_of_sections: u16,
    pub pointer_to_symbol_table: u32,
    pub number_of_symbols: u32,
    pub characteristics: u16,
}

impl FileHeader {
    pub const SIZE: usize = 20;

    // Where the fields stand, after the first.
    const NUMBER_OF_SECTIONS: usize = 2;

    const POINTER_TO_SYMBOL_TABLE: usize = 8;

    const NUMBER_OF_SYMBOLS: usize = 12;

    const CHARACTERISTICS: usize = 18;

    fn bytes(self) -> [u8; FileHeader::SIZE]
        ensures { result ≡ file_header_bytes self }
    {
        let [m0, m1] = self.machine.to_le_bytes();
        let [n0, n1] = self.number_of_sections.to_le_bytes();
        let [p0, p1, p2, p3] = self.pointer_to_symbol_table.to_le_bytes();
        let [k0, k1, k2, k3] = self.number_of_symbols.to_le_bytes();
        let [c0, c1] = self.characteristics.to_le_bytes();
        [
            m0, m1, n0, n1,
            // TimeDateStamp
            0, 0, 0, 0, p0, p1, p2, p3, k0, k1, k2, k3,
            // SizeOfOptionalHeader
            0, 0, c0, c1,
        ]
    }

    // Writes the header, as far as out goes, and nothing else. Returns the next place.
    pub fn write(self, out: &mut [u8], at: usize) -> usize
        ensures { Wrote out.old at (file_header_bytes self) out.new result }
    {
        let b = self.bytes();
        wire::put(out, at, &b)
    }

    // The fields of the header at a place.
    pub fn read(b: &[u8], at: usize) -> Self
        requires { at + file_header_size ≤ length b.now }
        ensures { result ≡ file_header_at b.now at }
    {
        FileHeader {
            machine: wire::u16_at(b, at),
            number_of_sections: wire::u16_at(b, at + FileHeader::NUMBER_OF_SECTIONS),
            pointer_to_symbol_table: wire::u32_at(b, at + FileHeader::POINTER_TO_SYMBOL_TABLE),
            number_of_symbols: wire::u32_at(b, at + FileHeader::NUMBER_OF_SYMBOLS),
            characteristics: wire::u16_at(b, at + FileHeader::CHARACTERISTICS),
        }
    }
}

// The header of a section.
#[derive(Clone, Copy)]
pub struct Section {
    pub name: [u8; 8],
    pub size_of_raw_data: u32,
    pub pointer_to_raw_data: u32,
    pub pointer_to_relocations: u32,
    pub number_of_relocations: u16,
    pub characteristics: u32,
}

impl Section {
    pub const SIZE: usize = 40;

    fn bytes(self) -> [u8; Section::SIZE]
        ensures { result ≡ section_bytes self }
    {
        let [n0, n1, n2, n3, n4, n5, n6, n7] = self.name;
        let [z0, z1, z2, z3] = self.size_of_raw_data.to_le_bytes();
        let [d0, d1, d2, d3] = self.pointer_to_raw_data.to_le_bytes();
        let [p0, p1, p2, p3] = self.pointer_to_relocations.to_le_bytes();
        let [k0, k1] = self.number_of_relocations.to_le_bytes();
        let [c0, c1, c2, c3] = self.characteristics.to_le_bytes();
        [
            n0, n1, n2, n3, n4, n5, n6, n7,
            // VirtualSize and VirtualAddress
            0, 0, 0, 0, 0, 0, 0, 0, z0, z1, z2, z3, d0, d1, d2, d3, p0, p1, p2, p3,
            // PointerToLinenumbers
            0, 0, 0, 0, k0, k1,
            // NumberOfLinenumbers
            0, 0, c0, c1, c2, c3,
        ]
    }

    // Writes the section header, as far as out goes, and nothing else. Returns the next place.
    pub fn write(self, out: &mut [u8], at: usize) -> usize
        ensures { Wrote out.old at (section_bytes self) out.new result }
    {
        let b = self.bytes();
        wire::put(out, at, &b)
    }
}

// A relocation of a section.
#[derive(Clone, Copy)]
pub struct Relocation {
    pub virtual_address: u32,
    pub symbol_table_index: u32,
    pub typ: u16,
}

impl Relocation {
    pub const SIZE: usize = 10;

    fn bytes(self) -> [u8; Relocation::SIZE]
        ensures { result ≡ relocation_bytes self }
    {
        let [a0, a1, a2, a3] = self.virtual_address.to_le_bytes();
        let [n0, n1, n2, n3] = self.symbol_table_index.to_le_bytes();
        let [t0, t1] = self.typ.to_le_bytes();
        [a0, a1, a2, a3, n0, n1, n2, n3, t0, t1]
    }

    // Writes the relocation, as far as out goes, and nothing else. Returns the next place.
    pub fn write(self, out: &mut [u8], at: usize) -> usize
        ensures { Wrote out.old at (relocation_bytes self) out.new result }
    {
        let b = self.bytes();
        wire::put(out, at, &b)
    }
}

// A symbol, or the auxiliary record of one.
#[derive(Clone, Copy)]
pub struct Symbol {
    pub name: [u8; 8],
    // -1 absolute, 0 undefined, positive defined.
    pub section_number: i16,
    pub storage_class: u8,
    pub number_of_aux_symbols: u8,
}

impl Symbol {
    pub const SIZE: usize = 18;

    // Where the fields stand, after the first.
    const SECTION_NUMBER: usize = 12;

    const STORAGE_CLASS: usize = 16;

    const NUMBER_OF_AUX_SYMBOLS: usize = 17;

    fn bytes(self) -> [u8; Symbol::SIZE]
        ensures { result ≡ symbol_bytes self }
    {
        let [n0, n1, n2, n3, n4, n5, n6, n7] = self.name;
        let [s0, s1] = self.section_number.to_le_bytes();
        [
            n0,
            n1,
            n2,
            n3,
            n4,
            n5,
            n6,
            n7,
            // Value
            0,
            0,
            0,
            0,
            s0,
            s1,
            // Type
            0,
            0,
            self.storage_class,
            self.number_of_aux_symbols,
        ]
    }

    // Writes the symbol, as far as out goes, and nothing else. Returns the next place.
    pub fn write(self, out: &mut [u8], at: usize) -> usize
        ensures { Wrote out.old at (symbol_bytes self) out.new result }
    {
        let b = self.bytes();
        wire::put(out, at, &b)
    }

    // The fields of the symbol at a place.
    pub fn read(b: &[u8], at: usize) -> Self
        requires { at + symbol_size ≤ length b.now }
        ensures { result ≡ symbol_at b.now at }
    {
        Symbol {
            name: name_at(b, at),
            section_number: wire::u16_at(b, at + Symbol::SECTION_NUMBER).cast_signed(),
            storage_class: b[at + Symbol::STORAGE_CLASS],
            number_of_aux_symbols: b[at + Symbol::NUMBER_OF_AUX_SYMBOLS],
        }
    }
}

// An import descriptor. In a member all its fields are 0: a linker sets them.
#[derive(Clone, Copy)]
pub struct ImportDescriptor {}

impl ImportDescriptor {
    pub const SIZE: usize = 20;

    // Where the fields stand that relocations set.
    pub const ORIGINAL_FIRST_THUNK: u32 = 0;

    pub const NAME: u32 = 12;

    pub const FIRST_THUNK: u32 = 16;

    // Writes the descriptor, as far as out goes, and nothing else. Returns the next place.
    pub fn write(self, out: &mut [u8], at: usize) -> usize
        ensures { Wrote out.old at import_descriptor out.new result }
    {
        wire::put_zeros(out, at, ImportDescriptor::SIZE)
    }
}

// The header of a short import.
#[derive(Clone, Copy)]
pub struct ImportObjectHeader {
    pub machine: u16,
    pub size_of_data: u32,
    pub ordinal_or_hint: u16,
    // The name type times 4, and the import type.
    pub name_type: u16,
}

impl ImportObjectHeader {
    pub const SIZE: usize = 20;

    // Where the fields stand.
    const MACHINE: usize = 6;

    const SIZE_OF_DATA: usize = 12;

    const ORDINAL_OR_HINT: usize = 16;

    const NAME_TYPE: usize = 18;

    fn bytes(self) -> [u8; ImportObjectHeader::SIZE]
        ensures { result ≡ import_header_bytes self }
    {
        let [m0, m1] = self.machine.to_le_bytes();
        let [z0, z1, z2, z3] = self.size_of_data.to_le_bytes();
        let [n0, n1] = self.ordinal_or_hint.to_le_bytes();
        let [t0, t1] = self.name_type.to_le_bytes();
        [
            // Sig1
            0, 0,
            // Sig2
            0xFF, 0xFF,
            // Version
            0, 0, m0, m1,
            // TimeDateStamp
            0, 0, 0, 0, z0, z1, z2, z3, n0, n1, t0, t1,
        ]
    }

    // Writes the header, as far as out goes, and nothing else. Returns the next place.
    pub fn write(self, out: &mut [u8], at: usize) -> usize
        ensures { Wrote out.old at (import_header_bytes self) out.new result }
    {
        let b = self.bytes();
        wire::put(out, at, &b)
    }

    // Looks for the header at a place. Returns the place after it, or a place past the end.
    pub fn find(self, s: &[u8], at: usize) -> usize
        ensures { Found s.now at (import_header_bytes self) result }
    {
        let b = self.bytes();
        wire::find_words(s, at, &b)
    }

    // The fields of the header at a place.
    pub fn read(b: &[u8], at: usize) -> Self
        requires { at + import_header_size ≤ length b.now }
        ensures { result ≡ import_header_at b.now at }
    {
        ImportObjectHeader {
            machine: wire::u16_at(b, at + ImportObjectHeader::MACHINE),
            size_of_data: wire::u32_at(b, at + ImportObjectHeader::SIZE_OF_DATA),
            ordinal_or_hint: wire::u16_at(b, at + ImportObjectHeader::ORDINAL_OR_HINT),
            name_type: wire::u16_at(b, at + ImportObjectHeader::NAME_TYPE),
        }
    }
}

// ---- names of eight bytes

// A name that stands in the string table at an offset.
pub fn long_name(offset: u32) -> [u8; 8]
    ensures { result ≡ long_name offset }
{
    let [n0, n1, n2, n3] = offset.to_le_bytes();
    [0, 0, 0, 0, n0, n1, n2, n3]
}

// What the auxiliary record of a weak external has in the place of a name.
pub fn auxiliary(tag_index: u32, characteristics: u32) -> [u8; 8]
    ensures { result ≡ auxiliary tag_index characteristics }
{
    let [t0, t1, t2, t3] = tag_index.to_le_bytes();
    let [c0, c1, c2, c3] = characteristics.to_le_bytes();
    [t0, t1, t2, t3, c0, c1, c2, c3]
}

// The eight bytes at a place.
fn name_at(b: &[u8], at: usize) -> [u8; 8]
    requires { at + 8 ≤ length b.now }
    ensures { result ≡ part b.now at 8 }
{
    let mut name = [0; 8];
    name.copy_from_slice(wire::part(b, at, 8));
    name
}
