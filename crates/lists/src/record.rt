// The exports of a list that refusals 2 to 10 pass: their strings as parts of the list, and their flags.
ghost use Rattle.std.specs.Prelude.{◌≡◌, ◌+◌, ◌≤◌, ◌<◌, length};
ghost use Rattle.coff.specs.Import.{kind_number};
ghost use Rattle.format.specs.Exports.{header_size, names_at, dll_field, offset_of, length_of, record_at, field_at, string_at, dll_name, export_at, noname, is_private};
ghost use Rattle.format.specs.Plan.{base, kind};
ghost use Rattle.lists.specs.Held.{Held, string_of};

use crate::{DLL_FIELD, HEADER_SIZE, NAMES_AT, RECORD_SIZE};
use coff::import::ImportType;

// The fields of a record that are strings.
pub const NAME: usize = 0;

pub const EXT_NAME: usize = 1;

pub const SYMBOL_NAME: usize = 2;

pub const IMPORT_NAME: usize = 3;

pub const EXPORT_AS: usize = 4;

// The bits of the flags.
const NONAME: u16 = 1;

const DATA: u16 = 2;

const PRIVATE: u16 = 4;

const CONSTANT: u16 = 8;

const ORDINAL_AT: usize = 40;

const FLAGS_AT: usize = 42;

// A record of a list, by its number.
#[derive(Clone, Copy)]
pub struct Record<'a> {
    pub list: &'a [u8],
    pub index: u32,
    pub ghost held: { Held list.now index },
}

impl<'a> Record<'a> {
    // Where it stands.
    fn at(self) -> usize
        ensures { result ≡ record_at self.entry.index }
    {
        HEADER_SIZE + RECORD_SIZE * (self.index as usize)
    }

    // One of its strings, if it is there.
    pub fn string(self, f: usize) -> Option<&'a [u8]>
        requires { f < 5 }
        ensures { string_of result ≡ string_at self.entry.list.now (field_at self.entry.index f) }
    {
        let at = self.at() + 8 * f;
        let offset = wire::u32_at(self.list, at);
        let len = wire::u32_at(self.list, at + 4);
        if len == 0 && offset == 0 {
            return None;
        }
        let from = (wire::u32_at(self.list, NAMES_AT) as usize) + (offset as usize);
        Some(wire::part(self.list, from, len as usize))
    }

    // The name: no record is without.
    pub fn name(self) -> &'a [u8]
        ensures { result.now ≡ (export_at self.entry.list.now self.entry.index).name }
    {
        self.string(NAME).unwrap()
    }

    pub fn ext_name(self) -> Option<&'a [u8]>
        ensures { string_of result ≡ string_at self.entry.list.now (field_at self.entry.index 1) }
    {
        self.string(EXT_NAME)
    }

    pub fn symbol_name(self) -> Option<&'a [u8]>
        ensures { string_of result ≡ string_at self.entry.list.now (field_at self.entry.index 2) }
    {
        self.string(SYMBOL_NAME)
    }

    pub fn import_name(self) -> Option<&'a [u8]>
        ensures { string_of result ≡ string_at self.entry.list.now (field_at self.entry.index 3) }
    {
        self.string(IMPORT_NAME)
    }

    pub fn export_as(self) -> Option<&'a [u8]>
        ensures { string_of result ≡ string_at self.entry.list.now (field_at self.entry.index 4) }
    {
        self.string(EXPORT_AS)
    }

    // The base: symbol_name if present, else name.
    pub fn base(self) -> &'a [u8]
        ensures { result.now ≡ base (export_at self.entry.list.now self.entry.index) }
    {
        match self.symbol_name() {
            Some(symbol_name) => symbol_name,
            None => self.name(),
        }
    }

    pub fn ordinal(self) -> u16
        ensures { result ≡ (export_at self.entry.list.now self.entry.index).ordinal }
    {
        wire::u16_at(self.list, self.at() + ORDINAL_AT)
    }

    pub fn flags(self) -> u16
        ensures { result ≡ (export_at self.entry.list.now self.entry.index).flags }
    {
        wire::u16_at(self.list, self.at() + FLAGS_AT)
    }

    pub fn is_noname(self) -> bool
        ensures { result ≡ noname (export_at self.entry.list.now self.entry.index) }
    {
        self.flags() & NONAME != 0
    }

    pub fn is_private(self) -> bool
        ensures { result ≡ is_private (export_at self.entry.list.now self.entry.index) }
    {
        self.flags() & PRIVATE != 0
    }

    // The import kind: constant gives Const, else data gives Data, else Code.
    pub fn import_type(self) -> ImportType
        ensures { kind_number result ≡ kind (export_at self.entry.list.now self.entry.index) }
    {
        let flags = self.flags();
        if flags & CONSTANT != 0 {
            return ImportType::Const;
        }
        if flags & DATA != 0 {
            return ImportType::Data;
        }
        ImportType::Code
    }
}

// The DLL name.
pub fn dll(b: &[u8]) -> &[u8]
    requires header_size_in_bounds { header_size ≤ length b.now }
    requires dll_field_in_bounds { names_at b.now + offset_of b.now dll_field + length_of b.now dll_field ≤ length b.now }
    ensures { result.now ≡ dll_name b.now }
{
    let from = (wire::u32_at(b, NAMES_AT) as usize) + (wire::u32_at(b, DLL_FIELD) as usize);
    let n = wire::u32_at(b, DLL_FIELD + 4) as usize;
    wire::part(b, from, n)
}
