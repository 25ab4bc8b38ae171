// The two enums of a short import's type field.
ghost use Rattle.std.specs.Prelude.{◌≡◌};
ghost use Rattle.coff.specs.Import.{kind_number, type_number, KindOf, TypeOf};

// A number that no import kind, or no name type, has.
#[derive(Clone, Copy, Debug, PartialEq, Eq)]
pub struct UnknownNumber(pub u16);

#[derive(Clone, Copy, Debug, PartialEq, Eq)]
pub enum ImportType {
    // An executable code symbol.
    Code = 0,
    // A data symbol.
    Data = 1,
    // A constant value.
    Const = 2,
}

impl ImportType {
    // The paper's number of an import kind.
    pub fn number(self) -> u16
        ensures { result ≡ kind_number self }
    {
        self as u16
    }
}

impl TryFrom<u16> for ImportType {
    type Error = UnknownNumber;

    ghost try_from_gives = { KindOf };

    // The import kind of a number.
    fn try_from(number: u16) -> Result<Self, UnknownNumber> {
        match number {
            0 => Ok(ImportType::Code),
            1 => Ok(ImportType::Data),
            2 => Ok(ImportType::Const),
            _ => Err(UnknownNumber(number)),
        }
    }
}

#[derive(Clone, Copy, Debug, PartialEq, Eq)]
pub enum ImportNameType {
    // Import is by ordinal.
    Ordinal = 0,
    // The import name is identical to the public symbol name.
    Name = 1,
    // The import name is the public symbol name, but skipping the leading ?, @, or optionally _.
    NameNoprefix = 2,
    // The same, and truncating at the first @.
    NameUndecorate = 3,
    // The import name is specified as a separate string in the import library object file.
    NameExportas = 4,
}

impl ImportNameType {
    // The paper's number of a name type.
    pub fn number(self) -> u16
        ensures { result ≡ type_number self }
    {
        self as u16
    }
}

impl TryFrom<u16> for ImportNameType {
    type Error = UnknownNumber;

    ghost try_from_gives = { TypeOf };

    // The name type of a number.
    fn try_from(number: u16) -> Result<Self, UnknownNumber> {
        match number {
            0 => Ok(ImportNameType::Ordinal),
            1 => Ok(ImportNameType::Name),
            2 => Ok(ImportNameType::NameNoprefix),
            3 => Ok(ImportNameType::NameUndecorate),
            4 => Ok(ImportNameType::NameExportas),
            _ => Err(UnknownNumber(number)),
        }
    }
}
