// The symbols that a member defines, compared with one without building any.
ghost use Rattle.std.specs.Prelude.{◌≡◌, false, ◌++◌, Ok};
ghost use Rattle.wire.specs.Bytes.{same};
ghost use Rattle.format.specs.Reader.{read, read_fields};
ghost use Rattle.format.specs.Lookup.{shown, among};
ghost use Rattle.lookup.specs.Numbered.{short_symbols, symbols_of};

use coff::constants::IMAGE_FILE_MACHINE_ARM64EC;
use coff::import::ImportType;
use finds::strings::{SYMBOL_AT, WEAK_STRINGS_AT};
use format::Read;
use layout::places::WEAK_SYMBOLS;
use layout::tables::NUL;
use members::{IMP_PREFIX, NAME_TYPE};
use names::mangler;
use names::mangler::Demangled;
use reader::texts;
use records::{FileHeader, ImportObjectHeader};

// What stands before the name of an ARM64EC import's auxiliary address.
const IMP_AUX_PREFIX: [u8; 10] = *b"__imp_aux_";

// The kind of an import of data.
const DATA: u16 = ImportType::Data as u16;

// Whether s is a prefix and a name of two pieces.
fn is_name(s: &[u8], prefix: &[u8], head: &[u8], tail: &[u8]) -> bool
    ensures { result ≡ same s.now (prefix.now ++ (head.now ++ tail.now)) }
{
    let a = wire::find(s, 0, prefix);
    let b = wire::find(s, a, head);
    wire::find(s, b, tail) == s.len()
}

// The two pieces of the symbol that a short import shows: on ARM64EC demangled, where that succeeds.
fn shown(machine: u16, symbol: &[u8]) -> (&[u8], &[u8])
    ensures { result.0.now ++ result.1.now ≡ shown machine symbol.now }
{
    if machine != IMAGE_FILE_MACHINE_ARM64EC {
        return (symbol, b"");
    }
    match mangler::get_arm64ec_demangled_function_name(symbol) {
        Some(Demangled::Dropped) => (&symbol[1..], b""),
        Some(Demangled::Cut { at }) => (&symbol[..at], &symbol[at + mangler::TAG_LEN..]),
        None => (symbol, b""),
    }
}

// Whether s is one of the symbols of a short import, by its machine, its kind and its symbol.
fn defines_short(s: &[u8], machine: u16, kind: u16, symbol: &[u8]) -> bool
    ensures { result ≡ among s.now (short_symbols machine kind symbol.now) }
{
    let (head, tail) = shown(machine, symbol);
    if is_name(s, &IMP_PREFIX, head, tail) {
        return true;
    }
    if kind == DATA {
        return false;
    }
    if is_name(s, b"", head, tail) {
        return true;
    }
    if machine != IMAGE_FILE_MACHINE_ARM64EC {
        return false;
    }
    if is_name(s, &IMP_AUX_PREFIX, head, tail) {
        return true;
    }
    wire::same(s, symbol)
}

// Whether a member, were it read, might define the symbol s. Its names alone are looked at.
fn may_define(member: &[u8], s: &[u8]) -> bool
    ensures { result ≡ false → among s.now (symbols_of (read member.now)) ≡ false }
{
    if member.len() < SYMBOL_AT {
        return true;
    }
    let file = FileHeader::read(member, 0);
    if file.machine == 0 {
        let header = ImportObjectHeader::read(member, 0);
        let name = texts::text(member, SYMBOL_AT);
        return defines_short(s, header.machine, header.name_type % NAME_TYPE, name);
    }
    if file.number_of_symbols == WEAK_SYMBOLS {
        let target = texts::text(member, WEAK_STRINGS_AT);
        let alias = texts::text(member, WEAK_STRINGS_AT + (target.len() + NUL));
        return wire::same(s, alias);
    }
    true
}

// Whether a member, by its bytes and what they are read as, defines the symbol s.
pub fn defines(member: &[u8], said: Read, s: &[u8]) -> bool
    requires { Ok said ≡ read_fields member.now }
    ensures { result ≡ among s.now (symbols_of (read member.now)) }
{
    match said {
        Read::ShortImport {
            machine,
            import_type,
            symbol,
            ..
        } => {
            let name = wire::part(member, symbol.start, symbol.length);
            defines_short(s, machine, import_type, name)
        }
        Read::WeakExternal { alias, .. } => {
            wire::same(s, wire::part(member, alias.start, alias.length))
        }
        Read::Descriptor { .. } | Read::NullDescriptor { .. } | Read::NullThunk { .. } => false,
    }
}

// Whether a member, by its bytes, defines the symbol s. It is read only where its names are the symbol's.
pub fn bytes_define(member: &[u8], s: &[u8]) -> bool
    ensures { result ≡ among s.now (symbols_of (read member.now)) }
{
    if !may_define(member, s) {
        return false;
    }
    match reader::read(member) {
        Ok(said) => defines(member, said, s),
        Err(_) => false,
    }
}
