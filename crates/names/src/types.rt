// Name types.
ghost use Rattle.std.specs.Prelude.{◌≤◌, ◌≡◌, ◌&&◌, not, eqb, length, if◌then◌else◌};
ghost use Rattle.wire.specs.Bytes.{starts, holds};
ghost use Rattle.format.specs.Machines.{i386};
ghost use Rattle.format.specs.Names.{underscore, at_sign, prefixed, plain_type};
ghost use Rattle.coff.specs.Import.{type_number};
ghost use Rattle.names.specs.Types.{Applied};

use coff::constants::IMAGE_FILE_MACHINE_I386;
use coff::import::ImportNameType;
use format::Span;
use search::starts_with;

// How many bytes noprefix drops: one leading `?`, `@` or `_`.
#[tactic(auto, unfolding(format::specs::Names::prefixed, wire::specs::Bytes::starts))]
fn ltrim1(name: &[u8]) -> usize
    ensures { (result ≡ prefixed name.now) × (result ≤ length name.now) }
{
    match name.first() {
        Some(b'?' | b'@' | b'_') => 1,
        _ => 0,
    }
}

// A type applied to a name: the part of the name that is left.
pub fn apply_name_type(t: ImportNameType, name: &[u8]) -> Span
    ensures { Applied (type_number t) name.now result }
{
    match t {
        ImportNameType::NameNoprefix => {
            let n = ltrim1(name);
            Span {
                start: n,
                length: name.len() - n,
            }
        }
        ImportNameType::NameUndecorate => {
            let n = ltrim1(name);
            Span {
                start: n,
                length: wire::index_of(&name[n..], b'@'),
            }
        }
        ImportNameType::Ordinal | ImportNameType::Name | ImportNameType::NameExportas => Span {
            start: 0,
            length: name.len(),
        },
    }
}

// Whether a name is decorated as MSVC exports it: with a leading underscore, and `@`.
fn decorated(name: &[u8], mingw: bool) -> bool
    ensures { result ≡ (starts underscore name.now && holds at_sign name.now && not mingw) }
{
    starts_with(name, b'_') && wire::holds(name, b'@') && !mingw
}

// The type of an undecorated name that is its own base.
fn bare_type(base: &[u8], machine: u16) -> ImportNameType
    ensures { type_number result ≡ (if eqb machine i386 && starts underscore base.now then 2 else 1) }
{
    if machine == IMAGE_FILE_MACHINE_I386 && starts_with(base, b'_') {
        return ImportNameType::NameNoprefix;
    }
    ImportNameType::Name
}

// The type of an export that names no other, by its base and its name.
pub fn get_name_type(base: &[u8], name: &[u8], machine: u16, mingw: bool) -> ImportNameType
    ensures { type_number result ≡ plain_type machine mingw base.now name.now }
{
    // A decorated stdcall function in MSVC is exported with the type IMPORT_NAME, and the exported function name includes
    // the leading underscore. In MinGW on the other hand, a decorated stdcall function still omits the underscore
    // (IMPORT_NAME_NOPREFIX).
    if decorated(name, mingw) {
        return ImportNameType::Name;
    }
    if !wire::same(base, name) {
        return ImportNameType::NameUndecorate;
    }
    bare_type(base, machine)
}

// The same where the base is the name: nothing is compared.
pub fn get_own_type(name: &[u8], machine: u16, mingw: bool) -> ImportNameType
    ensures { type_number result ≡ plain_type machine mingw name.now name.now }
{
    if decorated(name, mingw) {
        return ImportNameType::Name;
    }
    bare_type(name, machine)
}
