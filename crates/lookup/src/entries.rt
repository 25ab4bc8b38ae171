// What a short import answers: its ordinal, or its name by its place in the set.
ghost use Rattle.std.specs.Prelude.{◌+◌, ◌<◌, ◌≡◌, length};
ghost use Rattle.wire.specs.Bytes.{part};
ghost use Rattle.lookup.specs.Numbered.{entry_by, Inside};

use coff::import::ImportNameType;
use format::{Looked, Span};
use names::types;

// The answer of a short import at a place, by its bytes, and its fields. A number that no type has leaves the name as it is.
pub fn entry(
    at: usize,
    member: &[u8],
    ordinal: u16,
    name_type: u16,
    symbol: Span,
    export: Span,
) -> Looked
    requires inside { Inside symbol (length member.now) × Inside export (length member.now) }
    requires member_bound { at + length member.now < 18446744073709551616 }
    ensures { result ≡ entry_by at ordinal name_type symbol.start (part member.now symbol.start symbol.length) export }
{
    let name_type = ImportNameType::try_from(name_type).unwrap_or(ImportNameType::Name);
    match name_type {
        ImportNameType::Ordinal => Looked::Ordinal(ordinal),
        ImportNameType::NameExportas => Looked::Name(Span {
            start: at + export.start,
            length: export.length,
        }),
        ImportNameType::Name | ImportNameType::NameNoprefix | ImportNameType::NameUndecorate => {
            let name = wire::part(member, symbol.start, symbol.length);
            let left = types::apply_name_type(name_type, name);
            Looked::Name(Span {
                start: at + (symbol.start + left.start),
                length: left.length,
            })
        }
    }
}
