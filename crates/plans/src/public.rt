// The public name of an export that has an ext_name. That of another is its base, a part of the list.
ghost use Rattle.std.specs.Prelude.{◌≡◌};
ghost use Rattle.std.proofs.Math.Option.{some};
ghost use Rattle.format.specs.Exports.{field_at, string_at, export_at};
ghost use Rattle.format.specs.Plan.{public_name};
ghost use Rattle.names.specs.Rename.{Renamed};

use lists::record::Record;
use names::built::BuiltName;
use names::rename;

// The base, with the name in it replaced by the ext_name; none where renaming fails.
pub fn renamed(r: Record, ext_name: &[u8]) -> Option<BuiltName>
    requires { some ext_name.now ≡ string_at r.list.now (field_at r.index 1) }
    ensures { Renamed (public_name (export_at r.entry.list.now r.entry.index)) result }
{
    let base = r.base();
    let name = r.name();
    rename::replace(base, name, ext_name)
}
