// The aliases of both lists, resolved: each is looked up once, and the set is measured and written by what was found.
ghost use Rattle.std.specs.Prelude.{◌≡◌, ◌≤◌, length, Ok};
ghost use Rattle.format.specs.Exports.{both_counts};
ghost use Rattle.format.specs.Refusals.{check_list, table_slots};
ghost use Rattle.keys.specs.Targets.{any_wanted};
ghost use Rattle.library.specs.Sets.{ResolvedAll};

use coff::machines::Machine;
use keys::Row;

// How many exports both lists have at most.
pub const MAX_EXPORTS: usize = 2 * (lists::MAX_COUNT as usize);

// Whether a record of an accepted list has an import_name: without one no import is looked for.
pub fn has_wanted(b: &[u8]) -> bool
    requires { check_list b.now ≡ Ok tt }
    ensures { result ≡ any_wanted b.now 0 (both_counts b.now) }
{
    let both = wire::u32_at(b, lists::FIRST_COUNT) + wire::u32_at(b, lists::NATIVE_COUNT);
    keys::has_wanted(b, 0, both)
}

// Resolves the aliases of both lists.
pub fn resolve_all(slots: &mut [Row], b: &[u8], machine: Machine, mingw: bool, targets: &mut [u16])
    requires table_slots_in_bounds { table_slots ≤ length slots.old }
    requires b_value { check_list b.now ≡ Ok tt }
    requires b_in_bounds { both_counts b.now ≤ length targets.old }
    ensures { ResolvedAll machine.number mingw b.now targets.new }
{
    let first = machine.first();
    let native = machine.native();
    let count = wire::u32_at(b, lists::FIRST_COUNT);
    let both = count + wire::u32_at(b, lists::NATIVE_COUNT);
    keys::resolve(slots, b, first.number, mingw, 0, count, targets);
    keys::resolve(slots, b, native.number, mingw, count, both, targets);
}
