// Refusals 11 to 14: record by record, private ones skipped; the first fault answers.
ghost use Rattle.std.specs.Prelude.{◌≡◌, Bool, ◌+◌, ◌-◌, ◌≤◌, Ok};
ghost use Rattle.std.proofs.Math.Option.{some};
ghost use Rattle.format.specs.Exports.{both_counts, export_at};
ghost use Rattle.format.specs.Plan.{plan_public};
ghost use Rattle.format.specs.Refusals.{earliest, rows_from, plan_rows, name_rows, export_rows, check_list, check_exports};
ghost use Rattle.plans.specs.Accepting.{AcceptedAs};

use crate::{plan, public};
use coff::constants::IMAGE_FILE_MACHINE_ARM64EC;
use coff::machines::Machine;
use format::{Reason, Refusal};
use lists::record::Record;

// The refusal of a record under its public name; off ARM64EC only an empty one is refused, and nothing is planned.
fn check_named(r: Record, machine: u16, mingw: bool, public: &[u8]) -> Result<(), Refusal>
    ensures { result ≡ earliest (plan_rows r.entry.index (plan_public machine mingw (export_at r.entry.list.now r.entry.index) (some public.now))) }
{
    if machine != IMAGE_FILE_MACHINE_ARM64EC && public.len() != 0 {
        return Ok(());
    }
    match plan(r, machine, mingw, public) {
        Ok(_) => Ok(()),
        Err(reason) => Err(reason.at(r.index)),
    }
}

// The refusal of a record. Its public name is its base, a part of the list, or is built where it is renamed.
fn check_name(r: Record, machine: u16, mingw: bool) -> Result<(), Refusal>
    ensures { result ≡ earliest (name_rows machine mingw r.entry.list.now r.entry.index) }
{
    if r.is_private() {
        return Ok(());
    }
    let Some(ext_name) = r.ext_name() else {
        return check_named(r, machine, mingw, r.base());
    };
    let Some(name) = public::renamed(r, ext_name) else {
        return Err(Reason::NotRenamed.at(r.index));
    };
    check_named(r, machine, mingw, name.as_slice())
}

// The refusals of the records from one up to another.
pub fn check_names(b: &[u8], machine: u16, mingw: bool, from: u32, to: u32) -> Result<(), Refusal>
    requires b_value { check_list b.now ≡ Ok tt }
    requires from_le_to { (from ≤ to) × (to ≤ both_counts b.now) }
    ensures { result ≡ earliest (rows_from (name_rows machine mingw b.now) from (to - from)) }
{
    for k in from..to {
        check_name(Record { list: b, index: k }, machine, mingw)?;
    }
    Ok(())
}

// Refusals 11 to 14 of both lists: the first under its machine, then the native one.
fn check_both(b: &[u8], machine: Machine, mingw: bool) -> Result<(), Refusal>
    requires { check_list b.now ≡ Ok tt }
    ensures { (compat : Bool) → result ≡ earliest (export_rows (record { machine = machine.number; mingw = mingw; compat = compat }) b.now) }
{
    let first = wire::u32_at(b, lists::FIRST_COUNT);
    let both = first + wire::u32_at(b, lists::NATIVE_COUNT);
    check_names(b, machine.first().number, mingw, 0, first)?;
    check_names(b, machine.native().number, mingw, first, both)
}

// The machine of a list to which none of refusals 1 to 14 applies, or the refusal, of any bytes.
pub fn accept(b: &[u8], machine: u32, mingw: bool) -> Result<Machine, Refusal>
    ensures { (compat : Bool) → AcceptedAs (record { machine = machine; mingw = mingw; compat = compat }) b.now result }
{
    let Some(m) = Machine::find(machine) else {
        return Err(Reason::UnknownMachine.at(0));
    };
    let listed = lists::check_list(b);
    listed?;
    let named = check_both(b, m, mingw);
    named?;
    Ok(m)
}

// Refusals 1 to 14 of any bytes.
pub fn check_exports(b: &[u8], machine: u32, mingw: bool) -> Result<(), Refusal>
    ensures { (compat : Bool) → result ≡ check_exports (record { machine = machine; mingw = mingw; compat = compat }) b.now }
{
    accept(b, machine, mingw)?;
    Ok(())
}
