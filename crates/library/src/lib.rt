// The library: a port of write_import_library, members only. An export list is checked, its set measured and then written by one walk.
#![tactic(auto)]

pub mod aliases; // aliases.rt: the aliases of both lists, resolved
pub mod set; // set.rt: the member set

ghost use Rattle.std.specs.Prelude.{◌≡◌};
ghost use Rattle.format.specs.Answers.{asked, Writes};

use crate::set::{total_accepted, write_accepted};
use format::Refusal;
use keys::Row;
use plans::check::accept;

// Asks for the total of the member set of any bytes: the total, or the refusal from 1 to 14.
pub fn total(
    list: &[u8],
    machine: u32,
    mingw: bool,
    whole_archive_compat: bool,
) -> Result<usize, Refusal>
    ensures { result ≡ asked (record { machine = machine; mingw = mingw; compat = whole_archive_compat }) list.now }
{
    let known = accept(list, machine, mingw)?;
    Ok(total_accepted(list, known, mingw, whole_archive_compat))
}

// Writes the member set of any bytes: the total, or the refusal. A refusal leaves all of the output as it was, success what stands
// beyond the total. The slots are worked in; 19 leaves them as they were.
pub fn write(
    list: &[u8],
    machine: u32,
    mingw: bool,
    whole_archive_compat: bool,
    slots: &mut [Row],
    out: &mut [u8],
) -> Result<usize, Refusal>
    ensures { Writes (record { machine = machine; mingw = mingw; compat = whole_archive_compat }) list.now slots.old out.old result slots.new out.new }
{
    let m = accept(list, machine, mingw)?;
    write_accepted(list, m, mingw, whole_archive_compat, slots, out)
}
