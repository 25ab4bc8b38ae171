// What programs in other languages call; include/crepedum.h declares it.
#![tactic(auto)]

pub mod reading; // reading.rt: the reader
pub mod looking; // looking.rt: the lookup

ghost use Rattle.std.specs.Prelude.{◌≡◌, Bool};
ghost use Rattle.format.specs.Refusals.{check_exports};
ghost use Rattle.format.specs.Answers.{asked};
ghost use Rattle.crepedum.specs.Words.{reason_word, refusal_word, check_word, written_word, WritesWord};

use crate::reading::NUMBER;
use format::{Reason, Refusal};
use keys::Row;

// A reason as one number: the paper's times 2^32.
fn reason_word(reason: Reason) -> u64
    ensures { result ≡ reason_word reason }
{
    u64::from(reason.number()) * NUMBER
}

// A refusal as one number: its reason's, plus its place.
fn refusal_word(refusal: Refusal) -> u64
    ensures { result ≡ refusal_word refusal }
{
    reason_word(refusal.reason) + u64::from(refusal.place)
}

// An answer of a check as one number: 0, or the refusal's.
fn check_word(checked: Result<(), Refusal>) -> u64
    ensures { result ≡ check_word checked }
{
    match checked {
        Ok(()) => 0,
        Err(refusal) => refusal_word(refusal),
    }
}

// Refusals 1 to 14 of any bytes: 0 where none applies.
#[unsafe(no_mangle)]
pub extern "C" fn crepedum_check(list: &[u8], machine: u32, mingw: bool) -> u64
    ensures { (compat : Bool) → result ≡ check_word (check_exports (record { machine = machine; mingw = mingw; compat = compat }) list.now) }
{
    check_word(plans::check::check_exports(list, machine, mingw))
}

// An answer of asking or writing as one number: the total, or the refusal's.
fn written_word(written: Result<usize, Refusal>) -> u64
    ensures { result ≡ written_word written }
{
    match written {
        Ok(total) => total as u64,
        Err(refusal) => refusal_word(refusal),
    }
}

// Asks for the total of the member set of any bytes: refusals 1 to 14, and nothing is written.
#[unsafe(no_mangle)]
pub extern "C" fn crepedum_total(
    list: &[u8],
    machine: u32,
    mingw: bool,
    whole_archive_compat: bool,
) -> u64
    ensures { result ≡ written_word (asked (record { machine = machine; mingw = mingw; compat = whole_archive_compat }) list.now) }
{
    written_word(library::total(list, machine, mingw, whole_archive_compat))
}

// Writes the member set of any bytes, with a table of slots to work in.
#[unsafe(no_mangle)]
pub extern "C" fn crepedum_write(
    list: &[u8],
    machine: u32,
    mingw: bool,
    whole_archive_compat: bool,
    slots: &mut [Row],
    out: &mut [u8],
) -> u64
    ensures { WritesWord (record { machine = machine; mingw = mingw; compat = whole_archive_compat }) list.now slots.old out.old result slots.new out.new }
{
    written_word(library::write(list, machine, mingw, whole_archive_compat, slots, out))
}
