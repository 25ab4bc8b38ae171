// The member set: the three fixed members, both lists, the directory and the header.
ghost use Rattle.std.specs.Prelude.{◌≡◌, [], ◌+◌, ◌-◌, ◌≤◌, ◌<◌, length, Ok};
ghost use Rattle.wire.specs.Writes.{Wrote};
ghost use Rattle.format.specs.Library.{all_members, member_set};
ghost use Rattle.format.specs.Refusals.{check_list, check_exports, table_slots};
ghost use Rattle.format.specs.Answers.{written, output_after, Writes};
ghost use Rattle.walks.specs.Pen.{entry_of, at_of, Room};
ghost use Rattle.library.specs.Sets.{ResolvedBy, ResolvedAll, members_by, DrewBy, DrewAll, farthest, Measured, header_bytes};

use crate::aliases::{MAX_EXPORTS, has_wanted, resolve_all};
use coff::machines::Machine;
use format::{Reason, Refusal};
use keys::Row;
use layout::places::{ENTRY_SIZE, FIXED_MEMBERS, SET_HEADER_SIZE};
use lists::record;
use walks::pen::{at_of, draw_fixed, entry_of, pen_at};
use walks::walk::draw_list;

// How many members an export has at most.
const MAX_MEMBERS: usize = 2;

// Where the first member of a set stands that has the most members.
const FARTHEST: usize = SET_HEADER_SIZE + ENTRY_SIZE * (FIXED_MEMBERS + MAX_MEMBERS * MAX_EXPORTS);

// Where the pen stands after all members, and how many each list has.
#[derive(Clone, Copy)]
pub struct Drawn {
    pub pen: u64,
    pub firsts: usize,
    pub natives: usize,
}

// All members, by the machines of the two lists.
fn draw_members(
    out: &mut [u8],
    pen: u64,
    b: &[u8],
    dll: &[u8],
    first: u16,
    native: Machine,
    mingw: bool,
    compat: bool,
    targets: &[u16],
) -> Drawn
    requires room { Room (entry_of pen) (at_of pen) (members_by first native.number mingw compat dll.now b.now) }
    requires b_value { check_list b.now ≡ Ok tt }
    requires dll_len_bound { length dll.now ≤ 255 }
    requires resolved_by { ResolvedBy first native.number mingw b.now targets.now }
    ensures { DrewBy first native.number mingw compat dll.now b.now out.old (entry_of pen) (at_of pen) out.new (entry_of result.pen) (at_of result.pen) result.firsts result.natives }
{
    let stem = wire::part(dll, 0, names::dll::stem(dll));
    let count = wire::u32_at(b, lists::FIRST_COUNT);
    let both = count + wire::u32_at(b, lists::NATIVE_COUNT);
    let fixed = draw_fixed(out, pen, native, dll, stem, compat);
    let firsts = draw_list(out, fixed, b, dll, first, mingw, 0, count, targets);
    let natives = draw_list(
        out,
        firsts,
        b,
        dll,
        native.number,
        mingw,
        count,
        both,
        targets,
    );
    Drawn {
        pen: natives,
        firsts: (entry_of(firsts) - entry_of(fixed)) / ENTRY_SIZE,
        natives: (entry_of(natives) - entry_of(firsts)) / ENTRY_SIZE,
    }
}

// All members of a list.
fn draw_all(
    out: &mut [u8],
    pen: u64,
    b: &[u8],
    machine: Machine,
    mingw: bool,
    compat: bool,
    targets: &[u16],
) -> Drawn
    requires room { Room (entry_of pen) (at_of pen) (all_members (record { machine = machine.number; mingw = mingw; compat = compat }) b.now) }
    requires b_value { check_list b.now ≡ Ok tt }
    requires resolved_all { ResolvedAll machine.number mingw b.now targets.now }
    ensures { DrewAll (record { machine = machine.number; mingw = mingw; compat = compat }) b.now out.old (entry_of pen) (at_of pen) out.new (entry_of result.pen) (at_of result.pen) result.firsts result.natives }
{
    let first = machine.first();
    let native = machine.native();
    draw_members(
        out,
        pen,
        b,
        record::dll(b),
        first.number,
        native,
        mingw,
        compat,
        targets,
    )
}

// How large the set of an accepted list is: all members are drawn into an output without room.
fn measure(
    none: &mut [u8],
    b: &[u8],
    machine: Machine,
    mingw: bool,
    compat: bool,
    targets: &[u16],
) -> Drawn
    requires none_len { length none.old ≡ 0 }
    requires b_value { check_exports (record { machine = machine.number; mingw = mingw; compat = compat }) b.now ≡ Ok tt }
    requires resolved_all { ResolvedAll machine.number mingw b.now targets.now }
    ensures { (none.new ≡ []) × Measured (record { machine = machine.number; mingw = mingw; compat = compat }) b.now (entry_of result.pen) (at_of result.pen) result.firsts result.natives }
{
    let pen = pen_at(SET_HEADER_SIZE, FARTHEST);
    draw_all(none, pen, b, machine, mingw, compat, targets)
}

// The total of a set, by the pen after all members were measured.
fn total_of(pen: u64) -> usize
    requires { farthest ≤ at_of pen }
    ensures { result ≡ entry_of pen + (at_of pen - farthest) }
{
    entry_of(pen) + (at_of(pen) - FARTHEST)
}

// The total of the set of an accepted list whose aliases were resolved.
fn total_resolved(b: &[u8], machine: Machine, mingw: bool, compat: bool, targets: &[u16]) -> usize
    requires b_value { check_exports (record { machine = machine.number; mingw = mingw; compat = compat }) b.now ≡ Ok tt }
    requires resolved_all { ResolvedAll machine.number mingw b.now targets.now }
    ensures { result ≡ length (member_set (record { machine = machine.number; mingw = mingw; compat = compat }) b.now) }
{
    let mut none = [0u8; 0];
    let size = measure(&mut none, b, machine, mingw, compat, targets);
    total_of(size.pen)
}

// The total of the set of an accepted list with aliases, resolved in a table of its own.
fn total_aliased(b: &[u8], machine: Machine, mingw: bool, compat: bool) -> usize
    requires { check_exports (record { machine = machine.number; mingw = mingw; compat = compat }) b.now ≡ Ok tt }
    ensures { result ≡ length (member_set (record { machine = machine.number; mingw = mingw; compat = compat }) b.now) }
{
    let mut slots = [[0u32; 3]; keys::SLOTS];
    let mut targets = [0u16; MAX_EXPORTS];
    resolve_all(&mut slots, b, machine, mingw, &mut targets);
    total_resolved(b, machine, mingw, compat, &targets)
}

// The total of the set of an accepted list. A table is made only where an alias may be looked for.
pub fn total_accepted(b: &[u8], machine: Machine, mingw: bool, compat: bool) -> usize
    requires { check_exports (record { machine = machine.number; mingw = mingw; compat = compat }) b.now ≡ Ok tt }
    ensures { result ≡ length (member_set (record { machine = machine.number; mingw = mingw; compat = compat }) b.now) }
{
    if has_wanted(b) {
        return total_aliased(b, machine, mingw, compat);
    }
    let none = [0u16; 0];
    total_resolved(b, machine, mingw, compat, &none)
}

// The header of a set.
fn put_header(out: &mut [u8], firsts: usize, natives: usize, first_at: usize) -> usize
    requires { (firsts ≤ 8192) × (natives ≤ 8192) × (first_at < 4294967296) }
    ensures { Wrote out.old 0 (header_bytes firsts natives first_at) out.new result }
{
    let a = wire::put_u32(out, 0, (FIXED_MEMBERS + firsts + natives) as u32);
    let b = wire::put_u32(out, a, firsts as u32);
    let c = wire::put_u32(out, b, natives as u32);
    wire::put_u32(out, c, first_at as u32)
}

// The set of an accepted list whose aliases were resolved: its size first, then its members, then its header.
fn write_resolved(
    b: &[u8],
    machine: Machine,
    mingw: bool,
    compat: bool,
    targets: &[u16],
    out: &mut [u8],
) -> Result<usize, Refusal>
    requires b_value { check_exports (record { machine = machine.number; mingw = mingw; compat = compat }) b.now ≡ Ok tt }
    requires resolved_all { ResolvedAll machine.number mingw b.now targets.now }
    ensures { (result ≡ written (record { machine = machine.number; mingw = mingw; compat = compat }) b.now table_slots (length out.old)) × (out.new ≡ output_after (record { machine = machine.number; mingw = mingw; compat = compat }) b.now table_slots out.old) }
{
    let room = out.len();
    let size = measure(&mut out[..0], b, machine, mingw, compat, targets);
    let first_at = entry_of(size.pen);
    let total = total_of(size.pen);
    if room < total {
        return Err(Reason::NoRoom.at(0));
    }
    let pen = pen_at(SET_HEADER_SIZE, first_at);
    draw_all(out, pen, b, machine, mingw, compat, targets);
    put_header(out, size.firsts, size.natives, first_at);
    Ok(total)
}

// The set of an accepted list with aliases, resolved in the lent table.
fn write_aliased(
    b: &[u8],
    machine: Machine,
    mingw: bool,
    compat: bool,
    slots: &mut [Row],
    out: &mut [u8],
) -> Result<usize, Refusal>
    requires b_value { check_exports (record { machine = machine.number; mingw = mingw; compat = compat }) b.now ≡ Ok tt }
    requires table_slots_in_bounds { table_slots ≤ length slots.old }
    ensures { (result ≡ written (record { machine = machine.number; mingw = mingw; compat = compat }) b.now table_slots (length out.old)) × (out.new ≡ output_after (record { machine = machine.number; mingw = mingw; compat = compat }) b.now table_slots out.old) }
{
    let mut targets = [0u16; MAX_EXPORTS];
    resolve_all(slots, b, machine, mingw, &mut targets);
    write_resolved(b, machine, mingw, compat, &targets, out)
}

// The set of an accepted list. The table is used only where an alias may be looked for.
pub fn write_accepted(
    b: &[u8],
    machine: Machine,
    mingw: bool,
    compat: bool,
    slots: &mut [Row],
    out: &mut [u8],
) -> Result<usize, Refusal>
    requires { check_exports (record { machine = machine.number; mingw = mingw; compat = compat }) b.now ≡ Ok tt }
    ensures { Writes (record { machine = machine.number; mingw = mingw; compat = compat }) b.now slots.old out.old result slots.new out.new }
{
    if slots.len() < keys::SLOTS {
        return Err(Reason::FewSlots.at(0));
    }
    if has_wanted(b) {
        return write_aliased(b, machine, mingw, compat, slots, out);
    }
    let none = [0u16; 0];
    write_resolved(b, machine, mingw, compat, &none, out)
}
