// Keys: a lent table of slots tells the last import of a list that has the key which an alias asks for. Each slot has a state, the
// hash of a key and the number of a record. A key is looked for from the slot of its hash on, up to one that is free; equal keys
// share a slot, so the last record stays. Aliases stand in no ARM64EC list, so the final name is the public one.
#![tactic(auto)]

mod hash; // hash.rt: the hash of a key

ghost use Rattle.std.specs.Prelude.{◌≡◌, ℕ, ◌+◌, ◌-◌, ◌<◌, ◌≤◌, true, length, ◌≢◌, slice_index, slice_set, Ok};
ghost use Rattle.std.proofs.Math.Option.{some};
ghost use Rattle.wire.specs.Bytes.{Bytes};
ghost use Rattle.format.specs.Machines.{arm64ec};
ghost use Rattle.format.specs.Exports.{both_counts, export_at};
ghost use Rattle.format.specs.Plan.{plan_public};
ghost use Rattle.format.specs.Library.{answers_to};
ghost use Rattle.format.specs.Refusals.{check_list};
ghost use Rattle.plans.specs.Keys.{key_at, last_in};
ghost use Rattle.keys.specs.Hash.{hash_of};
ghost use Rattle.keys.specs.Slots.{slot_at, row_of, holding, probe, sought, Within, Entered};
ghost use Rattle.keys.specs.Targets.{target_of, any_wanted, Resolved};

use crate::hash::hash;
use coff::constants::IMAGE_FILE_MACHINE_ARM64EC;
use lists::record::Record;
use names::types;
use plans::keys::key_is;
use plans::{plan, public};

// How many slots a table has; those past them are not used.
pub const SLOTS: usize = 8192;

// What stands among the targets for a record that has none.
pub const NO_TARGET: u16 = 65535;

const FREE: u32 = 0;

const USED: u32 = 1;

// A slot as it is lent: its state, hash and record. To C that is a struct of three `uint32_t`.
pub type Row = [u32; 3];

#[derive(Clone, Copy)]
pub struct Slot {
    // 0: free; else used
    pub state: u32,
    // the hash of the record's key
    pub hash: u32,
    // the number of a record
    pub record: u32,
}

// Where a search for a key ends. It ends nowhere where every slot has a record, and none the key.
#[derive(Clone, Copy)]
pub enum Spot {
    // At a free slot, by its place.
    Free(usize),
    // At a slot whose record has the key, by its place, and that record.
    Used(usize, u32),
}

// The slot at a place.
fn get(slots: &[Row], i: usize) -> Slot
    requires { i < length slots.now }
    ensures { result ≡ slot_at slots.now i }
{
    let a = slots[i];
    Slot {
        state: a[0],
        hash: a[1],
        record: a[2],
    }
}

// Puts a slot at a place; all others stay.
fn put(slots: &mut [Row], i: usize, s: Slot)
    requires { i < length slots.old }
    ensures { slots.new ≡ slice_set slots.old i (row_of s) }
{
    let a = [s.state, s.hash, s.record];
    slots[i] = a;
}

// The slot that holds a record whose key has a hash.
fn holding(h: u32, k: u32) -> Slot
    ensures { result ≡ holding h k }
{
    Slot {
        state: USED,
        hash: h,
        record: k,
    }
}

// The place of the slot that is tried after d others.
fn probe(h: u32, d: usize) -> usize
    requires { d < 8192 }
    ensures { (result ≡ probe h d) × (result < 8192) }
{
    ((h as usize) + d) % SLOTS
}

// Frees every slot.
fn clear(slots: &mut [Row])
    requires { 8192 ≤ length slots.old }
    ensures { (s : ℕ) → s < 8192 → (slot_at slots.new s).state ≡ 0 }
{
    for i in 0..SLOTS {
        put(
            slots,
            i,
            Slot {
                state: FREE,
                hash: 0,
                record: 0,
            },
        );
    }
}

// The records of a checked list from one up to another, under a machine that has aliases: all but ARM64EC.
#[derive(Clone, Copy)]
struct Run<'a> {
    list: &'a [u8],
    machine: u16,
    mingw: bool,
    from: u32,
    to: u32,
    ghost checked: { check_list list.now ≡ Ok tt },
    ghost not_arm64ec: { machine ≢ arm64ec },
    ghost within: { (from ≤ to) × (to ≤ both_counts list.now) },
}

impl Run<'_> {
    // Where the search for a key ends, given its hash. Only where hashes are equal are keys compared.
    fn seek(&self, slots: &[Row], key: &[u8], h: u32) -> Option<Spot>
        requires in_bounds { 8192 ≤ length slots.now }
        requires within { Within (both_counts self.now.list.now) (slot_at slots.now) }
        requires h_value { h ≡ hash_of key.now }
        ensures { result ≡ sought (key_at self.now.machine self.now.mingw self.now.list.now) (slot_at slots.now) key.now }
    {
        for d in 0..SLOTS {
            let at = probe(h, d);
            let s = get(slots, at);
            if s.state == FREE {
                return Some(Spot::Free(at));
            }
            if s.hash != h {
                continue;
            }
            let r = Record {
                list: self.list,
                index: s.record,
            };
            let same = key_is(r, self.machine, self.mingw, key);
            if same {
                return Some(Spot::Used(at, s.record));
            }
        }
        None
    }

    // Inserts a record under its key where the search for that ends: a record with an equal key gives way.
    fn insert(&self, slots: &mut [Row], k: u32, key: &[u8])
        requires in_bounds { 8192 ≤ length slots.old }
        requires entered { Entered (key_at self.now.machine self.now.mingw self.now.list.now) self.now.from (k - self.now.from) (slot_at slots.old) }
        requires from_le_k { (self.now.from ≤ k) × (k < both_counts self.now.list.now) }
        requires k_value { key_at self.now.machine self.now.mingw self.now.list.now key.now k ≡ true }
        ensures { Entered (key_at self.now.machine self.now.mingw self.now.list.now) self.now.from (k + 1 - self.now.from) (slot_at slots.new) }
    {
        let h = hash(key);
        match self.seek(slots, key, h) {
            Some(Spot::Free(at)) => put(slots, at, holding(h, k)),
            Some(Spot::Used(at, _first)) => {
                let last = holding(h, k);
                put(slots, at, last);
            }
            None => {}
        }
    }

    // Inserts the import of a record under its public name, by its type applied to that name; one that has no key leaves the table.
    fn insert_named(&self, slots: &mut [Row], r: Record, public: &[u8])
        requires in_bounds { 8192 ≤ length slots.old }
        requires entered { Entered (key_at self.now.machine self.now.mingw self.now.list.now) self.now.from (r.index - self.now.from) (slot_at slots.old) }
        requires from_le_k { (self.now.from ≤ r.index) × (r.index < both_counts self.now.list.now) }
        requires public_value { (w : Bytes) → answers_to w (plan_public self.now.machine self.now.mingw (export_at r.list.now r.index) (some public.now)) ≡ key_at self.now.machine self.now.mingw self.now.list.now w r.index }
        ensures { Entered (key_at self.now.machine self.now.mingw self.now.list.now) self.now.from (r.entry.index + 1 - self.now.from) (slot_at slots.new) }
    {
        match plan(r, self.machine, self.mingw, public) {
            Ok(Some(short)) => {
                let s = types::apply_name_type(short.name_type, public);
                let key = wire::part(public, s.start, s.length);
                self.insert(slots, r.index, key);
            }
            Ok(None) => {}
            Err(_) => {}
        }
    }

    // Inserts the import of a record; a private one has no key and leaves the table.
    fn insert_record(&self, slots: &mut [Row], k: u32)
        requires in_bounds { 8192 ≤ length slots.old }
        requires entered { Entered (key_at self.now.machine self.now.mingw self.now.list.now) self.now.from (k - self.now.from) (slot_at slots.old) }
        requires from_le_k { (self.now.from ≤ k) × (k < both_counts self.now.list.now) }
        ensures { Entered (key_at self.now.machine self.now.mingw self.now.list.now) self.now.from (k + 1 - self.now.from) (slot_at slots.new) }
    {
        let r = Record {
            list: self.list,
            index: k,
        };
        if r.is_private() {
            return;
        }
        let Some(ext_name) = r.ext_name() else {
            return self.insert_named(slots, r, r.base());
        };
        let Some(name) = public::renamed(r, ext_name) else {
            return;
        };
        self.insert_named(slots, r, name.as_slice());
    }

    // Fills the table with the records, whatever it held.
    fn insert_all(&self, slots: &mut [Row])
        requires { 8192 ≤ length slots.old }
        ensures { Entered (key_at self.now.machine self.now.mingw self.now.list.now) self.now.from (self.now.to - self.now.from) (slot_at slots.new) }
    {
        clear(slots);
        for k in self.from..self.to {
            self.insert_record(slots, k);
        }
    }

    // The last of the inserted records whose import has the wanted key, or NO_TARGET.
    fn find(&self, slots: &[Row], wanted: &[u8]) -> u16
        requires in_bounds { 8192 ≤ length slots.now }
        requires entered { Entered (key_at self.now.machine self.now.mingw self.now.list.now) self.now.from (self.now.to - self.now.from) (slot_at slots.now) }
        ensures { result ≡ target_of (last_in (key_at self.now.machine self.now.mingw self.now.list.now wanted.now) self.now.from (self.now.to - self.now.from)) }
    {
        let h = hash(wanted);
        match self.seek(slots, wanted, h) {
            Some(Spot::Used(_, k)) => k as u16,
            Some(Spot::Free(_)) => NO_TARGET,
            None => NO_TARGET,
        }
    }

    // Stores the target of each record that has an import_name; all other targets stay.
    fn find_all(&self, slots: &[Row], targets: &mut [u16])
        requires in_bounds { 8192 ≤ length slots.now }
        requires entered { Entered (key_at self.now.machine self.now.mingw self.now.list.now) self.now.from (self.now.to - self.now.from) (slot_at slots.now) }
        requires list_in_bounds { both_counts self.now.list.now ≤ length targets.old }
        ensures { Resolved self.now.machine self.now.mingw self.now.list.now self.now.from (self.now.to - self.now.from) targets.new × ((j : ℕ) → j < self.now.from → slice_index targets.new j ≡ slice_index targets.old j) }
    {
        for k in self.from..self.to {
            let r = Record {
                list: self.list,
                index: k,
            };
            let Some(wanted) = r.import_name() else {
                continue;
            };
            targets[k as usize] = self.find(slots, wanted);
        }
    }
}

// Whether one of the records from one up to another has an import_name.
// A loop and not `any`: its closure would need clauses of its own, that the list holds the record and what the import_name tells.
pub fn has_wanted(b: &[u8], from: u32, to: u32) -> bool
    requires b_value { check_list b.now ≡ Ok tt }
    requires from_le_to { (from ≤ to) × (to ≤ both_counts b.now) }
    ensures { result ≡ any_wanted b.now from (to - from) }
{
    for k in from..to {
        let r = Record { list: b, index: k };
        if r.import_name().is_some() {
            return true;
        }
    }
    false
}

// Resolves the aliases among the records from one up to another: the target of each record that has an import_name is the last of
// those records whose import has that key. All other targets stay; so do the slots where there is no such record, and on ARM64EC,
// where there are no aliases.
pub fn resolve(
    slots: &mut [Row],
    b: &[u8],
    machine: u16,
    mingw: bool,
    from: u32,
    to: u32,
    targets: &mut [u16],
)
    requires in_bounds { 8192 ≤ length slots.old }
    requires b_value { check_list b.now ≡ Ok tt }
    requires from_le_to { (from ≤ to) × (to ≤ both_counts b.now) }
    requires b_in_bounds { both_counts b.now ≤ length targets.old }
    ensures { ((machine ≢ arm64ec) → Resolved machine mingw b.now from (to - from) targets.new) × ((j : ℕ) → j < from → slice_index targets.new j ≡ slice_index targets.old j) }
{
    if machine == IMAGE_FILE_MACHINE_ARM64EC {
        return;
    }
    if !has_wanted(b, from, to) {
        return;
    }
    let run = Run {
        list: b,
        machine,
        mingw,
        from,
        to,
    };
    run.insert_all(slots);
    run.find_all(slots, targets);
}
