// The lookup: where a symbol leads in one list of a member set.
//
// Any bytes are taken. One pass reads every member, which tests that they are a member set, and notes the first of the list
// that defines the symbol; the members of the list are gone through once more for the target of a weak external. Nothing is
// copied; a name is answered by its place.
#![tactic(auto)]

pub mod sets; // sets.rt: the set, and its members by their numbers
pub mod symbols; // symbols.rt: the symbols that a member defines
pub mod entries; // entries.rt: what a short import answers

ghost use Rattle.std.specs.Prelude.{◌-◌, ◌≤◌, ◌<◌, ◌≡◌};
ghost use Rattle.std.proofs.Math.Option.{some};
ghost use Rattle.format.specs.declared.Looked.TheVariants.{NotFound};
ghost use Rattle.format.specs.Lookup.{set_count, lookup};
ghost use Rattle.search.specs.Search.{place_of};
ghost use Rattle.lookup.specs.Numbered.{ranked_from, definer_from, if_set, Leads, led_at, step_from, looked_from};

use crate::sets::MemberSet;
use format::{Looked, Read, Refusal};
use layout::places::FIXED_MEMBERS;

// The lists by the numbers that the C interface, crepedum_lookup, takes; any other number is answered too.
const FIRST_LIST: u32 = 1;

const NATIVE_LIST: u32 = 2;

// Where a weak external leads whose target is another: one step is followed.
const AFTER_ONE_STEP: Looked = Looked::Nowhere;

// Where a member leads: to an answer, or where the target of a weak external leads.
#[derive(Clone, Copy)]
pub enum Lead<'a> {
    Answer(Looked),
    Target(&'a [u8]),
}

// Where a member leads: a descriptor or a null thunk to nothing.
fn leading(set: MemberSet, i: usize) -> Option<Lead>
    requires { i < set_count set.bytes.now }
    ensures { Leads set.entry.bytes.now i result }
{
    let member = set.member_at(i);
    match reader::read(member).ok()? {
        Read::ShortImport {
            ordinal,
            name_type,
            symbol,
            export,
            ..
        } => {
            let at = set.offset_at(i);
            Some(Lead::Answer(entries::entry(at, member, ordinal, name_type, symbol, export)))
        }
        Read::WeakExternal { target, .. } => {
            Some(Lead::Target(wire::part(member, target.start, target.length)))
        }
        Read::Descriptor { .. } | Read::NullDescriptor { .. } | Read::NullThunk { .. } => None,
    }
}

// A list of a member set: the members from one up to another.
#[derive(Clone, Copy)]
struct MemberList<'a> {
    set: MemberSet<'a>,
    from: usize,
    to: usize,
    ghost within: { (3 ≤ from) × (from ≤ to) × (to ≤ set_count set.bytes.now) },
}

impl MemberList<'_> {
    // The first member of the list that defines a symbol. Each from its first to the last of the set is read, and has to be a
    // member of a list.
    fn seek(self, symbol: &[u8]) -> Result<Option<usize>, Refusal>
        ensures { result ≡ if_set (ranked_from self.entry.set.bytes.now 3 self.entry.from (set_count self.entry.set.bytes.now - self.entry.from)) (place_of (definer_from self.entry.set.bytes.now symbol.now self.entry.from (self.entry.to - self.entry.from))) }
    {
        let n = self.set.count();
        for i in self.from..self.to {
            let member = self.set.member_at(i);
            let said = sets::read_ranked(member, sets::LISTED)?;
            if symbols::defines(member, said, symbol) {
                self.set.check(sets::LISTED, i + 1, n)?;
                return Ok(Some(i));
            }
        }
        self.set.check(sets::LISTED, self.to, n)?;
        Ok(None)
    }

    // The first member of the list that defines a symbol.
    fn definer(self, symbol: &[u8]) -> Option<usize>
        ensures { result ≡ place_of (definer_from self.entry.set.bytes.now symbol.now self.entry.from (self.entry.to - self.entry.from)) }
    {
        let i = (self.from..self.to).find(|&i| symbols::bytes_define(
            self.set.member_at(i),
            symbol,
        ))?;
        Some(i)
    }

    // Where the target of a weak external leads.
    fn follow(self, target: &[u8]) -> Looked
        ensures { result ≡ step_from self.entry.set.bytes.now self.entry.from (self.entry.to - self.entry.from) target.now }
    {
        let Some(i) = self.definer(target) else {
            return Looked::Nowhere;
        };
        match leading(self.set, i) {
            Some(Lead::Answer(looked)) => looked,
            Some(Lead::Target(_)) => AFTER_ONE_STEP,
            None => Looked::Nowhere,
        }
    }

    // Where a symbol leads that a member of the list defines.
    fn answer(self, i: usize) -> Looked
        requires { i < set_count self.set.bytes.now }
        ensures { result ≡ led_at self.entry.set.bytes.now NotFound (step_from self.entry.set.bytes.now self.entry.from (self.entry.to - self.entry.from)) (some i) }
    {
        match leading(self.set, i) {
            Some(Lead::Answer(looked)) => looked,
            Some(Lead::Target(target)) => self.follow(target),
            None => Looked::NotFound,
        }
    }

    // Where a symbol leads in the list, or that the bytes are not a member set.
    fn look(self, symbol: &[u8]) -> Result<Looked, Refusal>
        ensures { result ≡ looked_from self.entry.set.bytes.now self.entry.from (self.entry.to - self.entry.from) symbol.now }
    {
        self.set.check(sets::FIRST_RANK, 0, self.from)?;
        match self.seek(symbol)? {
            Some(i) => Ok(self.answer(i)),
            None => Ok(Looked::NotFound),
        }
    }
}

// Where a symbol leads in list 1 or 2 of a member set; in another list nothing is found. The refusal of what is not a member
// set comes first.
pub fn lookup(set: &[u8], list: u32, symbol: &[u8]) -> Result<Looked, Refusal>
    ensures { result ≡ lookup set.now list symbol.now }
{
    let set = MemberSet::new(set)?;
    let n = set.count();
    let natives = FIXED_MEMBERS + set.firsts();
    if list == FIRST_LIST {
        let first = MemberList {
            set,
            from: FIXED_MEMBERS,
            to: natives,
        };
        return first.look(symbol);
    }
    if list == NATIVE_LIST {
        let native = MemberList {
            set,
            from: natives,
            to: n,
        };
        return native.look(symbol);
    }
    set.check(sets::FIRST_RANK, 0, n)?;
    Ok(Looked::NotFound)
}
