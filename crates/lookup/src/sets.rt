// A member set: its header, its directory, and its members by their numbers.
ghost use Rattle.std.specs.Prelude.{◌+◌, ◌-◌, ◌*◌, ◌≤◌, ◌<◌, ◌≡◌, true, false, length, MatchResult};
ghost use Rattle.wire.specs.Bytes.{u32_at};
ghost use Rattle.format.specs.Library.{first_member_at};
ghost use Rattle.format.specs.Refusals.{refusal};
ghost use Rattle.format.specs.Reader.{read_fields};
ghost use Rattle.format.specs.declared.Reason.TheVariants.{NotASet};
ghost use Rattle.format.specs.Lookup.{offset_at, length_at, set_count, set_firsts, back_to_back, laid_out};
ghost use Rattle.lookup.specs.Numbered.{bytes_of, rank_read, next_rank, ranked_from, if_set, ranked_as};

use format::{Read, Reason, Refusal};
use layout::places::{ENTRY_SIZE, FIXED_MEMBERS, SET_HEADER_SIZE};

// The refusal: the bytes are not a member set.
pub const REFUSED: Refusal = Refusal {
    reason: Reason::NotASet,
    place: 0,
};

// Where the fields of the header stand: how many members there are, how many of each list, and where the first stands.
const COUNT: usize = 0;

const FIRSTS: usize = 4;

const NATIVES: usize = 8;

const FIRST_MEMBER: usize = 12;

// Where the length stands in a member's entry, after the offset.
const LENGTH: usize = 4;

// The rank of the first member, and of the members of the lists.
pub const FIRST_RANK: u32 = 0;

pub const LISTED: u32 = 3;

// ---- fields

// The number in the four bytes at a place.
fn field(set: &[u8], at: usize) -> usize
    requires { at + 4 ≤ length set.now }
    ensures { (result ≡ u32_at set.now at) × (result < 4294967296) }
{
    wire::u32_at(set, at) as usize
}

// Where a member stands.
pub fn offset_at(set: &[u8], i: usize) -> usize
    requires { first_member_at (i + 1) ≤ length set.now }
    ensures { (result ≡ offset_at set.now i) × (result < 4294967296) }
{
    field(set, SET_HEADER_SIZE + ENTRY_SIZE * i)
}

// How long it is.
fn length_at(set: &[u8], i: usize) -> usize
    requires { first_member_at (i + 1) ≤ length set.now }
    ensures { (result ≡ length_at set.now i) × (result < 4294967296) }
{
    field(set, SET_HEADER_SIZE + ENTRY_SIZE * i + LENGTH)
}

// ---- the layout

// Whether all members stand back to back, from a place to the end.
fn back_to_back(set: &[u8], at: usize, count: usize) -> bool
    requires { first_member_at count ≤ length set.now }
    ensures { result ≡ back_to_back set.now 0 at count }
{
    let mut end = at;
    for i in 0..count {
        if offset_at(set, i) != end {
            return false;
        }
        end += length_at(set, i);
    }
    end == set.len()
}

// Whether bytes are laid out as a member set.
pub fn laid_out(set: &[u8]) -> bool
    ensures { result ≡ laid_out set.now }
{
    if set.len() < SET_HEADER_SIZE {
        return false;
    }
    let count = field(set, COUNT);
    let firsts = field(set, FIRSTS);
    let natives = field(set, NATIVES);
    if count != FIXED_MEMBERS + firsts + natives {
        return false;
    }
    let at = field(set, FIRST_MEMBER);
    if at != SET_HEADER_SIZE + ENTRY_SIZE * count {
        return false;
    }
    // No member could end where the set ends.
    if set.len() < at {
        return false;
    }
    back_to_back(set, at, count)
}

// ---- the order of the members

// Which place a member may take.
pub fn rank(read: Read) -> u32
    ensures { result ≡ rank_read read }
{
    match read {
        Read::Descriptor { .. } => FIRST_RANK,
        Read::NullDescriptor { .. } => 1,
        Read::NullThunk { .. } => 2,
        Read::ShortImport { .. } | Read::WeakExternal { .. } => LISTED,
    }
}

// The rank of the member after one.
fn next_rank(rank: u32) -> u32
    requires { rank ≤ 3 }
    ensures { (result ≡ next_rank rank) × (result ≤ 3) }
{
    if rank == LISTED {
        return LISTED;
    }
    rank + 1
}

// What a member is read as that has to have a rank.
pub fn read_ranked(member: &[u8], expected: u32) -> Result<Read, Refusal>
    ensures { result ≡ ranked_as expected (read_fields member.now) }
{
    let Ok(read) = reader::read(member) else {
        return Err(REFUSED);
    };
    if rank(read) != expected {
        return Err(REFUSED);
    }
    Ok(read)
}

// ---- the set

// Bytes that are laid out as a member set.
#[derive(Clone, Copy)]
pub struct MemberSet<'a> {
    pub bytes: &'a [u8],
    pub ghost laid: { laid_out bytes.now ≡ true },
}

impl<'a> MemberSet<'a> {
    // The set that bytes are laid out as.
    pub fn new(bytes: &'a [u8]) -> Result<Self, Refusal>
        ensures { MatchResult result (λ s. s.bytes.now ≡ bytes.now) (λ e. (e ≡ refusal NotASet 0) × (laid_out bytes.now ≡ false)) }
    {
        if !laid_out(bytes) {
            return Err(REFUSED);
        }
        Ok(MemberSet { bytes })
    }

    // How many members there are.
    pub fn count(self) -> usize
        ensures { (result ≡ set_count self.entry.bytes.now) × (result < 4294967296) }
    {
        field(self.bytes, COUNT)
    }

    // How many of them are of the first list.
    pub fn firsts(self) -> usize
        ensures { (result ≡ set_firsts self.entry.bytes.now) × (result < 4294967296) }
    {
        field(self.bytes, FIRSTS)
    }

    // Where a member stands.
    pub fn offset_at(self, i: usize) -> usize
        requires { i < set_count self.bytes.now }
        ensures { result ≡ offset_at self.entry.bytes.now i }
    {
        offset_at(self.bytes, i)
    }

    // The bytes of a member.
    pub fn member_at(self, i: usize) -> &'a [u8]
        requires { i < set_count self.bytes.now }
        ensures { (result.now ≡ bytes_of self.entry.bytes.now i) × (offset_at self.entry.bytes.now i + length result.now ≤ length self.entry.bytes.now) }
    {
        wire::part(
            self.bytes,
            offset_at(self.bytes, i),
            length_at(self.bytes, i),
        )
    }

    // Each member from one up to another has to be read, in order from a rank on: the fixed three, and those of the lists after
    // them.
    pub fn check(self, first: u32, from: usize, to: usize) -> Result<(), Refusal>
        requires { (first ≤ 3) × (to ≤ set_count self.bytes.now) }
        ensures { result ≡ if_set (ranked_from self.entry.bytes.now first from (to - from)) tt }
    {
        let mut expected = first;
        for i in from..to {
            read_ranked(self.member_at(i), expected)?;
            expected = next_rank(expected);
        }
        Ok(())
    }
}
