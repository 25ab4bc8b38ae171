// The public name of an export that has an ext_name.
ghost use Rattle.std.specs.Prelude.{◌+◌, ◌-◌, ◌≤◌, ◌≡◌, ◌++◌, length, take, drop};
ghost use Rattle.format.specs.Names.{replace_once, replace};
ghost use Rattle.names.specs.Rename.{Located, Renamed, Room, spliced_of};
ghost use Rattle.names.specs.Built.{Built};

use crate::built::{BuiltName, fresh, lay};
use search::{find, starts_with};

// How a name comes about: the bytes of s from at to end are replaced by those of to from skip on.
#[derive(Clone, Copy, Debug, PartialEq, Eq)]
pub struct Splice {
    pub at: usize,
    pub end: usize,
    pub skip: usize,
}

// One search: the first occurrence of from without its first skip bytes, for to without as many.
fn locate_once(s: &[u8], from: &[u8], to: &[u8], skip: usize) -> Option<Splice>
    requires { (skip ≤ length from.now) × (skip ≤ length to.now) }
    ensures { Located s.now to.now (replace_once s.now (drop skip from.now) (drop skip to.now)) result }
{
    let at = find(&from[skip..], s)?;
    Some(Splice {
        at,
        end: at + (from.len() - skip),
        skip,
    })
}

// Where from is replaced by to in s, with nothing built.
pub fn locate(s: &[u8], from: &[u8], to: &[u8]) -> Option<Splice>
    ensures { Located s.now to.now (replace s.now from.now to.now) result }
{
    if let Some(whole) = locate_once(s, from, to, 0) {
        return Some(whole);
    }
    // from and to may be mangled, but what stands in s may not
    if starts_with(from, b'_') && starts_with(to, b'_') {
        return locate_once(s, from, to, 1);
    }
    None
}

// The bytes of s, with a part of them replaced by bytes of to.
pub fn spliced(s: &[u8], to: &[u8], p: Splice) -> BuiltName
    requires { Room s.now to.now p }
    ensures { Built (spliced_of s.now to.now p) result }
{
    let mut m = fresh();
    let a = lay(&mut m.bytes, 0, &s[..p.at]);
    let b = lay(&mut m.bytes, a, &to[p.skip..]);
    let n = lay(&mut m.bytes, b, &s[p.end..]);
    m.len = n;
    m
}

// s with the first occurrence of from replaced by to; where none occurs and both start with `_`, once more without it.
pub fn replace(s: &[u8], from: &[u8], to: &[u8]) -> Option<BuiltName>
    requires { (length s.now ≤ 4095) × (1 ≤ length from.now) × (length to.now ≤ 4095) }
    ensures { Renamed (replace s.now from.now to.now) result }
{
    let p = locate(s, from, to)?;
    Some(spliced(s, to, p))
}
