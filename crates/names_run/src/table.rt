// The table: rows one after the other, as oracle/README.md has them. A row is three bytes (which rule, the options, the
// Rust's verdict) and four strings, each behind a byte with its length: the names given, and the name that the Rust made.
ghost use Rattle.std.specs.Prelude.{◌+◌, ◌≤◌, ◌<◌, length, IfSome};
ghost use Rattle.std.specs.Iterator.{at_most};

use crate::rules;
use coff::constants::{IMAGE_FILE_MACHINE_AMD64, IMAGE_FILE_MACHINE_I386};
use std::fmt;

// The rules, by their numbers in the table.
#[derive(Clone, Copy, PartialEq, Eq)]
pub enum Rule {
    Replace = 0,
    Stem = 1,
    Demangle = 2,
    Mangle = 3,
    Type = 4,
    Wanted = 5,
}

impl Rule {
    pub const ALL: [Rule; 6] = [
        Rule::Replace,
        Rule::Stem,
        Rule::Demangle,
        Rule::Mangle,
        Rule::Type,
        Rule::Wanted,
    ];
}

impl TryFrom<u8> for Rule {
    type Error = UnknownRule;

    fn try_from(number: u8) -> Result<Self, UnknownRule> {
        match number {
            0 => Ok(Rule::Replace),
            1 => Ok(Rule::Stem),
            2 => Ok(Rule::Demangle),
            3 => Ok(Rule::Mangle),
            4 => Ok(Rule::Type),
            5 => Ok(Rule::Wanted),
            _ => Err(UnknownRule),
        }
    }
}

impl fmt::Display for Rule {
    fn fmt<W: fmt::Write>(&self, f: &mut fmt::Formatter<W>) -> fmt::Result {
        match self {
            Rule::Replace => write!(f, "replace"),
            Rule::Stem => write!(f, "stem"),
            Rule::Demangle => write!(f, "demangle"),
            Rule::Mangle => write!(f, "mangle"),
            Rule::Type => write!(f, "name type"),
            Rule::Wanted => write!(f, "wanted name"),
        }
    }
}

// A number that no rule has.
#[derive(Clone, Copy)]
pub struct UnknownRule;

// The options of a question about name types.
const ON_I386: u8 = 1;

const MINGW: u8 = 2;

// A row.
#[derive(Clone, Copy)]
pub struct Row<'a> {
    pub rule: Rule,
    options: u8,
    verdict: u8,
    given: [&'a [u8]; 3],
    made: &'a [u8],
}

impl Row<'_> {
    fn machine(self) -> u16 {
        if self.options % 2 == ON_I386 {
            return IMAGE_FILE_MACHINE_I386;
        }
        IMAGE_FILE_MACHINE_AMD64
    }

    fn is_mingw(self) -> bool {
        MINGW <= self.options
    }

    // Whether the rule and the Rust agree.
    pub fn agrees(self) -> bool {
        let [a, b, c] = self.given;
        match self.rule {
            Rule::Replace => rules::replace(a, b, c, self.verdict, self.made),
            Rule::Stem => rules::stem(a, self.verdict, self.made),
            Rule::Demangle => rules::demangle(a, self.verdict, self.made),
            Rule::Mangle => rules::mangle(a, self.verdict, self.made),
            Rule::Type => rules::name_type(a, b, self.machine(), self.is_mingw(), self.verdict),
            Rule::Wanted => rules::wanted(a, b, self.verdict),
        }
    }
}

// The string at the start of a table, and what follows it; none where it is not all there.
fn split_text(table: &[u8]) -> Option<(&[u8], &[u8])>
    ensures { IfSome result (λ p. length p.1.now < length table.now) }
{
    let (n, rest) = table.split_first()?;
    rest.split_at_checked(usize::from(*n))
}

// The row at the start of a table, and what follows it; none where no row of a known rule is all there.
fn split_row(table: &[u8]) -> Option<(Row, &[u8])>
    ensures { IfSome result (λ p. length p.1.now < length table.now) }
{
    let [rule, options, verdict, rest @ ..] = table else {
        return None;
    };
    let rule = Rule::try_from(*rule).ok()?;
    let (a, rest) = split_text(rest)?;
    let (b, rest) = split_text(rest)?;
    let (c, rest) = split_text(rest)?;
    let (made, rest) = split_text(rest)?;
    let row = Row {
        rule,
        options: *options,
        verdict: *verdict,
        given: [a, b, c],
        made,
    };
    Some((row, rest))
}

// The rows of a table, up to where there is none.
#[derive(Clone, Copy)]
pub struct Rows<'a> {
    pub left: &'a [u8],
}

impl<'a> Iterator for Rows<'a> {
    type Item = Row<'a>;

    ghost remaining = { λ s. at_most (length s.left.now) };

    fn next(&mut self) -> Option<Row<'a>> {
        let (row, left) = split_row(self.left)?;
        self.left = left;
        Some(row)
    }
}

// How many rows there are of a rule, and on how many of them it differs.
#[derive(Clone, Copy)]
pub struct Tally {
    pub cases: usize,
    pub differ: usize,
}

// Goes through all rows of one rule.
pub fn go_through(table: &[u8], rule: Rule) -> Tally {
    let rows = Rows { left: table };
    Tally {
        cases: rows.filter(|row| row.rule == rule).count(),
        differ: rows.filter(|row| row.rule == rule && !row.agrees()).count(),
    }
}

// Whether the bytes are rows of known rules, the last of which ends where they end.
pub fn whole(table: &[u8]) -> bool {
    let mut rows = Rows { left: table };
    for _ in &mut rows {}
    rows.left.is_empty()
}
