// Strings with NUL that stand in the bytes themselves, and where those of each layout stand.
ghost use Rattle.std.specs.Prelude.{◌≡◌, [], ◌∷◌};
ghost use Rattle.wire.specs.Writes.{Found};
ghost use Rattle.format.specs.Layouts.{strings};
ghost use Rattle.format.specs.Reader.{text_at};

use layout::places::{DATA_AT_1, DATA_AT_2, NULL_SYMBOLS_AT, WEAK_SYMBOLS_SIZE};
use layout::tables::{NUL, STRINGS_AT};
use records::{ImportObjectHeader, Symbol};

// The names of a null import descriptor and of a null thunk, the latter before its slots; a weak external's first; a short
// import's first.
pub const NULL_STRINGS_AT: usize = NULL_SYMBOLS_AT + Symbol::SIZE + STRINGS_AT;

pub const THUNK_STRINGS_AT: usize = DATA_AT_2 + Symbol::SIZE + STRINGS_AT;

pub const WEAK_STRINGS_AT: usize = DATA_AT_1 + WEAK_SYMBOLS_SIZE + STRINGS_AT;

pub const SYMBOL_AT: usize = ImportObjectHeader::SIZE;

// Looks for a string and its NUL from a place on. The string is the text at some place: there only its NUL is looked for.
pub fn find_text(s: &[u8], at: usize, place: usize, x: &[u8]) -> usize
    requires { x.now ≡ text_at s.now place }
    ensures { Found s.now at (strings (x.now ∷ [])) result }
{
    if at == place {
        return wire::find_zeros(s, at + x.len(), NUL);
    }
    let a = wire::find(s, at, x);
    wire::find_zeros(s, a, NUL)
}
