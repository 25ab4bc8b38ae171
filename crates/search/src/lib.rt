// Where a pattern stands.
#![tactic(auto)]

ghost use Rattle.std.specs.Prelude.{◌≡◌, ◌+◌, ◌≤◌, length, drop};
ghost use Rattle.wire.specs.Bytes.{starts, before};
ghost use Rattle.format.specs.Names.{find};
ghost use Rattle.search.specs.Search.{place_of};

// The first place from i on at which text has a byte, or its end.
fn skip(text: &[u8], i: usize, c: u8) -> usize
    requires { i ≤ length text.now }
    ensures { (result ≡ i + length (before c (drop i text.now))) × (result ≤ length text.now) }
{
    i + wire::index_of(&text[i..], c)
}

// The first place of text at which all bytes of pattern agree; an empty pattern stands at 0. Only places that have the pattern's
// first byte are compared.
pub fn find(pattern: &[u8], text: &[u8]) -> Option<usize>
    ensures { result ≡ place_of (find pattern.now text.now) }
{
    let m = pattern.len();
    let n = text.len();
    let Some(&c) = pattern.first() else {
        return Some(0);
    };
    let mut i = 0;
    // The scope paper binds this form: nested loops over place and pattern byte, left from inside by a label with the found place.
    let at = 'search: loop {
        let k = skip(text, i, c);
        if n - k < m {
            return None;
        }
        let mut j = 0;
        loop {
            if j == m {
                break 'search k;
            }
            if text[k + j] != pattern[j] {
                break;
            }
            j += 1;
        }
        i = k + 1;
    };
    Some(at)
}

// Whether s starts with a byte.
#[tactic(auto, unfolding(wire::specs::Bytes::starts))]
pub fn starts_with(s: &[u8], c: u8) -> bool
    ensures { result ≡ starts c s.now }
{
    s.first() == Some(&c)
}
