// The DLL name.
ghost use Rattle.std.specs.Prelude.{◌≡◌};
ghost use Rattle.std.specs.List.{list_any};
ghost use Rattle.format.specs.Names.{barred_dll};
ghost use Rattle.names.specs.Dll.{IsLastDot, Stem, separates};

// How long a name that is dots alone may be.
const DOTS: usize = 2;

// Where the last dot stands.
fn last_dot(dll: &[u8]) -> Option<usize>
    ensures { IsLastDot dll.now result }
{
    dll.iter().rposition(|&x| x == b'.')
}

// How long the stem is: the bytes before the last dot; all of them where there is none, or only a leading one.
pub fn stem(dll: &[u8]) -> usize
    ensures { Stem dll.now result }
{
    match last_dot(dll) {
        Some(at) if 0 < at => at,
        _ => dll.len(),
    }
}

// Whether a byte of a DLL name is `/`, `\` or `:`.
fn separated(dll: &[u8]) -> bool
    ensures { result ≡ list_any separates dll.now }
{
    dll.iter().any(|x| matches!(x, b'/' | b'\\' | b':'))
}

// Whether it is `.` or `..`, or holds `/`, `\` or `:`.
pub fn barred(dll: &[u8]) -> bool
    ensures { result ≡ barred_dll dll.now }
{
    if DOTS < dll.len() {
        return separated(dll);
    }
    if wire::same(dll, b".") {
        return true;
    }
    if wire::same(dll, b"..") {
        return true;
    }
    separated(dll)
}
