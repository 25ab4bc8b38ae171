// Names in bytes, and which names and machines are admitted.
ghost use Rattle.std.specs.Prelude.{◌≡◌};
ghost use Rattle.format.specs.Reader.{between, admits_dll, text_at};
ghost use Rattle.reader.specs.Answers.{Clear, OrdinaryOf, admits_names, admits_types};

use coff::constants::IMAGE_FILE_MACHINE_ARM64X;
use coff::machines;
use coff::machines::Machine;
use names::dll;

// How long names may be: a DLL name or a stem, a short import's symbol or export string.
pub const MAX_STEM: usize = 255;

pub const MAX_SYMBOL: usize = 8190;

// The greatest numbers of a kind and of a name type.
const MAX_KIND: u16 = 2;

const MAX_NAME_TYPE: u16 = 4;

// The bytes from a place up to a NUL, or up to the end.
pub fn text(b: &[u8], at: usize) -> &[u8]
    ensures { result.now ≡ text_at b.now at }
{
    if b.len() <= at {
        return wire::part(b, 0, 0);
    }
    let rest = wire::part(b, at, b.len() - at);
    let n = wire::index_of(rest, 0);
    wire::part(rest, 0, n)
}

// Whether a name has from low to high bytes.
pub fn fits(s: &[u8], low: usize, high: usize) -> bool
    requires { Clear s.now }
    ensures { result ≡ between low high s.now }
{
    if s.len() < low {
        return false;
    }
    s.len() <= high
}

// Whether a DLL name is one that the writer takes.
pub fn admits_dll(s: &[u8]) -> bool
    requires { Clear s.now }
    ensures { result ≡ admits_dll s.now }
{
    if !fits(s, 1, MAX_STEM) {
        return false;
    }
    !dll::barred(s)
}

// Whether a short import may have a symbol and a DLL name.
pub fn admits_names(symbol: &[u8], dll: &[u8]) -> bool
    requires { Clear symbol.now × Clear dll.now }
    ensures { result ≡ admits_names symbol.now dll.now }
{
    if !fits(symbol, 1, MAX_SYMBOL) {
        return false;
    }
    admits_dll(dll)
}

// The machine of a number, unless it is ARM64EC or ARM64X.
pub fn ordinary_machine(number: u16) -> Option<Machine>
    ensures { OrdinaryOf number result }
{
    if machines::is_arm64ec(number) {
        return None;
    }
    Machine::find(number as u32)
}

// Whether a short import may have a machine, a kind and a name type.
#[tactic(auto, unfolding(crate::specs::Answers::admits_types))]
pub fn admits_types(machine: u16, kind: u16, name_type: u16) -> bool
    ensures { result ≡ admits_types machine kind name_type }
{
    let Some(_) = Machine::find(machine as u32) else {
        return false;
    };
    if machine == IMAGE_FILE_MACHINE_ARM64X {
        return false;
    }
    if MAX_KIND < kind {
        return false;
    }
    name_type <= MAX_NAME_TYPE
}
