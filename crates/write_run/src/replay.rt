// What the Rust answered to a case, compared with what the writer answers and leaves in its output.
ghost use Rattle.std.specs.Prelude.{◌≡◌, true, ◌++◌, length, drop, Ok, Err};
ghost use Rattle.wire.specs.Bytes.{Bytes};
ghost use Rattle.format.specs.Answers as Answers;
ghost use Rattle.format.specs.Numbers.{number_of};
ghost use Rattle.write_run.specs.Kept.{options, kept_of, output, Agrees};

use format::Refusal;

// What the slots hold before the writer works in them: any number will do.
const STRANGE: u32 = 7;

// What the writer is asked beside the list.
#[derive(Clone, Copy)]
pub struct Asked {
    pub machine: u32,
    pub mingw: bool,
    pub compat: bool,
}

// The Rust's answer, as the list has it in two words: number 0 and the total, or the refusal's number and place.
#[derive(Clone, Copy)]
pub struct Kept {
    pub number: u32,
    pub value: u32,
}

// Whether an output is the set, and beyond it what stood there before.
fn holds(set: &[u8], before: &[u8], out: &[u8]) -> bool
    ensures { result ≡ true → out.now ≡ set.now ++ drop (length set.now) before.now }
{
    let n = set.len();
    if out.len() < n {
        return false;
    }
    if before.len() < n {
        return false;
    }
    if !wire::same(&out[..n], set) {
        return false;
    }
    wire::same(&out[n..], &before[n..])
}

// Whether the Rust wrote this total and this output.
fn is_written(total: usize, kept: Kept, set: &[u8], before: &[u8], out: &[u8]) -> bool
    ensures { result ≡ true → (kept_of (Ok total) ≡ kept) × (kept.value ≡ length set.now) × (out.now ≡ output kept set.now before.now) }
{
    if kept.number != 0 {
        return false;
    }
    if total != kept.value as usize {
        return false;
    }
    if total != set.len() {
        return false;
    }
    holds(set, before, out)
}

// Whether the Rust refused with this refusal's number and place, and the output is what it was before.
fn is_refused(refusal: Refusal, kept: Kept, before: &[u8], out: &[u8]) -> bool
    ensures { result ≡ true → (kept_of (Err refusal) ≡ kept) × (kept.number ≡ 0 → ⊥) × ((set : Bytes) → out.now ≡ output kept set before.now) }
{
    if kept.number == 0 {
        return false;
    }
    if refusal.reason.number() != kept.number {
        return false;
    }
    if refusal.place != kept.value {
        return false;
    }
    wire::same(out, before)
}

// Whether asking answers as the Rust did; of a set that was too large for the output it says nothing.
fn is_asked(list: &[u8], asked: Asked, kept: Kept) -> bool
    ensures { result ≡ true → (kept.number ≡ 15 → ⊥) → kept_of (Answers.asked (options asked) list.now) ≡ kept }
{
    match library::total(list, asked.machine, asked.mingw, asked.compat) {
        Ok(n) => {
            if kept.number == 15 {
                return true;
            }
            if kept.number != 0 {
                return false;
            }
            n == kept.value as usize
        }
        Err(refusal) => {
            if refusal.reason.number() != kept.number {
                return false;
            }
            refusal.place == kept.value
        }
    }
}

// Whether asking and writing answer as the Rust did, and the writer leaves the Rust's set in the output with all beyond it untouched.
pub fn agrees(
    list: &[u8],
    asked: Asked,
    kept: Kept,
    set: &[u8],
    before: &[u8],
    out: &mut [u8],
) -> bool
    requires { before.now ≡ out.old }
    ensures { result ≡ true → Agrees (options asked) list.now kept set.now out.old }
{
    if !is_asked(list, asked, kept) {
        return false;
    }
    let mut slots = [[STRANGE; 3]; keys::SLOTS];
    match library::write(
        list,
        asked.machine,
        asked.mingw,
        asked.compat,
        &mut slots,
        out,
    ) {
        Ok(n) => is_written(n, kept, set, before, out),
        Err(refusal) => is_refused(refusal, kept, before, out),
    }
}
