// The list: how many cases there are, then case after case, as oracle/README.md has them. A case is machine, flags and
// list, then the Rust's answer in two words, and after a total the set. List and set stand behind a word with their length.
ghost use Rattle.std.specs.Prelude.{◌+◌, ◌≤◌, ◌<◌, ◌≡◌, true, length};
ghost use Rattle.write_run.specs.Cases.{word_at, string_at, after_at, answer_at, next_at, asked_at, kept_at, case_at, guards, AgreesAt, AllAgree};

use crate::replay;
use crate::replay::{Asked, Kept};

const WORD: usize = 4;

// Where a case has its flags and its list.
const FLAGS: usize = 4;

const LIST: usize = 8;

// Where an answer has a refusal's number, and where it ends or has its set.
const NUMBER: usize = 4;

const SET: usize = 8;

const MINGW: u32 = 1;

const COMPAT: u32 = 2;

// What an output is filled with before the writer is called.
const GUARD: u8 = 165;

// How many cases there are, how many of them the Rust wrote and refused, and on how many the writer differs.
#[derive(Clone, Copy)]
pub struct Tally {
    pub cases: usize,
    pub written: usize,
    pub refused: usize,
    pub differ: usize,
}

fn wide(x: u32) -> usize
    ensures { (result ≡ x) × (result < 4294967296) }
{
    x as usize
}

// The word at a place, or 0 where it is not all there.
fn word(t: &[u8], at: usize) -> u32
    ensures { result ≡ word_at t.now at }
{
    if t.len() < WORD {
        return 0;
    }
    if t.len() - WORD < at {
        return 0;
    }
    wire::u32_at(t, at)
}

// The place after the string at a place, or one past the end where it is not all there.
fn after(t: &[u8], at: usize) -> usize
    requires { at ≤ length t.now + 9 }
    ensures { (result ≡ after_at t.now at) × (result ≤ length t.now + 1) }
{
    let n = wide(word(t, at));
    let end = at + WORD + n;
    if end <= t.len() {
        return end;
    }
    t.len() + 1
}

// The string at a place, or an empty one where it is not all there.
fn text(t: &[u8], at: usize) -> &[u8]
    requires { at ≤ length t.now + 9 }
    ensures { result.now ≡ string_at t.now at }
{
    let n = wide(word(t, at));
    if at + WORD + n <= t.len() {
        return wire::part(t, at + WORD, n);
    }
    wire::part(t, 0, 0)
}

// The place of the answer to the case at a place, or one past the end where the list is not all there.
fn answer(t: &[u8], at: usize) -> usize
    requires { at < length t.now }
    ensures { (result ≡ answer_at t.now at) × (result ≤ length t.now + 1) }
{
    after(t, at + LIST)
}

// The place after the case at a place, or one past the end where it is not all there.
fn next(t: &[u8], at: usize) -> usize
    requires { at < length t.now }
    ensures { (result ≡ next_at t.now at) × (at < result) × (result ≤ length t.now + 1) }
{
    let answer = answer(t, at);
    if word(t, answer + NUMBER) == 0 {
        return after(t, answer + SET);
    }
    answer + SET
}

fn flags(t: &[u8], at: usize) -> u32
    requires { at < length t.now }
    ensures { result ≡ word_at t.now (at + 4) }
{
    word(t, at + FLAGS)
}

// What the case at a place asks.
fn asked(t: &[u8], at: usize) -> Asked
    requires { at < length t.now }
    ensures { result ≡ asked_at t.now at }
{
    let machine = word(t, at);
    let flags = flags(t, at);
    Asked {
        machine,
        mingw: flags % COMPAT == MINGW,
        compat: COMPAT <= flags,
    }
}

// The Rust's answer to the case at a place.
fn kept(t: &[u8], at: usize) -> Kept
    requires { at < length t.now }
    ensures { result ≡ kept_at t.now at }
{
    let answer = answer(t, at);
    let value = word(t, answer);
    Kept {
        number: word(t, answer + NUMBER),
        value,
    }
}

// An output that nothing was written to.
fn untouched() -> [u8; 65536]
    ensures { (result ≡ guards) × (65536 ≡ length result) }
{
    [GUARD; 65536]
}

// Whether the writer and the Rust agree on the case at a place.
fn agrees(t: &[u8], at: usize) -> bool
    requires { at < length t.now }
    ensures { result ≡ true → AgreesAt t.now at }
{
    let asked = asked(t, at);
    let kept = kept(t, at);
    let list = text(t, at + LIST);
    let set = text(t, answer(t, at) + SET);
    let before = untouched();
    let mut out = before;
    replay::agrees(list, asked, kept, set, &before, &mut out)
}

// 1 where the Rust refused the case at a place, and else 0.
fn refuses(t: &[u8], at: usize) -> usize
    requires { at < length t.now }
    ensures { result ≤ 1 }
{
    let answer = kept(t, at);
    if answer.number == 0 {
        return 0;
    }
    1
}

// 1 where the writer differs on the case at a place, and else 0.
fn differs(t: &[u8], at: usize) -> usize
    requires { at < length t.now }
    ensures { (result ≤ 1) × (result ≡ 0 → AgreesAt t.now at) }
{
    if agrees(t, at) {
        return 0;
    }
    1
}

// Goes through all cases. A `while` over places, as `whole`: the cases differ in length, and `AllAgree` tells them by their places.
pub fn go_through(t: &[u8]) -> Tally
    ensures { (result.written + result.refused ≡ result.cases) × (length t.now ≤ case_at t.now result.cases) × (result.differ ≡ 0 → AllAgree t.now result.cases) }
{
    let mut at = WORD;
    let mut cases = 0;
    let mut refused = 0;
    let mut differ = 0;
    while at < t.len() {
        cases += 1;
        refused += refuses(t, at);
        differ += differs(t, at);
        at = next(t, at);
    }
    Tally {
        cases,
        written: cases - refused,
        refused,
        differ,
    }
}

// Whether the bytes are as many cases with known flags as they say, the last of which ends where they end.
pub fn whole(t: &[u8]) -> bool
    ensures { result ≡ true → case_at t.now (word_at t.now 0) ≡ length t.now }
{
    let mut at = WORD;
    let mut cases = 0;
    while at < t.len() {
        if MINGW + COMPAT < flags(t, at) {
            return false;
        }
        cases += 1;
        at = next(t, at);
    }
    if at != t.len() {
        return false;
    }
    cases == wide(word(t, 0))
}
