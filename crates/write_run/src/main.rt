// Runs the writer on the oracle's fixed list of cases, which is its standard input, and prints how many cases there are,
// how many of them the Rust wrote and refused, and on how many of them the writer says or leaves something else.
#![tactic(auto)]

mod answers; // answers.rt: the list and its cases
mod replay; // replay.rt: a case put to the writer

ghost use Rattle.std.specs.Prelude.{◌≡◌, length};

use std::io;

// Room for the whole list; the oracle's tests see that it is enough.
fn buffer() -> [u8; 400000]
    ensures { 400000 ≡ length result }
{
    [0; 400000]
}

fn print_tally(rt: &impl Print, t: &[u8]) -> io::Result<()> {
    let told = answers::go_through(t);
    let cases = told.cases;
    let written = told.written;
    let refused = told.refused;
    let differ = told.differ;
    println!(rt; "{cases} cases, {written} written, {refused} refused, {differ} differ")
}

fn run(rt: &impl Print, t: &[u8]) -> io::Result<()> {
    if answers::whole(t) {
        return print_tally(rt, t);
    }
    println!(rt; "not a list of answers")
}

fn main(rt: HostRuntime) -> io::Result<()> {
    let mut buffer = buffer();
    let n = input::read_full(&mut rt.stdin(), &mut buffer)?;
    run(&rt, &buffer[..n])
}
