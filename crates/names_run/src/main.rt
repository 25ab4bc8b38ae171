// Runs the name rules on the oracle's table of names, which is its standard input, and prints for each rule how many rows
// the table has and on how many of them the rule says something else than the Rust.
#![tactic(auto)]

mod table; // table.rt: the table and its rows
mod rules; // rules.rt: a row's question put to the proved functions

ghost use Rattle.std.specs.Prelude.{◌≡◌, length};

use crate::table::{Rule, Tally};
use std::io;

// Room for the table.
fn buffer() -> [u8; 65536]
    ensures { 65536 ≡ length result }
{
    [0; 65536]
}

// The line of one rule.
fn print_tally(rt: &impl Print, t: &[u8], rule: Rule) -> io::Result<()> {
    let Tally { cases, differ } = table::go_through(t, rule);
    println!(rt; "{rule}: {cases} cases, {differ} differ")
}

fn print_tallies(rt: &impl Print, t: &[u8]) -> io::Result<()> {
    for rule in Rule::ALL {
        print_tally(rt, t, rule)?;
    }
    Ok(())
}

fn run(rt: &impl Print, t: &[u8]) -> io::Result<()> {
    if table::whole(t) {
        return print_tallies(rt, t);
    }
    println!(rt; "not a table of names")
}

fn main(rt: HostRuntime) -> io::Result<()> {
    let mut buffer = buffer();
    let n = input::read_full(&mut rt.stdin(), &mut buffer)?;
    run(&rt, &buffer[..n])
}
