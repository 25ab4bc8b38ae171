// Machines and import types: a port of coff.rs, with the constants of the PE Format document.
#![tactic(auto)]

pub mod constants;
pub mod import;
pub mod machines;
