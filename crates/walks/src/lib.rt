// The members of a list, drawn: what is measured first is written by the same walk.
#![tactic(auto)]

pub mod pen; // pen.rt: members and their directory entries, drawn one after another
pub mod walk; // walk.rt: the members of one list
