// The parts of a member, written: where each stands, what a machine's width decides, string tables and runs of records.
#![tactic(auto)]

pub mod places; // places.rt: where the parts of a member stand
pub mod widths; // widths.rt: what a machine's width decides
pub mod tables; // tables.rt: strings with NUL, and string tables
pub mod parts; // parts.rt: runs of records
