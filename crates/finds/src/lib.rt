// The five layouts, looked for in bytes from the start. What a layout is, only the writer says: a member is drawn into a scratch
// by the function that writes it, and the scratch is looked for. Each function returns the place after what it looks for, or a
// place past the end.
#![tactic(auto)]

pub mod strings; // strings.rt: strings with NUL that stand in the bytes themselves
pub mod layouts; // layouts.rt: the five layouts
