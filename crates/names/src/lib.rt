// The name rules: a port of mangler.rs and of the name helpers of coff_import_file.rs. A name is copied into a built name
// by renaming and by ARM64EC mangling; all else answers with places in the bytes that were lent.
#![tactic(auto)]

pub mod built; // built.rt: a name of up to 8,190 bytes held with its length
pub mod rename; // rename.rt: the public name
pub mod types; // types.rt: name types
pub mod dll; // dll.rt: the DLL name
pub mod mangler; // mangler.rt: ARM64EC
