// How many bytes each member has.
ghost use Rattle.std.specs.Prelude.{◌≡◌, ◌++◌, ℕ, ◌≤◌, length};
ghost use Rattle.format.specs.Layouts.{descriptor, null_descriptor, null_thunk, short, compat_stem, encode};
ghost use Rattle.coff.specs.Import.{type_number};
ghost use Rattle.members.specs.Members.{IsStem, weak_of};

use crate::{EXPORT_AS, IMP_PREFIX};
use coff::import::ImportNameType;
use coff::machines::Machine;
use layout::places::{
    DATA_AT_1, DATA_AT_2, DESCRIPTOR_SYMBOLS_SIZE, DLL_AT, NULL_SYMBOLS_AT, WEAK_SYMBOLS_SIZE,
};
use layout::tables::{IMPORT_DESCRIPTOR_PREFIX, NUL, NULL_THUNK_DATA, STRINGS_AT};
use layout::{tables, widths};
use records::{ImportObjectHeader, Symbol};

// What each member has beside its names: the records, the head of the string table, the NULs, and what its names begin or end
// with. The name of a null import descriptor is counted by its own function.
pub const DESCRIPTOR: usize = DLL_AT
    + DESCRIPTOR_SYMBOLS_SIZE
    + STRINGS_AT
    + IMPORT_DESCRIPTOR_PREFIX.len()
    + NULL_THUNK_DATA
    + 4 * NUL;

const NULL_DESCRIPTOR: usize = NULL_SYMBOLS_AT + Symbol::SIZE + STRINGS_AT + NUL;

const NULL_THUNK: usize = DATA_AT_2 + Symbol::SIZE + STRINGS_AT + NULL_THUNK_DATA + NUL;

const SHORT: usize = ImportObjectHeader::SIZE + 2 * NUL;

const WEAK: usize = DATA_AT_1 + WEAK_SYMBOLS_SIZE + STRINGS_AT + 2 * NUL;

// An import descriptor, by the DLL name and its stem.
pub fn descriptor_size(dll: &[u8], stem: &[u8], compat: bool) -> usize
    requires dll_len_bound { length dll.now ≤ 255 }
    requires stem { IsStem stem.now dll.now }
    ensures { (m : ℕ) → result ≡ length (encode (descriptor m dll.now compat)) }
{
    let null_len = tables::null_name_len(stem, compat);
    DESCRIPTOR + null_len + dll.len() + 2 * stem.len()
}

// A null import descriptor, by the stem that its name ends in under compat.
pub fn null_descriptor_size(stem: &[u8], compat: bool) -> usize
    requires { length stem.now ≤ 255 }
    ensures { (m : ℕ) → result ≡ length (encode (null_descriptor m (compat_stem compat stem.now))) }
{
    NULL_DESCRIPTOR + tables::null_name_len(stem, compat)
}

// A null thunk.
pub fn thunk_size(machine: Machine, stem: &[u8]) -> usize
    requires { length stem.now ≤ 255 }
    ensures { result ≡ length (encode (null_thunk machine.number stem.now)) }
{
    NULL_THUNK + 2 * (widths::slot_size(machine) as usize) + stem.len()
}

// A short import. The export string, of two pieces, counts only for NameExportas.
pub fn short_size(
    sym: &[u8],
    dll: &[u8],
    name_type: ImportNameType,
    head: &[u8],
    tail: &[u8],
) -> usize
    requires sym_len_bound { (length sym.now ≤ 65536) × (length dll.now ≤ 65536) }
    requires head_len_bound { (length head.now ≤ 65536) × (length tail.now ≤ 65536) }
    ensures { (m o k : ℕ) → result ≡ length (encode (short m o k (type_number name_type) sym.now dll.now (head.now ++ tail.now))) }
{
    let plain = SHORT + sym.len() + dll.len();
    if name_type.number() == EXPORT_AS {
        return plain + head.len() + tail.len() + NUL;
    }
    plain
}

// A weak external. With imp both names begin with `__imp_`.
pub fn weak_size(sym: &[u8], weak: &[u8], imp: bool) -> usize
    requires { (length sym.now ≤ 65536) × (length weak.now ≤ 65536) }
    ensures { (m : ℕ) → result ≡ length (encode (weak_of m imp sym.now weak.now)) }
{
    let plain = WEAK + sym.len() + weak.len();
    if imp {
        return plain + 2 * IMP_PREFIX.len();
    }
    plain
}
