// Members drawn into an output, each with its entry in the directory. Into an empty output nothing is written, and the pen moves as it
// would elsewhere: so a list is measured by the walk that writes it.
ghost use Rattle.std.specs.Prelude.{◌≡◌, [], ◌∷◌, ◌++◌, ◌+◌, ◌≤◌, ◌<◌, length};
ghost use Rattle.format.specs.Layouts.{null_thunk, descriptor, null_descriptor, compat_stem, short};
ghost use Rattle.coff.specs.Import.{kind_number, type_number};
ghost use Rattle.members.specs.Members.{IsStem, weak_of};
ghost use Rattle.walks.specs.Pen.{entry_of, at_of, Room, Drew, Noted, fixed_of};

use coff::import::{ImportNameType, ImportType};
use coff::machines::Machine;
use layout::places::ENTRY_SIZE;
use members::extents;

// A pen is one number, which stays in a register: where the next entry goes, and, in its upper half, where the next member goes.
const UPPER: u64 = 4294967296;

// The pen at two places.
pub fn pen_at(entry: usize, at: usize) -> u64
    requires { (entry < 4294967296) × (at < 4294967296) }
    ensures { (entry_of result ≡ entry) × (at_of result ≡ at) }
{
    (at as u64) * UPPER + (entry as u64)
}

// Where the next entry goes.
pub fn entry_of(pen: u64) -> usize
    ensures { result ≡ entry_of pen }
{
    (pen % UPPER) as usize
}

// Where the next member goes.
pub fn at_of(pen: u64) -> usize
    ensures { result ≡ at_of pen }
{
    (pen / UPPER) as usize
}

// Past a member of a size and its entry.
fn moved(pen: u64, size: usize) -> u64
    requires { (entry_of pen + 8 ≤ at_of pen) × (at_of pen + size < 4294967296) }
    ensures { (entry_of result ≡ entry_of pen + 8) × (at_of result ≡ at_of pen + size) }
{
    pen + (size as u64) * UPPER + (ENTRY_SIZE as u64)
}

// Writes the entry of a member of a size at the pen's place, and moves past both.
fn noted(out: &mut [u8], pen: u64, size: usize) -> u64
    requires { (entry_of pen + 8 ≤ at_of pen) × (at_of pen + size < 4294967296) }
    ensures { Noted out.old (entry_of pen) (at_of pen) size out.new (entry_of result) (at_of result) }
{
    let at = at_of(pen);
    let half = wire::put_u32(out, entry_of(pen), at as u32);
    wire::put_u32(out, half, size as u32);
    moved(pen, size)
}

// A weak external.
pub fn draw_weak(out: &mut [u8], pen: u64, sym: &[u8], weak: &[u8], imp: bool, machine: u16) -> u64
    requires room { Room (entry_of pen) (at_of pen) (weak_of machine imp sym.now weak.now ∷ []) }
    requires sym_len_bound { (length sym.now ≤ 65536) × (length weak.now ≤ 65536) }
    ensures { Drew out.old (entry_of pen) (at_of pen) (weak_of machine imp sym.now weak.now ∷ []) out.new (entry_of result) (at_of result) }
{
    let size = extents::weak_size(sym, weak, imp);
    if out.len() == 0 {
        return moved(pen, size);
    }
    let at = at_of(pen);
    members::create_weak_external(out, at, sym, weak, imp, machine);
    noted(out, pen, size)
}

// A short import; its export string is given in two pieces.
pub fn draw_short(
    out: &mut [u8],
    pen: u64,
    sym: &[u8],
    dll: &[u8],
    ordinal: u16,
    import_type: ImportType,
    name_type: ImportNameType,
    head: &[u8],
    tail: &[u8],
    machine: u16,
) -> u64
    requires room { Room (entry_of pen) (at_of pen) (short machine ordinal (kind_number import_type) (type_number name_type) sym.now dll.now (head.now ++ tail.now) ∷ []) }
    requires sym_len_bound { ((length sym.now ≤ 65536) × (length dll.now ≤ 65536)) × ((length head.now ≤ 65536) × (length tail.now ≤ 65536)) }
    ensures { Drew out.old (entry_of pen) (at_of pen) (short machine ordinal (kind_number import_type) (type_number name_type) sym.now dll.now (head.now ++ tail.now) ∷ []) out.new (entry_of result) (at_of result) }
{
    let size = extents::short_size(sym, dll, name_type, head, tail);
    if out.len() == 0 {
        return moved(pen, size);
    }
    let at = at_of(pen);
    members::create_short_import(
        out,
        at,
        sym,
        dll,
        ordinal,
        import_type,
        name_type,
        head,
        tail,
        machine,
    );
    noted(out, pen, size)
}

// The import descriptor.
fn draw_descriptor(
    out: &mut [u8],
    pen: u64,
    machine: Machine,
    dll: &[u8],
    stem: &[u8],
    compat: bool,
) -> u64
    requires room { Room (entry_of pen) (at_of pen) (descriptor machine.number dll.now compat ∷ []) }
    requires dll_len_bound { (length dll.now ≤ 255) × IsStem stem.now dll.now }
    ensures { Drew out.old (entry_of pen) (at_of pen) (descriptor machine.number dll.now compat ∷ []) out.new (entry_of result) (at_of result) }
{
    let size = extents::descriptor_size(dll, stem, compat);
    if out.len() == 0 {
        return moved(pen, size);
    }
    let at = at_of(pen);
    members::create_import_descriptor(out, at, machine, dll, stem, compat);
    noted(out, pen, size)
}

// The null import descriptor.
fn draw_null_descriptor(
    out: &mut [u8],
    pen: u64,
    machine: Machine,
    stem: &[u8],
    compat: bool,
) -> u64
    requires room { Room (entry_of pen) (at_of pen) (null_descriptor machine.number (compat_stem compat stem.now) ∷ []) }
    requires stem_len_bound { length stem.now ≤ 255 }
    ensures { Drew out.old (entry_of pen) (at_of pen) (null_descriptor machine.number (compat_stem compat stem.now) ∷ []) out.new (entry_of result) (at_of result) }
{
    let size = extents::null_descriptor_size(stem, compat);
    if out.len() == 0 {
        return moved(pen, size);
    }
    let at = at_of(pen);
    members::create_null_import_descriptor(out, at, machine, stem, compat);
    noted(out, pen, size)
}

// The null thunk.
fn draw_thunk(out: &mut [u8], pen: u64, machine: Machine, stem: &[u8]) -> u64
    requires room { Room (entry_of pen) (at_of pen) (null_thunk machine.number stem.now ∷ []) }
    requires stem_len_bound { length stem.now ≤ 255 }
    ensures { Drew out.old (entry_of pen) (at_of pen) (null_thunk machine.number stem.now ∷ []) out.new (entry_of result) (at_of result) }
{
    let size = extents::thunk_size(machine, stem);
    if out.len() == 0 {
        return moved(pen, size);
    }
    let at = at_of(pen);
    members::create_null_thunk(out, at, machine, stem);
    noted(out, pen, size)
}

// The three fixed members.
pub fn draw_fixed(
    out: &mut [u8],
    pen: u64,
    machine: Machine,
    dll: &[u8],
    stem: &[u8],
    compat: bool,
) -> u64
    requires room { Room (entry_of pen) (at_of pen) (fixed_of machine.number dll.now compat) }
    requires dll_len_bound { (length dll.now ≤ 255) × IsStem stem.now dll.now }
    ensures { Drew out.old (entry_of pen) (at_of pen) (fixed_of machine.number dll.now compat) out.new (entry_of result) (at_of result) }
{
    let a = draw_descriptor(out, pen, machine, dll, stem, compat);
    let b = draw_null_descriptor(out, a, machine, stem, compat);
    draw_thunk(out, b, machine, stem)
}
