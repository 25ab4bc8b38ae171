// The walk over one list: each record's short import, and after all of them what was deferred.
ghost use Rattle.std.specs.Prelude.{◌≡◌, true, false, [], ◌∷◌, ◌++◌, ◌-◌, ◌≤◌, ◌<◌, length, if◌then◌else◌, Ok};
ghost use Rattle.std.proofs.Math.Option.{some, get_or};
ghost use Rattle.wire.specs.Bytes.{is_some};
ghost use Rattle.format.specs.Machines.{arm64ec};
ghost use Rattle.format.specs.Exports.{both_counts, field_at, absent_at, bytes_at, export_at, exports_from};
ghost use Rattle.format.specs.Names.{hash, demangle};
ghost use Rattle.format.specs.Plan.{kind, public_name, plan_public};
ghost use Rattle.format.specs.Library.{alias_members, alias_or_short, last_answering, members_of};
ghost use Rattle.format.specs.Refusals.{check_list};
ghost use Rattle.coff.specs.Import.{kind_number, type_number};
ghost use Rattle.plans.specs.Shape.{source_of};
ghost use Rattle.keys.specs.Targets.{Resolved};
ghost use Rattle.walks.specs.Pen.{entry_of, at_of, Room, Drew};
ghost use Rattle.walks.specs.Walk.{import_of, direct, drawn, record_members, pass_members};

use crate::pen::{draw_short, draw_weak};
use coff::constants::IMAGE_FILE_MACHINE_ARM64EC;
use coff::import::{ImportNameType, ImportType};
use keys::NO_TARGET;
use lists::record::Record;
use names::mangler;
use names::mangler::Demangled;
use plans::{Short, Source, plan, public};

// A record's short import; its export string is given in two pieces.
fn draw_import(
    out: &mut [u8],
    pen: u64,
    r: Record,
    sym: &[u8],
    dll: &[u8],
    name_type: ImportNameType,
    head: &[u8],
    tail: &[u8],
    machine: u16,
) -> u64
    requires room { Room (entry_of pen) (at_of pen) (import_of machine (export_at r.list.now r.index) (type_number name_type) sym.now dll.now (head.now ++ tail.now) ∷ []) }
    requires sym_len_bound { ((length sym.now ≤ 65536) × (length dll.now ≤ 65536)) × ((length head.now ≤ 65536) × (length tail.now ≤ 65536)) }
    ensures { Drew out.old (entry_of pen) (at_of pen) (import_of machine (export_at r.entry.list.now r.entry.index) (type_number name_type) sym.now dll.now (head.now ++ tail.now) ∷ []) out.new (entry_of result) (at_of result) }
{
    let ordinal = r.ordinal();
    let import_type = r.import_type();
    draw_short(
        out,
        pen,
        sym,
        dll,
        ordinal,
        import_type,
        name_type,
        head,
        tail,
        machine,
    )
}

// A record's short import, exporting its public name demangled.
fn draw_demangled(
    out: &mut [u8],
    pen: u64,
    r: Record,
    sym: &[u8],
    dll: &[u8],
    name_type: ImportNameType,
    public: &[u8],
    machine: u16,
) -> u64
    requires room { Room (entry_of pen) (at_of pen) (import_of machine (export_at r.list.now r.index) (type_number name_type) sym.now dll.now (get_or (demangle public.now) []) ∷ []) }
    requires sym_len_bound { (length sym.now ≤ 65536) × (length dll.now ≤ 65536) × (length public.now ≤ 65536) }
    ensures { Drew out.old (entry_of pen) (at_of pen) (import_of machine (export_at r.entry.list.now r.entry.index) (type_number name_type) sym.now dll.now (get_or (demangle public.now) []) ∷ []) out.new (entry_of result) (at_of result) }
{
    let n = public.len();
    match mangler::get_arm64ec_demangled_function_name(public) {
        Some(Demangled::Dropped) => {
            let rest = wire::part(public, 1, n - 1);
            draw_import(out, pen, r, sym, dll, name_type, rest, b"", machine)
        }
        Some(Demangled::Cut { at }) => {
            let after = at + mangler::TAG_LEN;
            let head = wire::part(public, 0, at);
            let tail = wire::part(public, after, n - after);
            draw_import(out, pen, r, sym, dll, name_type, head, tail, machine)
        }
        None => draw_import(out, pen, r, sym, dll, name_type, b"", b"", machine),
    }
}

// A record's short import, with an export string by where it comes from.
fn draw_source(
    out: &mut [u8],
    pen: u64,
    r: Record,
    sym: &[u8],
    dll: &[u8],
    name_type: ImportNameType,
    export: Source,
    public: &[u8],
    machine: u16,
) -> u64
    requires room { Room (entry_of pen) (at_of pen) (import_of machine (export_at r.list.now r.index) (type_number name_type) sym.now dll.now (source_of (export_at r.list.now r.index) public.now «export») ∷ []) }
    requires sym_len_bound { (length sym.now ≤ 65536) × (length dll.now ≤ 65536) × (length public.now ≤ 65536) }
    ensures { Drew out.old (entry_of pen) (at_of pen) (import_of machine (export_at r.entry.list.now r.entry.index) (type_number name_type) sym.now dll.now (source_of (export_at r.entry.list.now r.entry.index) public.now «export») ∷ []) out.new (entry_of result) (at_of result) }
{
    match export {
        Source::Nothing => draw_import(out, pen, r, sym, dll, name_type, b"", b"", machine),
        Source::ExportAs => draw_import(
            out,
            pen,
            r,
            sym,
            dll,
            name_type,
            r.export_as().unwrap_or(b""),
            b"",
            machine,
        ),
        Source::ImportName => draw_import(
            out,
            pen,
            r,
            sym,
            dll,
            name_type,
            r.import_name().unwrap_or(b""),
            b"",
            machine,
        ),
        Source::Public => draw_import(out, pen, r, sym, dll, name_type, public, b"", machine),
        Source::Demangled => draw_demangled(out, pen, r, sym, dll, name_type, public, machine),
    }
}

// A record's short import under its public name, with `#` before it or without.
fn draw_final(
    out: &mut [u8],
    pen: u64,
    r: Record,
    dll: &[u8],
    short: Short,
    public: &[u8],
    machine: u16,
) -> u64
    requires room { Room (entry_of pen) (at_of pen) (import_of machine (export_at r.list.now r.index) (type_number short.name_type) (if short.hashed then hash ∷ public.now else public.now) dll.now (source_of (export_at r.list.now r.index) public.now short.«export») ∷ []) }
    requires dll_len_bound { (length dll.now ≤ 255) × (length public.now ≤ 8189) }
    ensures { Drew out.old (entry_of pen) (at_of pen) (import_of machine (export_at r.entry.list.now r.entry.index) (type_number short.name_type) (if short.hashed then hash ∷ public.now else public.now) dll.now (source_of (export_at r.entry.list.now r.entry.index) public.now short.«export») ∷ []) out.new (entry_of result) (at_of result) }
{
    if !short.hashed {
        return draw_source(
            out,
            pen,
            r,
            public,
            dll,
            short.name_type,
            short.export,
            public,
            machine,
        );
    }
    let name = mangler::mangled(public);
    draw_source(
        out,
        pen,
        r,
        name.as_slice(),
        dll,
        short.name_type,
        short.export,
        public,
        machine,
    )
}

// A weak external that leads to a final name: for code without prefix and with; otherwise only with.
fn draw_alias(
    out: &mut [u8],
    pen: u64,
    import_type: ImportType,
    target: &[u8],
    public: &[u8],
    machine: u16,
) -> u64
    requires room { Room (entry_of pen) (at_of pen) (alias_members machine (kind_number import_type) target.now public.now) }
    requires target_len_bound { (length target.now ≤ 65536) × (length public.now ≤ 65536) }
    ensures { Drew out.old (entry_of pen) (at_of pen) (alias_members machine (kind_number import_type) target.now public.now) out.new (entry_of result) (at_of result) }
{
    if import_type.number() == 0 {
        let next = draw_weak(out, pen, target, public, false, machine);
        return draw_weak(out, next, target, public, true, machine);
    }
    draw_weak(out, pen, target, public, true, machine)
}

// An alias of the import of another record, whose final name is its public name.
fn draw_alias_to(
    out: &mut [u8],
    pen: u64,
    r: Record,
    other: Record,
    public: &[u8],
    machine: u16,
) -> u64
    requires room { Room (entry_of pen) (at_of pen) (alias_members machine (kind (export_at r.list.now r.index)) (get_or (public_name (export_at other.list.now other.index)) []) public.now) }
    requires other_value { is_some (public_name (export_at other.list.now other.index)) ≡ true }
    requires public_len_bound { length public.now ≤ 8189 }
    ensures { Drew out.old (entry_of pen) (at_of pen) (alias_members machine (kind (export_at r.entry.list.now r.entry.index)) (get_or (public_name (export_at other.entry.list.now other.entry.index)) []) public.now) out.new (entry_of result) (at_of result) }
{
    let import_type = r.import_type();
    let Some(ext_name) = other.ext_name() else {
        return draw_alias(out, pen, import_type, other.base(), public, machine);
    };
    let name = public::renamed(other, ext_name).unwrap();
    draw_alias(out, pen, import_type, name.as_slice(), public, machine)
}

// What is written of a deferred record: aliases of the last import that answers to its import_name, or an import that exports it.
fn draw_deferred(
    out: &mut [u8],
    pen: u64,
    r: Record,
    dll: &[u8],
    public: &[u8],
    machine: u16,
    mingw: bool,
    from: u32,
    to: u32,
    targets: &[u16],
) -> u64
    requires room { Room (entry_of pen) (at_of pen) (alias_or_short machine mingw dll.now (export_at r.list.now r.index) public.now (bytes_at r.list.now (field_at r.index 3)) (last_answering machine mingw (bytes_at r.list.now (field_at r.index 3)) (exports_from r.list.now from (to - from)))) }
    requires b_value { check_list r.list.now ≡ Ok tt }
    requires not_arm64ec { machine ≡ arm64ec → ⊥ }
    requires from_le_k { (from ≤ r.index) × (r.index < to) × (to ≤ both_counts r.list.now) }
    requires dll_len_bound { (length dll.now ≤ 255) × (length public.now ≤ 8189) }
    requires resolved { Resolved machine mingw r.list.now from (to - from) targets.now }
    requires k_value { absent_at r.list.now (field_at r.index 3) ≡ false }
    ensures { Drew out.old (entry_of pen) (at_of pen) (alias_or_short machine mingw dll.now (export_at r.entry.list.now r.entry.index) public.now (bytes_at r.entry.list.now (field_at r.entry.index 3)) (last_answering machine mingw (bytes_at r.entry.list.now (field_at r.entry.index 3)) (exports_from r.entry.list.now from (to - from)))) out.new (entry_of result) (at_of result) }
{
    let wanted = r.import_name().unwrap();
    let target = targets[r.index as usize];
    if target == NO_TARGET {
        let name_type = ImportNameType::NameExportas;
        return draw_import(out, pen, r, public, dll, name_type, wanted, b"", machine);
    }
    let other = Record {
        list: r.list,
        index: target as u32,
    };
    draw_alias_to(out, pen, r, other, public, machine)
}

// Whether the import of a record under its public name is written at once and without an export string, whatever its type: its size
// needs no plan.
fn is_direct(r: Record, machine: u16, public: &[u8]) -> bool
    ensures { result ≡ direct machine (export_at r.entry.list.now r.entry.index) public.now }
{
    if machine == IMAGE_FILE_MACHINE_ARM64EC {
        return false;
    }
    if public.len() == 0 {
        return false;
    }
    if r.export_as().is_some() {
        return false;
    }
    r.import_name().is_none()
}

// What is written of a record under its public name, at once or later.
fn draw_named(
    out: &mut [u8],
    pen: u64,
    r: Record,
    dll: &[u8],
    public: &[u8],
    machine: u16,
    mingw: bool,
    from: u32,
    to: u32,
    later: bool,
    targets: &[u16],
) -> u64
    requires room { Room (entry_of pen) (at_of pen) (drawn later machine mingw dll.now (exports_from r.list.now from (to - from)) (export_at r.list.now r.index) (plan_public machine mingw (export_at r.list.now r.index) (some public.now))) }
    requires b_value { check_list r.list.now ≡ Ok tt }
    requires from_le_k { (from ≤ r.index) × (r.index < to) × (to ≤ both_counts r.list.now) }
    requires dll_len_bound { (length dll.now ≤ 255) × (length public.now ≤ 8189) }
    requires resolved { (machine ≡ arm64ec → ⊥) → Resolved machine mingw r.list.now from (to - from) targets.now }
    ensures { Drew out.old (entry_of pen) (at_of pen) (drawn later machine mingw dll.now (exports_from r.entry.list.now from (to - from)) (export_at r.entry.list.now r.entry.index) (plan_public machine mingw (export_at r.entry.list.now r.entry.index) (some public.now))) out.new (entry_of result) (at_of result) }
{
    if out.len() == 0 && is_direct(r, machine, public) {
        if later {
            return pen;
        }
        return draw_import(
            out,
            pen,
            r,
            public,
            dll,
            ImportNameType::Name,
            b"",
            b"",
            machine,
        );
    }
    match plan(r, machine, mingw, public) {
        Ok(Some(short)) => {
            if later {
                return pen;
            }
            draw_final(out, pen, r, dll, short, public, machine)
        }
        Ok(None) => {
            if !later {
                return pen;
            }
            draw_deferred(out, pen, r, dll, public, machine, mingw, from, to, targets)
        }
        Err(_) => pen,
    }
}

// What is written of a record, at once or later; without an import_name nothing is deferred. Its public name is its base, a part of the
// list, or is built where it is renamed.
fn draw_record(
    out: &mut [u8],
    pen: u64,
    r: Record,
    dll: &[u8],
    machine: u16,
    mingw: bool,
    from: u32,
    to: u32,
    later: bool,
    targets: &[u16],
) -> u64
    requires room { Room (entry_of pen) (at_of pen) (record_members later machine mingw dll.now (exports_from r.list.now from (to - from)) r.list.now r.index) }
    requires b_value { check_list r.list.now ≡ Ok tt }
    requires from_le_k { (from ≤ r.index) × (r.index < to) × (to ≤ both_counts r.list.now) }
    requires dll_len_bound { length dll.now ≤ 255 }
    requires resolved { (machine ≡ arm64ec → ⊥) → Resolved machine mingw r.list.now from (to - from) targets.now }
    ensures { Drew out.old (entry_of pen) (at_of pen) (record_members later machine mingw dll.now (exports_from r.entry.list.now from (to - from)) r.entry.list.now r.entry.index) out.new (entry_of result) (at_of result) }
{
    if later && r.import_name().is_none() {
        return pen;
    }
    if r.is_private() {
        return pen;
    }
    let Some(ext_name) = r.ext_name() else {
        return draw_named(
            out,
            pen,
            r,
            dll,
            r.base(),
            machine,
            mingw,
            from,
            to,
            later,
            targets,
        );
    };
    let Some(name) = public::renamed(r, ext_name) else {
        return pen;
    };
    draw_named(
        out,
        pen,
        r,
        dll,
        name.as_slice(),
        machine,
        mingw,
        from,
        to,
        later,
        targets,
    )
}

// The records of a list, at once or later.
fn draw_pass(
    out: &mut [u8],
    pen: u64,
    b: &[u8],
    dll: &[u8],
    machine: u16,
    mingw: bool,
    from: u32,
    to: u32,
    later: bool,
    targets: &[u16],
) -> u64
    requires room { Room (entry_of pen) (at_of pen) (pass_members later machine mingw dll.now (exports_from b.now from (to - from)) b.now from (to - from)) }
    requires b_value { check_list b.now ≡ Ok tt }
    requires from_le_to { (from ≤ to) × (to ≤ both_counts b.now) }
    requires dll_len_bound { length dll.now ≤ 255 }
    requires resolved { (machine ≡ arm64ec → ⊥) → Resolved machine mingw b.now from (to - from) targets.now }
    ensures { Drew out.old (entry_of pen) (at_of pen) (pass_members later machine mingw dll.now (exports_from b.now from (to - from)) b.now from (to - from)) out.new (entry_of result) (at_of result) }
{
    let mut next = pen;
    for k in from..to {
        let r = Record { list: b, index: k };
        next = draw_record(out, next, r, dll, machine, mingw, from, to, later, targets);
    }
    next
}

// The members of the list of the records from one up to another.
pub fn draw_list(
    out: &mut [u8],
    pen: u64,
    b: &[u8],
    dll: &[u8],
    machine: u16,
    mingw: bool,
    from: u32,
    to: u32,
    targets: &[u16],
) -> u64
    requires room { Room (entry_of pen) (at_of pen) (members_of machine mingw dll.now (exports_from b.now from (to - from))) }
    requires b_value { check_list b.now ≡ Ok tt }
    requires from_le_to { (from ≤ to) × (to ≤ both_counts b.now) }
    requires dll_len_bound { length dll.now ≤ 255 }
    requires resolved { (machine ≡ arm64ec → ⊥) → Resolved machine mingw b.now from (to - from) targets.now }
    ensures { Drew out.old (entry_of pen) (at_of pen) (members_of machine mingw dll.now (exports_from b.now from (to - from))) out.new (entry_of result) (at_of result) }
{
    let next = draw_pass(out, pen, b, dll, machine, mingw, from, to, false, targets);
    draw_pass(out, next, b, dll, machine, mingw, from, to, true, targets)
}
