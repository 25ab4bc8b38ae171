// What becomes of an export: a port of the walk of write_import_library over one record. A plan holds no name: the final name and the
// export string are said by where they come from, so that nothing is copied where a name is a part of the list.
#![tactic(auto)]

pub mod public; // public.rt: the public name of an export that is renamed
pub mod check; // check.rt: refusals 11 to 14
pub mod keys; // keys.rt: whether an import answers to a name

ghost use Rattle.std.specs.Prelude.{◌≡◌, true, false, ℕ, length};
ghost use Rattle.std.proofs.Math.Option.{some};
ghost use Rattle.wire.specs.Bytes.{Bytes, same};
ghost use Rattle.format.specs.Exports.{Export, export_at};
ghost use Rattle.format.specs.Names.{apply, plain_type};
ghost use Rattle.format.specs.Plan.{typed, base, free, choose_import, choose, mangled, plan_choice, plan_public};
ghost use Rattle.coff.specs.Import.{type_number};
ghost use Rattle.plans.specs.Shape.{source_of, other_import, choice_of, short_of, short_or_refused, planned};

use coff::constants::{IMAGE_FILE_MACHINE_ARM64EC, IMAGE_FILE_MACHINE_I386};
use coff::import::{ImportNameType, ImportType};
use format::Reason;
use lists::record::Record;
use names::mangler::Mangling;
use names::{mangler, types};

// Where an export string comes from.
#[derive(Clone, Copy)]
pub enum Source {
    // There is none.
    Nothing,
    ExportAs,
    ImportName,
    // The public name.
    Public,
    // The public name, demangled.
    Demangled,
}

// A name type with its export string.
#[derive(Clone, Copy)]
pub struct Typed {
    pub name_type: ImportNameType,
    pub export: Source,
}

// A short import that is written at once: its final name is the public name with `#` before it or without.
#[derive(Clone, Copy)]
pub struct Short {
    pub hashed: bool,
    pub name_type: ImportNameType,
    pub export: Source,
}

// Whether a name type applied to a name gives another.
pub fn gives(t: ImportNameType, name: &[u8], wanted: &[u8]) -> bool
    ensures { result ≡ same (apply (type_number t) name.now) wanted.now }
{
    let s = types::apply_name_type(t, name);
    let at = s.start;
    let n = s.length;
    wire::same(wire::part(name, at, n), wanted)
}

// The choice of an export with an import_name that no type of I386 gives.
fn choose_other(machine: u16, public: &[u8], wanted: &[u8]) -> Option<Typed>
    ensures { (e : Export) → e.import_name ≡ some wanted.now → choice_of e public.now result ≡ other_import machine public.now wanted.now }
{
    if machine == IMAGE_FILE_MACHINE_ARM64EC {
        return Some(Typed {
            name_type: ImportNameType::NameExportas,
            export: Source::ImportName,
        });
    }
    if wire::same(public, wanted) {
        return Some(Typed {
            name_type: ImportNameType::Name,
            export: Source::Nothing,
        });
    }
    None
}

// The choice of an export with an import_name: by the public name, and without an alias if it can be.
fn choose_import(machine: u16, public: &[u8], wanted: &[u8]) -> Option<Typed>
    ensures { (e : Export) → e.import_name ≡ some wanted.now → choice_of e public.now result ≡ choose_import machine public.now wanted.now }
{
    if machine != IMAGE_FILE_MACHINE_I386 {
        return choose_other(machine, public, wanted);
    }
    if gives(ImportNameType::NameUndecorate, public, wanted) {
        return Some(Typed {
            name_type: ImportNameType::NameUndecorate,
            export: Source::Nothing,
        });
    }
    if gives(ImportNameType::NameNoprefix, public, wanted) {
        return Some(Typed {
            name_type: ImportNameType::NameNoprefix,
            export: Source::Nothing,
        });
    }
    choose_other(machine, public, wanted)
}

// The type of an export that names no other. Where it has no symbol_name its base is its name, and nothing is compared.
fn plain_type(r: Record, machine: u16, mingw: bool) -> ImportNameType
    ensures { type_number result ≡ plain_type machine mingw (base (export_at r.entry.list.now r.entry.index)) (export_at r.entry.list.now r.entry.index).name }
{
    let name = r.name();
    let Some(symbol_name) = r.symbol_name() else {
        return types::get_own_type(name, machine, mingw);
    };
    types::get_name_type(symbol_name, name, machine, mingw)
}

// The choice of an export under its public name.
fn choose(r: Record, machine: u16, mingw: bool, public: &[u8]) -> Option<Typed>
    ensures { choice_of (export_at r.entry.list.now r.entry.index) public.now result ≡ choose machine mingw (export_at r.entry.list.now r.entry.index) public.now }
{
    if r.is_noname() {
        return Some(Typed {
            name_type: ImportNameType::Ordinal,
            export: Source::Nothing,
        });
    }
    if r.export_as().is_some() {
        return Some(Typed {
            name_type: ImportNameType::NameExportas,
            export: Source::ExportAs,
        });
    }
    if let Some(import_name) = r.import_name() {
        return choose_import(machine, public, import_name);
    }
    Some(Typed {
        name_type: plain_type(r, machine, mingw),
        export: Source::Nothing,
    })
}

// Whether neither noname nor an export string is set.
fn is_free(t: ImportNameType) -> bool
    ensures { result ≡ free (type_number t) }
{
    match t {
        ImportNameType::Ordinal => false,
        ImportNameType::NameExportas => false,
        ImportNameType::Name | ImportNameType::NameNoprefix | ImportNameType::NameUndecorate =>
            true,
    }
}

// An ARM64EC code import that is free exports the unprefixed name.
fn mangle_free(public: &[u8]) -> Result<Short, Reason>
    ensures { (e : Export) (t : ℕ) (x : Bytes) → short_or_refused e public.now result ≡ mangled true public.now t x }
{
    let Some(mangling) = mangler::get_arm64ec_mangled_function_name(public) else {
        return Err(Reason::NotMangled);
    };
    match mangling {
        Mangling::Prefix => Ok(Short {
            hashed: true,
            name_type: ImportNameType::NameExportas,
            export: Source::Public,
        }),
        Mangling::Mangled => {
            let Some(_) = mangler::get_arm64ec_demangled_function_name(public) else {
                return Err(Reason::NotDemangled);
            };
            Ok(Short {
                hashed: false,
                name_type: ImportNameType::NameExportas,
                export: Source::Demangled,
            })
        }
    }
}

// One that is not keeps its type and its export string.
fn mangle_set(public: &[u8], choice: Typed) -> Short
    ensures { (e : Export) → short_of e public.now result ≡ mangled false public.now (type_number choice.name_type) (source_of e public.now choice.«export») }
{
    let hashed = match mangler::get_arm64ec_mangled_function_name(public) {
        Some(Mangling::Prefix) => true,
        Some(Mangling::Mangled) => false,
        None => false,
    };
    Short {
        hashed,
        name_type: choice.name_type,
        export: choice.export,
    }
}

// The plan of a typed choice.
fn short_typed(r: Record, machine: u16, public: &[u8], choice: Typed) -> Result<Short, Reason>
    ensures { short_or_refused (export_at r.entry.list.now r.entry.index) public.now result ≡ plan_choice machine (export_at r.entry.list.now r.entry.index) public.now (typed (type_number choice.name_type) (source_of (export_at r.entry.list.now r.entry.index) public.now choice.«export»)) }
{
    if machine == IMAGE_FILE_MACHINE_ARM64EC {
        if let ImportType::Code = r.import_type() {
            if is_free(choice.name_type) {
                return mangle_free(public);
            }
            return Ok(mangle_set(public, choice));
        }
    }
    Ok(Short {
        hashed: false,
        name_type: choice.name_type,
        export: choice.export,
    })
}

// The plan of an export under its public name: a short import that is written at once, or none where the export is deferred; or why it is
// refused.
pub fn plan(r: Record, machine: u16, mingw: bool, public: &[u8]) -> Result<Option<Short>, Reason>
    ensures { planned (export_at r.entry.list.now r.entry.index) public.now result ≡ plan_public machine mingw (export_at r.entry.list.now r.entry.index) (some public.now) }
{
    if public.len() == 0 {
        return Err(Reason::NoPublicName);
    }
    let Some(choice) = choose(r, machine, mingw, public) else {
        return Ok(None);
    };
    let short = short_typed(r, machine, public, choice)?;
    Ok(Some(short))
}
