// Keys: whether an import answers to a wanted name. Aliases stand in no ARM64EC list, so the final name is the public one.
ghost use Rattle.std.specs.Prelude.{◌≡◌};
ghost use Rattle.std.proofs.Math.Option.{some};
ghost use Rattle.format.specs.Machines.{arm64ec};
ghost use Rattle.format.specs.Exports.{export_at};
ghost use Rattle.format.specs.Plan.{plan_public};
ghost use Rattle.format.specs.Library.{answers_to};
ghost use Rattle.plans.specs.Keys.{key_at};

use crate::{gives, plan, public};
use lists::record::Record;

// Whether the import of a record under its public name has the wanted key.
fn key_named(r: Record, machine: u16, mingw: bool, public: &[u8], wanted: &[u8]) -> bool
    requires { machine ≡ arm64ec → ⊥ }
    ensures { result ≡ answers_to wanted.now (plan_public machine mingw (export_at r.entry.list.now r.entry.index) (some public.now)) }
{
    match plan(r, machine, mingw, public) {
        Ok(Some(short)) => gives(short.name_type, public, wanted),
        Ok(None) => false,
        Err(_) => false,
    }
}

// Whether the import of a record has the wanted key; that of a private one has none.
pub fn key_is(r: Record, machine: u16, mingw: bool, wanted: &[u8]) -> bool
    requires { machine ≡ arm64ec → ⊥ }
    ensures { result ≡ key_at machine mingw r.entry.list.now wanted.now r.entry.index }
{
    if r.is_private() {
        return false;
    }
    let Some(ext_name) = r.ext_name() else {
        return key_named(r, machine, mingw, r.base(), wanted);
    };
    let Some(name) = public::renamed(r, ext_name) else {
        return false;
    };
    key_named(r, machine, mingw, name.as_slice(), wanted)
}
