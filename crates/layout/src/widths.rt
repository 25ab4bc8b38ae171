// What a machine's width decides.
ghost use Rattle.std.specs.Prelude.{◌≤◌, ◌≡◌};
ghost use Rattle.format.specs.Layouts.{IMAGE-SCN-ALIGN-8BYTES, characteristics, slot_size, slot_alignment};

use coff::constants::{IMAGE_FILE_32BIT_MACHINE, IMAGE_SCN_ALIGN_4BYTES, IMAGE_SCN_ALIGN_8BYTES};
use coff::machines::Machine;

// The bytes of an address, on a 64-bit machine and on another.
const SLOT_64: u32 = 8;

const SLOT_32: u32 = 4;

// The characteristics of a member of a machine.
#[tactic(auto, unfolding(format::specs::Layouts::characteristics))]
pub fn characteristics(machine: Machine) -> u16
    ensures { result ≡ characteristics machine.number }
{
    if machine.wide {
        return 0;
    }
    IMAGE_FILE_32BIT_MACHINE
}

// How many bytes a slot of the import tables has.
#[tactic(auto, unfolding(format::specs::Layouts::slot_size))]
pub fn slot_size(machine: Machine) -> u32
    ensures { (result ≡ slot_size machine.number) × (result ≤ 8) }
{
    if machine.wide {
        return SLOT_64;
    }
    SLOT_32
}

// How the sections of the slots are aligned.
#[tactic(auto, unfolding(format::specs::Layouts::slot_alignment))]
pub fn slot_alignment(machine: Machine) -> u32
    ensures { (result ≡ slot_alignment machine.number) × (result ≤ IMAGE-SCN-ALIGN-8BYTES) }
{
    if machine.wide {
        return IMAGE_SCN_ALIGN_8BYTES;
    }
    IMAGE_SCN_ALIGN_4BYTES
}
