// The six machines, each with its relocation and its width, in one table that is searched by number.
ghost use Rattle.std.specs.Prelude.{◌≡◌};
ghost use Rattle.format.specs.Machines.{hybrid, first_machine, native_machine};
ghost use Rattle.coff.specs.Rows.{IsRow};

use crate::constants::{
    IMAGE_FILE_MACHINE_AMD64, IMAGE_FILE_MACHINE_ARM64, IMAGE_FILE_MACHINE_ARM64EC,
    IMAGE_FILE_MACHINE_ARM64X, IMAGE_FILE_MACHINE_ARMNT, IMAGE_FILE_MACHINE_I386,
    IMAGE_REL_AMD64_ADDR32NB, IMAGE_REL_ARM_ADDR32NB, IMAGE_REL_ARM64_ADDR32NB,
    IMAGE_REL_I386_DIR32NB,
};

// A machine, with the type of its relocations to an address without the image's base.
#[derive(Clone, Copy, Debug, PartialEq, Eq)]
pub struct Machine {
    pub number: u16,
    pub relocation: u16,
    // 64-bit.
    pub wide: bool,
    pub ghost row: { IsRow number relocation wide },
}

// The scope paper binds this form: one constant table, searched by number.
const MACHINES: [Machine; 6] = [
    Machine {
        number: IMAGE_FILE_MACHINE_I386,
        relocation: IMAGE_REL_I386_DIR32NB,
        wide: false,
    },
    Machine {
        number: IMAGE_FILE_MACHINE_ARMNT,
        relocation: IMAGE_REL_ARM_ADDR32NB,
        wide: false,
    },
    Machine {
        number: IMAGE_FILE_MACHINE_AMD64,
        relocation: IMAGE_REL_AMD64_ADDR32NB,
        wide: true,
    },
    Machine {
        number: IMAGE_FILE_MACHINE_ARM64,
        relocation: IMAGE_REL_ARM64_ADDR32NB,
        wide: true,
    },
    Machine {
        number: IMAGE_FILE_MACHINE_ARM64EC,
        relocation: IMAGE_REL_ARM64_ADDR32NB,
        wide: true,
    },
    Machine {
        number: IMAGE_FILE_MACHINE_ARM64X,
        relocation: IMAGE_REL_ARM64_ADDR32NB,
        wide: true,
    },
];

// Where two of them stand in the table.
const ARM64: usize = 3;

const ARM64EC: usize = 4;

// Whether a machine is ARM64EC or ARM64X, which have one machine for each list.
#[tactic(auto, unfolding(format::specs::Machines::hybrid))]
pub fn is_arm64ec(machine: u16) -> bool
    ensures { result ≡ hybrid machine }
{
    machine == IMAGE_FILE_MACHINE_ARM64EC || machine == IMAGE_FILE_MACHINE_ARM64X
}

impl Machine {
    ghost use Rattle.coff.specs.Machines.{MachineOf};

    // The machine of a number. The number is not cut to 16 bits.
    #[tactic(auto, unfolding(format::specs::Machines::opened))]
    pub fn find(number: u32) -> Option<Machine>
        ensures { MachineOf number result }
    {
        for m in MACHINES {
            if u32::from(m.number) == number {
                return Some(m);
            }
        }
        None
    }

    // The machine of the first list.
    #[tactic(auto, unfolding(format::specs::Machines::opened))]
    pub fn first(self) -> Machine
        ensures { result.number ≡ first_machine self.number }
    {
        if is_arm64ec(self.number) {
            return MACHINES[ARM64EC];
        }
        self
    }

    // The machine of the fixed members and of the native list.
    #[tactic(auto, unfolding(format::specs::Machines::opened))]
    pub fn native(self) -> Machine
        ensures { result.number ≡ native_machine self.number }
    {
        if is_arm64ec(self.number) {
            return MACHINES[ARM64];
        }
        self
    }
}
