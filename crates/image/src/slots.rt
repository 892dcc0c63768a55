// The rules about directories and slots.
ghost use Rattle.std.specs.Prelude.{◌≡◌};
ghost use Rattle.ring.specs.Logs.{claimed as claimed_of};
ghost use Rattle.ring.specs.Turns.{Ready};
ghost use Rattle.image.specs.Checks.{Checked};

use crate::flaw::Broken;
use chip::Chip;
use ring::layout::{Layout, Log};
use rules::{beyond_slot, illegal_slot, misplaced_slot, scribbled_block, unclean_slot};

// Checks rules 2 and 3, which are about each directory and each slot by itself.
pub fn check_bytes<C: Chip>(chip: &mut C, layout: Layout) -> Result<(), Broken>
    requires { Ready (C.flash chip.old) layout.sizes layout.cleared }
    ensures checked { Checked (C.flash chip.old) layout.sizes layout.cleared 2 3 result }
    ensures keeps { C.flash chip.new ≡ C.flash chip.old }
{
    if let Some(block) = scribbled_block(chip, layout) {
        return Err(Broken {
            rule: 2,
            place: block.0,
        });
    }
    if let Some(slot) = illegal_slot(chip, layout) {
        return Err(Broken {
            rule: 3,
            place: slot.0,
        });
    }
    Ok(())
}

// Checks rules 4 to 6, which are about slots in the order of the log.
pub fn check_slots<C: Chip>(chip: &mut C, log: Log) -> Result<(), Broken>
    requires ready { Ready (C.flash chip.old) log.layout.sizes log.layout.cleared }
    requires claimed { log.claimed ≡ claimed_of (C.flash chip.old) log.layout.sizes log.layout.cleared }
    ensures checked { Checked (C.flash chip.old) log.layout.sizes log.layout.cleared 4 6 result }
    ensures keeps { C.flash chip.new ≡ C.flash chip.old }
{
    if let Some(slot) = unclean_slot(chip, log) {
        return Err(Broken {
            rule: 4,
            place: slot.0,
        });
    }
    if let Some(slot) = misplaced_slot(chip, log) {
        return Err(Broken {
            rule: 5,
            place: slot.0,
        });
    }
    if let Some(slot) = beyond_slot(chip, log.layout) {
        return Err(Broken {
            rule: 6,
            place: slot.0,
        });
    }
    Ok(())
}
