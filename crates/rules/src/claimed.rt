// How many slots of the log are claimed.
ghost use Rattle.std.specs.Prelude.{◌≡◌, length};
ghost use Rattle.ring.specs.Logs.{claimed};
ghost use Rattle.ring.specs.Turns.{Ready};
ghost use Rattle.rules.specs.Firsts.{FirstUnclaimed};

use crate::turns::read_turn;
use chip::{Chip, ERASED};
use ring::directory::{BLOCK_SLOTS, Descriptor};
use ring::layout::Layout;

// The first of a block's slots that is not claimed.
fn first_unclaimed(slots: &[Descriptor]) -> Option<usize>
    requires { length slots.now ≡ 7 }
    ensures { FirstUnclaimed slots.now result }
{
    slots.iter().position(|slot| slot.flags == ERASED)
}

// How many slots are claimed: those before the first, in the order of the log, that is not.
pub fn claimed_slots<C: Chip>(chip: &mut C, layout: Layout) -> u16
    requires { Ready (C.flash chip.old) layout.sizes layout.cleared }
    ensures count { result ≡ claimed (C.flash chip.old) layout.sizes layout.cleared }
    ensures keeps { C.flash chip.new ≡ C.flash chip.old }
{
    for turn in 0..layout.turns() {
        let slots = read_turn(chip, layout, turn);
        if let Some(j) = first_unclaimed(&slots) {
            return BLOCK_SLOTS * turn + j as u16;
        }
    }
    BLOCK_SLOTS * layout.turns()
}
