// The blocks of the log, read at their turns.
ghost use Rattle.std.specs.Prelude.{◌≡◌, ◌<◌};
ghost use Rattle.ring.specs.Turns.{Ready, turns_of};
ghost use Rattle.rules.specs.Breaches.{Shows};

use chip::Chip;
use ring::directory::{Descriptor, read_descriptors};
use ring::layout::Layout;

// The descriptors of the block at a turn of the log.
pub fn read_turn<C: Chip>(chip: &mut C, layout: Layout, turn: u16) -> [Descriptor; 7]
    requires { (Ready (C.flash chip.old) layout.sizes layout.cleared) × (turn < turns_of layout.sizes layout.cleared) }
    ensures shows { Shows (C.flash chip.old) layout.sizes layout.cleared turn result }
    ensures keeps { C.flash chip.new ≡ C.flash chip.old }
{
    let block = layout.block_at_turn(turn);
    read_descriptors(chip, layout.chip_block(block))
}
