// The oldest block, given back to the ring.
ghost use Rattle.std.specs.Prelude.{◌≡◌, ◌+◌, ◌*◌, ◌%◌, ◌<◌, ◌≤◌};
ghost use Rattle.chip.specs.Plans.{Performs};
ghost use Rattle.chip.specs.Steps.{Answers, erase as erasing};
ghost use Rattle.ring.specs.Places.{chip_block, oldest};
ghost use Rattle.ring.specs.Turns.{Ready};
ghost use Rattle.laid.specs.Writing.{freeing, rebooking};

use crate::step::clear_bit;
use chip::{Chip, Fault};
use ring::RingBlock;
use ring::layout::Layout;

// Erases the oldest block.
fn erase_oldest<C: Chip>(chip: &mut C, layout: Layout) -> Result<(), Fault>
    ensures { Answers (erasing (chip_block layout.sizes (oldest layout.sizes layout.cleared))) (C.flash chip.old) result (C.flash chip.new) }
{
    let oldest = RingBlock((layout.booked() % u32::from(layout.sizes.ring)) as u16);
    chip.erase(layout.chip_block(oldest))
}

// Ends an erase that has begun: the block is erased again, and the next bit of the tally books it.
pub fn rebook<C: Chip>(chip: &mut C, layout: Layout) -> Result<(), Fault>
    requires { (Ready (C.flash chip.old) layout.sizes layout.cleared) × ((layout.cleared % 2 ≡ 1) × (layout.cleared < 32768 * layout.sizes.tally)) }
    ensures { Performs (rebooking layout.sizes layout.cleared) (C.flash chip.old) result (C.flash chip.new) }
{
    erase_oldest(chip, layout)?;
    clear_bit(chip, layout.cleared)
}

// Gives the oldest block back: one bit of the tally says that its erase begins, and the next that it is done.
pub fn free_oldest<C: Chip>(chip: &mut C, layout: Layout) -> Result<(), Fault>
    requires { (Ready (C.flash chip.old) layout.sizes layout.cleared) × ((layout.cleared % 2 ≡ 0) × (layout.cleared + 2 ≤ 32768 * layout.sizes.tally)) }
    ensures { Performs (freeing layout.sizes layout.cleared) (C.flash chip.old) result (C.flash chip.new) }
{
    clear_bit(chip, layout.cleared)?;
    let begun = Layout {
        sizes: layout.sizes,
        cleared: layout.cleared + 1,
    };
    rebook(chip, begun)
}
