// Where a position of the log lies.
ghost use Rattle.std.specs.Prelude.{◌≡◌, ◌+◌, ◌*◌, ◌/◌, ◌%◌, ◌<◌};
ghost use Rattle.ring.specs.Places.{chip_block, block_at, slot_at, flags_at};
ghost use Rattle.ring.specs.Turns.{Ready};

use crate::directory::{BLOCK_SLOTS, DESCRIPTOR};
use crate::layout::Layout;
use crate::{Position, RingBlock, Slot};
use chip::{Block, Chip, PAGE, fetch};

impl Position {
    // The ring's block in which it lies. Not by `block_at_turn`, which asks for a turn of the log: a position may be any.
    fn ring_block(self, layout: Layout) -> RingBlock
        ensures { result.0 ≡ block_at layout.sizes layout.cleared self.0 }
    {
        RingBlock((layout.first_block() + self.turn()) % layout.sizes.ring)
    }

    // The chip's block in which it lies.
    pub fn block(self, layout: Layout) -> Block
        ensures { result.0 ≡ chip_block layout.sizes (block_at layout.sizes layout.cleared self.0) }
    {
        layout.chip_block(self.ring_block(layout))
    }

    // The number of its slot.
    pub fn slot(self, layout: Layout) -> Slot
        ensures { result.0 ≡ slot_at layout.sizes layout.cleared self.0 }
    {
        Slot(BLOCK_SLOTS * self.ring_block(layout).0 + self.0 % BLOCK_SLOTS)
    }

    // The turn at which its block comes.
    pub fn turn(self) -> u16
        ensures { result ≡ self.0 / 7 }
    {
        self.0 / BLOCK_SLOTS
    }

    // Which slot of its block it is.
    pub fn index(self) -> usize
        ensures below { result < 7 }
        ensures place { result ≡ self.0 % 7 }
    {
        usize::from(self.0 % BLOCK_SLOTS)
    }

    // The byte of the block at which its descriptor starts.
    pub fn descriptor(self) -> usize
        ensures { result ≡ 4 * (self.0 % 7) }
    {
        DESCRIPTOR * self.index()
    }

    // The byte of the block at which its page starts.
    pub fn page(self) -> usize
        ensures { result ≡ 512 * (self.0 % 7 + 1) }
    {
        PAGE * (self.index() + 1)
    }
}

// The flags of the slot at a position.
pub fn read_flags<C: Chip>(chip: &mut C, layout: Layout, at: Position) -> u8
    requires { Ready (C.flash chip.old) layout.sizes layout.cleared }
    ensures flags { result ≡ flags_at (C.flash chip.old) layout.sizes layout.cleared at.0 }
    ensures keeps { C.flash chip.new ≡ C.flash chip.old }
{
    let [flags] = fetch::<C, 1>(chip, at.block(layout), at.descriptor());
    flags
}
