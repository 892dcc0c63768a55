// Where the blocks of the log lie in the ring, and the blocks of the ring on the chip.
ghost use Rattle.std.specs.Prelude.{◌≡◌, ◌+◌, ◌-◌, ◌*◌, ◌%◌, ◌<◌, ◌≤◌, MatchOption};
ghost use Rattle.ring.specs.Places.{chip_block, first_block, positions};
ghost use Rattle.ring.specs.Tally.{booked, begun};
ghost use Rattle.ring.specs.Turns.{Shaped, turns_of, Turned};

use crate::directory::BLOCK_SLOTS;
use crate::{Position, RingBlock};
use chip::Block;
use label::Sizes;

// The bits of a block of the tally.
pub const TALLY_BITS: u32 = 32768;

// The sizes of a volume, and how many bits of its tally are cleared; both keep their limits.
#[derive(Clone, Copy)]
pub struct Layout {
    pub sizes: Sizes,
    pub cleared: u32,
    ghost shaped: { Shaped sizes cleared },
}

// Where a log stands: the layout of its ring, and how many slots are claimed. That a chip is ready for a layout, and what a
// log says of a chip, stands in the contracts: it is true of both together. A struct over the lent chip could say it, but
// then each call would have to promise that layout and log stay as they are, a clause for a clause.
#[derive(Clone, Copy)]
pub struct Log {
    pub layout: Layout,
    pub claimed: u16,
}

// Whether so many cleared bits, be they a tally's or not, say that an erase has begun.
pub fn has_begun(cleared: u32) -> bool
    ensures { result ≡ begun cleared }
{
    cleared % 2 == 1
}

// How many turns after block `from` block `to` comes, in a ring of `ring` blocks.
fn turns_between(from: u16, to: u16, ring: u16) -> u16
    requires { (from < ring) × ((to < ring) × (ring ≤ 4096)) }
    ensures { (result < ring) × ((from + result) % ring ≡ to) }
{
    if to < from {
        to + ring - from
    } else {
        to - from
    }
}

impl Log {
    // How many slots are not claimed.
    pub fn unclaimed(&self) -> u16
        requires { self.now.claimed ≤ positions self.now.layout.sizes self.now.layout.cleared }
        ensures { result ≡ positions self.now.layout.sizes self.now.layout.cleared - self.now.claimed }
    {
        BLOCK_SLOTS * self.layout.turns() - self.claimed
    }

    // The last claimed slot, if any is claimed.
    pub fn last(&self) -> Option<Position>
        ensures { MatchOption result (self.now.claimed ≡ 0) (λ p. p.0 + 1 ≡ self.now.claimed) }
    {
        Some(Position(self.claimed.checked_sub(1)?))
    }
}

impl Layout {
    // The ring block in which the log starts.
    pub fn first_block(&self) -> u16
        ensures { result ≡ first_block self.now.sizes self.now.cleared }
    {
        ((self.booked() + self.cleared % 2) % u32::from(self.sizes.ring)) as u16
    }

    // How many erases are booked.
    pub fn booked(&self) -> u32
        ensures { result ≡ booked self.now.cleared }
    {
        self.cleared / 2
    }

    // Whether an erase has begun that is not booked yet.
    pub fn begun(&self) -> bool
        ensures { result ≡ begun self.now.cleared }
    {
        has_begun(self.cleared)
    }

    // How many blocks the log has: all of the ring, but one that is being erased.
    pub fn turns(&self) -> u16
        ensures { result ≡ turns_of self.now.sizes self.now.cleared }
    {
        self.sizes.ring - (self.cleared % 2) as u16
    }

    // The ring block that comes at a turn of the log.
    pub fn block_at_turn(&self, turn: u16) -> RingBlock
        requires { turn < self.now.sizes.ring }
        ensures { result.0 ≡ (first_block self.now.sizes self.now.cleared + turn) % self.now.sizes.ring }
    {
        RingBlock((self.first_block() + turn) % self.sizes.ring)
    }

    // The turn at which a ring block comes, unless it is being erased.
    pub fn turn_of(&self, block: RingBlock) -> Option<u16>
        requires { block.0 < self.now.sizes.ring }
        ensures { Turned self.now.sizes self.now.cleared block.0 result }
    {
        let turn = turns_between(self.first_block(), block.0, self.sizes.ring);
        if turn < self.turns() {
            Some(turn)
        } else {
            None
        }
    }

    // The chip's block that a ring block is.
    pub fn chip_block(&self, block: RingBlock) -> Block
        requires { block.0 < self.now.sizes.ring }
        ensures { result.0 ≡ chip_block self.now.sizes block.0 }
    {
        Block(1 + self.sizes.tally + block.0)
    }
}
