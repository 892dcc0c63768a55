// Slots as they are written: puts, the ends of batches, and copies.
ghost use Rattle.chip.specs.Plans.{Performs};
ghost use Rattle.ring.specs.Turns.{Ready};
ghost use Rattle.laid.specs.Writing.{putting, closing, dropping, copying, finishing};

use crate::step::{fill, mark, number};
use chip::{Chip, Fault, PAGE};
use ring::layout::Layout;
use ring::{Position, Sector};

// The masks of the flags: each clears one bit. No states: a mask is no flags that a slot has.
const CLAIMED_PUT: u8 = 0x7F;

const CLAIMED_COPY: u8 = 0xBF;

const FILLED: u8 = 0xDF;

const CLOSED: u8 = 0xEF;

const DROPPED: u8 = 0xF7;

// Puts a page for a sector at a position: it is claimed, numbered, written and filled.
pub fn put_slot<C: Chip>(
    chip: &mut C,
    layout: Layout,
    at: Position,
    sector: Sector,
    page: &[u8; PAGE],
) -> Result<(), Fault>
    requires { Ready (C.flash chip.old) layout.sizes layout.cleared }
    ensures { Performs (putting layout.sizes layout.cleared at.0 sector.0 page.now) (C.flash chip.old) result (C.flash chip.new) }
{
    mark(chip, layout, at, CLAIMED_PUT)?;
    number(chip, layout, at, sector)?;
    fill(chip, layout, at, page)?;
    mark(chip, layout, at, FILLED)
}

// Closes the batch that ends at a position.
pub fn close_slot<C: Chip>(chip: &mut C, layout: Layout, at: Position) -> Result<(), Fault>
    requires { Ready (C.flash chip.old) layout.sizes layout.cleared }
    ensures { Performs (closing layout.sizes layout.cleared at.0) (C.flash chip.old) result (C.flash chip.new) }
{
    mark(chip, layout, at, CLOSED)
}

// Drops the batch that ends at a position.
pub fn drop_slot<C: Chip>(chip: &mut C, layout: Layout, at: Position) -> Result<(), Fault>
    requires { Ready (C.flash chip.old) layout.sizes layout.cleared }
    ensures { Performs (dropping layout.sizes layout.cleared at.0) (C.flash chip.old) result (C.flash chip.new) }
{
    mark(chip, layout, at, DROPPED)
}

// Finishes a copy that is claimed: it is numbered, written, filled and closed.
pub fn finish_copy<C: Chip>(
    chip: &mut C,
    layout: Layout,
    at: Position,
    sector: Sector,
    page: &[u8; PAGE],
) -> Result<(), Fault>
    requires { Ready (C.flash chip.old) layout.sizes layout.cleared }
    ensures { Performs (finishing layout.sizes layout.cleared at.0 sector.0 page.now) (C.flash chip.old) result (C.flash chip.new) }
{
    number(chip, layout, at, sector)?;
    fill(chip, layout, at, page)?;
    mark(chip, layout, at, FILLED)?;
    mark(chip, layout, at, CLOSED)
}

// Copies a page for a sector to a position: it is claimed, then finished.
pub fn copy_slot<C: Chip>(
    chip: &mut C,
    layout: Layout,
    at: Position,
    sector: Sector,
    page: &[u8; PAGE],
) -> Result<(), Fault>
    requires { Ready (C.flash chip.old) layout.sizes layout.cleared }
    ensures { Performs (copying layout.sizes layout.cleared at.0 sector.0 page.now) (C.flash chip.old) result (C.flash chip.new) }
{
    mark(chip, layout, at, CLAIMED_COPY)?;
    finish_copy(chip, layout, at, sector, page)
}
