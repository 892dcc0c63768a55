// Single steps: programs of parts of a slot, and of a bit of the tally.
ghost use Rattle.std.specs.Prelude.{◌≡◌, ◌<◌, length};
ghost use Rattle.chip.specs.Steps.{Answers};
ghost use Rattle.laid.specs.Writing.{mark as marking, number as numbering, fill as filling, clearing};

use chip::{BLOCK, Block, Chip, Fault, PAGE, Span};
use ring::layout::Layout;
use ring::{Position, Sector};

// Clears the bits of a slot's flags that the mask lacks.
pub fn mark<C: Chip>(chip: &mut C, layout: Layout, at: Position, mask: u8) -> Result<(), Fault>
    ensures { Answers (marking layout.sizes layout.cleared at.0 mask) (C.flash chip.old) result (C.flash chip.new) }
{
    let flags = Span {
        block: at.block(layout),
        at: at.descriptor(),
        len: 1,
    };
    chip.program(flags, &[mask])
}

// Writes the sector number of a slot.
pub fn number<C: Chip>(
    chip: &mut C,
    layout: Layout,
    at: Position,
    sector: Sector,
) -> Result<(), Fault>
    ensures { Answers (numbering layout.sizes layout.cleared at.0 sector.0) (C.flash chip.old) result (C.flash chip.new) }
{
    let number = Span {
        block: at.block(layout),
        at: at.descriptor() + 1,
        len: 2,
    };
    chip.program(number, &sector.0.to_le_bytes())
}

// Writes the page of a slot.
pub fn fill<C: Chip>(
    chip: &mut C,
    layout: Layout,
    at: Position,
    page: &[u8; PAGE],
) -> Result<(), Fault>
    ensures { Answers (filling layout.sizes layout.cleared at.0 page.now) (C.flash chip.old) result (C.flash chip.new) }
{
    let whole = Span {
        block: at.block(layout),
        at: at.page(),
        len: PAGE,
    };
    chip.program(whole, page)
}

// The bits of a byte, and the bytes of a block, as numbers of the tally.
const BITS: u32 = 8;

const BYTES: u32 = BLOCK as u32;

// The top bit of a byte, which is the first of its eight.
const FIRST_BIT: u8 = 0x80;

// Clears a bit of the tally.
pub fn clear_bit<C: Chip>(chip: &mut C, bit: u32) -> Result<(), Fault>
    requires { bit < 262144 }
    ensures { Answers (clearing bit) (C.flash chip.old) result (C.flash chip.new) }
{
    let byte = bit / BITS;
    let span = Span {
        block: Block(1 + (byte / BYTES) as u16),
        at: (byte % BYTES) as usize,
        len: 1,
    };
    chip.program(span, &[!(FIRST_BIT >> (bit % BITS))])
}
