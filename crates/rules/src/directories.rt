// The rule that a directory has only its descriptors in it, and the first ring block that breaks it.
ghost use Rattle.std.specs.Prelude.{◌≡◌, ◌<◌, true, length, slice_index};
ghost use Rattle.chip.specs.Ranges.{Tells};
ghost use Rattle.ring.specs.Places.{block_at};
ghost use Rattle.ring.specs.Rules.{At, Scribbled};
ghost use Rattle.ring.specs.Turns.{Ready};
ghost use Rattle.rules.specs.Bytes.{Spare, Strays};
ghost use Rattle.rules.specs.Firsts.{FirstBlock};

use chip::{Block, Chip, ERASED, PAGE, fetch_into};
use ring::RingBlock;
use ring::directory::{DESCRIPTOR, DESCRIPTORS};
use ring::layout::Layout;

// Whether neither flags nor a sector number lie at an offset of a directory.
fn is_spare(offset: usize) -> bool
    ensures { Tells result (Spare offset) }
{
    offset >= DESCRIPTORS || offset % DESCRIPTOR == 3
}

// Whether a spare byte of a directory is not erased.
fn has_stray(page: &[u8; PAGE]) -> bool
    ensures { Tells result (Strays (λ o. slice_index page.now o)) }
{
    page.iter()
        .enumerate()
        .any(|(o, byte)| *byte != ERASED && is_spare(o))
}

// The same of the directory of a chip's block.
fn is_scribbled<C: Chip>(chip: &mut C, block: Block) -> bool
    requires { ((C.flash chip.old).on ≡ true) × (block.0 < (C.flash chip.old).blocks) }
    ensures tells { Tells result (Strays ((C.flash chip.old).byte block.0)) }
    ensures keeps { C.flash chip.new ≡ C.flash chip.old }
{
    let mut page = [ERASED; PAGE];
    fetch_into(chip, block, 0, &mut page);
    has_stray(&page)
}

// The first ring block with a directory that has more than its descriptors in it.
pub fn scribbled_block<C: Chip>(chip: &mut C, layout: Layout) -> Option<RingBlock>
    requires { Ready (C.flash chip.old) layout.sizes layout.cleared }
    ensures first { FirstBlock (At layout.sizes layout.cleared (block_at layout.sizes layout.cleared) (Scribbled (C.flash chip.old) layout.sizes layout.cleared)) result }
    ensures keeps { C.flash chip.new ≡ C.flash chip.old }
{
    for b in 0..layout.sizes.ring {
        let block = RingBlock(b);
        if layout.turn_of(block).is_some() && is_scribbled(chip, layout.chip_block(block)) {
            return Some(block);
        }
    }
    None
}
