// The rule that what lies behind the claimed slots is erased.
ghost use Rattle.std.specs.Prelude.{◌≡◌, ◌<◌, ◌⊎◌};
ghost use Rattle.chip.specs.Ranges.{Tells};
ghost use Rattle.ring.specs.Logs.{claimed as claimed_of};
ghost use Rattle.ring.specs.Places.{descriptor_byte, page_byte, positions};
ghost use Rattle.ring.specs.Rules.{Unclean};
ghost use Rattle.ring.specs.Turns.{Ready};
ghost use Rattle.rules.specs.Bytes.{Marked};

use crate::bytes::is_marked;
use chip::{Chip, PAGE};
use ring::Position;
use ring::directory::DESCRIPTOR;
use ring::layout::{Layout, Log};

// Whether the descriptor or the page of the slot at a position is not erased.
fn is_used<C: Chip>(chip: &mut C, layout: Layout, at: Position) -> bool
    requires ready { Ready (C.flash chip.old) layout.sizes layout.cleared }
    ensures tells { Tells result (Marked (descriptor_byte (C.flash chip.old) layout.sizes layout.cleared at.0) 4 ⊎ Marked (page_byte (C.flash chip.old) layout.sizes layout.cleared at.0) 512) }
    ensures keeps { C.flash chip.new ≡ C.flash chip.old }
{
    let block = at.block(layout);
    is_marked::<C, DESCRIPTOR>(chip, block, at.descriptor())
        || is_marked::<C, PAGE>(chip, block, at.page())
}

// Whether the slot at a position of the log is behind the claimed ones, and not erased.
pub fn is_unclean<C: Chip>(chip: &mut C, log: Log, at: Position) -> bool
    requires ready { Ready (C.flash chip.old) log.layout.sizes log.layout.cleared }
    requires count { log.claimed ≡ claimed_of (C.flash chip.old) log.layout.sizes log.layout.cleared }
    ensures tells { Tells result (Unclean (C.flash chip.old) log.layout.sizes log.layout.cleared at.0) }
    ensures keeps { C.flash chip.new ≡ C.flash chip.old }
{
    if at.0 < log.claimed {
        return false;
    }
    is_used(chip, log.layout, at)
}
