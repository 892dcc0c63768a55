// A copy that was not closed, beside the slot that it is a copy of.
ghost use Rattle.std.specs.Prelude.{◌≡◌};
ghost use Rattle.chip.specs.Ranges.{Tells};
ghost use Rattle.ring.specs.Turns.{Ready};
ghost use Rattle.ring.specs.Rules.{Covers};

use crate::bytes::{page_is_over, range_is_over};
use chip::Chip;
use ring::Position;
use ring::layout::Layout;

// Whether one position shows a 1 in its number and page wherever another does.
pub fn covers<C: Chip>(chip: &mut C, layout: Layout, upper: Position, lower: Position) -> bool
    requires { Ready (C.flash chip.old) layout.sizes layout.cleared }
    ensures tells { Tells result (Covers (C.flash chip.old) layout.sizes layout.cleared upper.0 lower.0) }
    ensures keeps { C.flash chip.new ≡ C.flash chip.old }
{
    let above = upper.block(layout);
    let below = lower.block(layout);
    let up = upper.descriptor() + 1;
    let low = lower.descriptor() + 1;
    range_is_over::<C, 2>(chip, above, below, up, low)
        && page_is_over(chip, above, below, upper.page(), lower.page())
}
