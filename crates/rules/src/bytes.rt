// Bytes of a block, and whether they are erased.
ghost use Rattle.std.specs.Prelude.{◌≡◌, ◌+◌, true, length, slice_index};
ghost use Rattle.chip.specs.Ranges.{Tells, Within};
ghost use Rattle.rules.specs.Bytes.{Marked};

use chip::{Block, Chip, ERASED, fetch_into};

// Whether one of the bytes is not erased.
fn has_mark(bytes: &[u8]) -> bool
    ensures { Tells result (Marked (λ k. slice_index bytes.now k) (length bytes.now)) }
{
    bytes.iter().any(|byte| *byte != ERASED)
}

// Whether one of so many bytes of a block, from an offset on, is not erased.
pub fn is_marked<C: Chip, const N: usize>(chip: &mut C, block: Block, at: usize) -> bool
    requires power { (C.flash chip.old).on ≡ true }
    requires within { Within (C.flash chip.old).blocks block.0 at N N }
    ensures tells { Tells result (Marked (λ k. (C.flash chip.old).byte block.0 (at + k)) N) }
    ensures keeps { C.flash chip.new ≡ C.flash chip.old }
{
    let mut bytes = [ERASED; N];
    fetch_into(chip, block, at, &mut bytes);
    has_mark(&bytes)
}
