// Reads of ranges that are there, from a chip that has power: they are not refused. Block and offset are two arguments, as
// callers have them, from a directory's number and a place in it; a struct of both would be written out at each call.
ghost use Rattle.std.specs.Prelude.{◌≡◌, ℕ, ◌+◌, ◌<◌, true, length, slice_index};
ghost use Rattle.chip.specs.Ranges.{Within};

use crate::{Block, Chip, ERASED, Span};

// Fills a buffer with the bytes of a block from `at` on.
pub fn fetch_into<C: Chip>(chip: &mut C, block: Block, at: usize, into: &mut [u8])
    requires power { (C.flash chip.old).on ≡ true }
    requires within { Within (C.flash chip.old).blocks block.0 at (length into.old) (length into.old) }
    ensures same { (k : ℕ) → k < length into.old → slice_index into.new k ≡ (C.flash chip.old).byte block.0 (at + k) }
    ensures bytes { (k : ℕ) → k < length into.old → (C.flash chip.old).byte block.0 (at + k) < 256 }
    ensures keeps { C.flash chip.new ≡ C.flash chip.old }
{
    let len = into.len();
    let _ = chip.read(Span { block, at, len }, into);
}

// So many bytes of a block from `at` on.
pub fn fetch<C: Chip, const N: usize>(chip: &mut C, block: Block, at: usize) -> [u8; N]
    requires power { (C.flash chip.old).on ≡ true }
    requires within { Within (C.flash chip.old).blocks block.0 at N N }
    ensures same { (k : ℕ) → k < N → slice_index result k ≡ (C.flash chip.old).byte block.0 (at + k) }
    ensures bytes { (k : ℕ) → k < N → (C.flash chip.old).byte block.0 (at + k) < 256 }
    ensures keeps { C.flash chip.new ≡ C.flash chip.old }
{
    let mut bytes = [ERASED; N];
    fetch_into(chip, block, at, &mut bytes);
    bytes
}
