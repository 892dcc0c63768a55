// What format makes of a chip.
ghost use Rattle.std.specs.Prelude.{ℕ, ◌<◌, length, slice_index};
ghost use Rattle.chip.specs.Plans.{Tries};
ghost use Rattle.engine.specs.Formats.{erasing, formatting};

use chip::{Block, Chip, Fault, Span};

// Erases all blocks, from the first on.
fn erase_all<C: Chip>(chip: &mut C) -> Result<(), Fault>
    ensures { Tries (erasing (C.flash chip.old).blocks) (C.flash chip.old) result (C.flash chip.new) }
{
    for b in 0..chip.blocks() {
        chip.erase(Block(b))?;
    }
    Ok(())
}

// Erases all blocks, then writes the label at the front of the first.
pub fn write<C: Chip>(chip: &mut C, label: &[u8]) -> Result<(), Fault>
    ensures tries { Tries (formatting (C.flash chip.old).blocks label.now) (C.flash chip.old) result (C.flash chip.new) }
    ensures bytes { (i : ℕ) → slice_index label.now i < 256 }
{
    erase_all(chip)?;
    let front = Span {
        block: Block(0),
        at: 0,
        len: label.len(),
    };
    chip.program(front, label)?;
    Ok(())
}
