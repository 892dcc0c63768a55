// The page of a chip that the label stands in.
ghost use Rattle.std.specs.Prelude.{◌≡◌};
ghost use Rattle.label.specs.Pages.{Fronts};

use chip::{Block, Chip, ERASED, PAGE, Span};

// The first page of a chip; a page of ones where there is no block, or no power.
pub fn first_page<C: Chip>(chip: &mut C) -> [u8; 512]
    ensures page { Fronts (C.flash chip.old) result }
    ensures keeps { C.flash chip.new ≡ C.flash chip.old }
{
    let mut page = [ERASED; PAGE];
    let front = Span {
        block: Block(0),
        at: 0,
        len: PAGE,
    };
    let _ = chip.read(front, &mut page);
    page
}
