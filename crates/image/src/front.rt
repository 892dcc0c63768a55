// The label of a chip.
ghost use Rattle.std.specs.Prelude.{◌≡◌, true};
ghost use Rattle.image.specs.Fronts.{Carries};

use chip::Chip;
use label::{LabelFault, Sizes, first_page, read_label};

// The sizes that the label of a chip states, or the byte at which it is at fault.
pub fn read_sizes<C: Chip>(chip: &mut C) -> Result<Sizes, LabelFault>
    requires { (C.flash chip.old).on ≡ true }
    ensures carries { Carries (C.flash chip.old) result }
    ensures keeps { C.flash chip.new ≡ C.flash chip.old }
{
    let page = first_page(chip);
    let count = chip.blocks();
    let label = read_label(&page, count)?;
    Ok(label.sizes)
}
