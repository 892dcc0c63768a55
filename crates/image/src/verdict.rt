// The examination of an image: may it be believed, and where does its log stand?
ghost use Rattle.std.specs.Prelude.{◌≡◌, true, IfOk};
ghost use Rattle.label.specs.Labels.{Sized};
ghost use Rattle.ring.specs.Turns.{Ready};
ghost use Rattle.image.specs.Checks.{Checked};
ghost use Rattle.image.specs.Examined.{Laid, Counted, Examined};
ghost use Rattle.image.specs.Surveys.{Standing};

use crate::flaw::{Broken, Flaw};
use crate::front::read_sizes;
use crate::last::check_last;
use crate::slots::{check_bytes, check_slots};
use chip::Chip;
use label::Sizes;
use lookup::live_front;
use ring::layout::{Layout, Log};
use rules::claimed_slots;
use tally::{Disorder, read_tally};

// The layout that label and tally give, where the tally keeps its rule.
fn read_layout<C: Chip>(chip: &mut C, sizes: Sizes) -> Result<Layout, Broken>
    requires { ((C.flash chip.old).on ≡ true) × (Sized (C.flash chip.old).blocks sizes) }
    ensures laid { Laid (C.flash chip.old) sizes result }
    ensures keeps { C.flash chip.new ≡ C.flash chip.old }
{
    match read_tally(chip, sizes.tally) {
        Ok(cleared) => Ok(Layout { sizes, cleared }),
        Err(Disorder { byte }) => Err(Broken {
            rule: 1,
            place: byte,
        }),
    }
}

// Checks rules 2 to 9, and counts the claimed slots.
fn check_log<C: Chip>(chip: &mut C, layout: Layout) -> Result<Log, Broken>
    requires { Ready (C.flash chip.old) layout.sizes layout.cleared }
    ensures checked { Checked (C.flash chip.old) layout.sizes layout.cleared 2 9 result }
    ensures counted { Counted (C.flash chip.old) layout result }
    ensures keeps { C.flash chip.new ≡ C.flash chip.old }
{
    check_bytes(chip, layout)?;
    let log = Log {
        layout,
        claimed: claimed_slots(chip, layout),
    };
    check_slots(chip, log)?;
    let front = live_front(chip, log);
    check_last(chip, log, front)?;
    Ok(log)
}

// Examines the image on a chip. It writes nothing.
pub fn examine<C: Chip>(chip: &mut C) -> Result<Log, Flaw>
    ensures examined { Examined (C.flash chip.old) result }
    ensures stands { IfOk result (Standing (C.flash chip.old)) }
    ensures keeps { C.flash chip.new ≡ C.flash chip.old }
{
    if !chip.power() {
        return Err(Flaw::NoPower);
    }
    let sizes = read_sizes(chip)?;
    let layout = read_layout(chip, sizes)?;
    let log = check_log(chip, layout)?;
    Ok(log)
}
