// What the image on a chip holds, printed.
ghost use Rattle.std.specs.Prelude.{◌≡◌};
ghost use Rattle.image.specs.Surveys.{Standing};

use chip::Chip;
use dump::{Hex, RuleLine, SurveyLines};
use image::{Flaw, examine, find_sector, read_slot, survey_image};
use ring::Sector;
use ring::layout::Log;

// Prints a line for each written sector, with its slot and the first bytes of its page.
fn print_sectors<C: Chip>(rt: &HostRuntime, chip: &mut C, log: Log) -> anyhow::Result<()>
    requires { Standing (C.flash chip.old) log }
{
    for x in 0..log.layout.sizes.sectors {
        if let Some(slot) = find_sector(chip, log, Sector(x)) {
            let mut front = [0; 8];
            read_slot(chip, log, slot, &mut front);
            println!(rt; "sector {x} slot {} {}", slot.0, Hex(&front))?;
        }
    }
    Ok(())
}

// Prints the numbers of a sound image, and its sectors.
fn print_log<C: Chip>(rt: &HostRuntime, chip: &mut C, log: Log) -> anyhow::Result<()>
    requires { Standing (C.flash chip.old) log }
{
    println!(rt; "{}", SurveyLines(survey_image(chip, log)))?;
    print_sectors(rt, chip, log)
}

// Prints what the image on a chip holds, or the rule that it breaks. A label's fault is told elsewhere.
pub fn print_image<C: Chip>(rt: &HostRuntime, chip: &mut C) -> anyhow::Result<()> {
    match examine(chip) {
        Ok(log) => print_log(rt, chip, log),
        Err(Flaw::Rule(broken)) => {
            println!(rt; "{}", RuleLine(broken))?;
            Ok(())
        }
        Err(Flaw::Label(_) | Flaw::NoPower) => Ok(()),
    }
}
