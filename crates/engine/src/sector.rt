// Reads and the report.
ghost use Rattle.std.specs.Prelude.{◌≡◌};
ghost use Rattle.engine.specs.Calls.{Reads, Reports};

use crate::Engine;
use crate::refusal::Refusal;
use crate::serve::check_page;
use chip::Chip;
use image::{read_sector, survey_image};
use ring::Sector;

// Booked erases, unclaimed slots, written sectors, and unbooked erases that are left. What a survey of an image has more,
// whether an erase has begun, has one answer on a started volume.
#[derive(Clone, Copy, PartialEq, Eq, Debug)]
pub struct Report {
    pub booked: u32,
    pub unclaimed: u16,
    pub written: u16,
    pub left: u32,
}

impl<C: Chip> Engine<C> {
    // Fills a page with what a sector holds, and says whether it is written; a page of FF hex stands for one that is not.
    // No Option of a page: the buffer is the caller's, and is told of both ways.
    pub fn read(&mut self, sector: Sector, into: &mut [u8]) -> Result<bool, Refusal>
        ensures reads { Reads sector.0 (C.flash self.old.chip) self.old.memory into.old result into.new }
        ensures keeps { (C.flash self.new.chip ≡ C.flash self.old.chip) × (self.new.memory ≡ self.old.memory) }
    {
        let started = self.serving()?;
        check_page(started, sector, into.len())?;
        Ok(read_sector(&mut self.chip, started.log, sector, into))
    }

    // Tells how a started volume stands.
    pub fn report(&mut self) -> Result<Report, Refusal>
        ensures reports { Reports (C.flash self.old.chip) self.old.memory result }
        ensures keeps { (C.flash self.new.chip ≡ C.flash self.old.chip) × (self.new.memory ≡ self.old.memory) }
    {
        let started = self.serving()?;
        let survey = survey_image(&mut self.chip, started.log);
        Ok(Report {
            booked: survey.booked,
            unclaimed: survey.unclaimed,
            written: survey.written,
            left: survey.left,
        })
    }
}
