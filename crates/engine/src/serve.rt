// Whether a volume serves calls, and what they ask for.
ghost use Rattle.std.specs.Prelude.{◌≡◌};
ghost use Rattle.chip.specs.Ranges.{Tells};
ghost use Rattle.engine.specs.Memories.{Fits, Served, Held, Numbered, Paged};

use crate::Engine;
use crate::memory::{Batch, Started};
use crate::refusal::Refusal;
use chip::{Chip, PAGE};
use ring::Sector;
use ring::directory::BLOCK_SLOTS;
use ring::layout::{Log, TALLY_BITS};

// Whether a log fits the chip that it should be on. It asks for nothing that a chip would have to read.
fn fits<C: Chip>(chip: &C, log: Log) -> bool
    ensures { Tells result (Fits (C.flash chip.now) log) }
{
    let sizes = log.layout.sizes;
    chip.power()
        && sizes.fits(chip.blocks())
        && log.layout.cleared <= TALLY_BITS * u32::from(sizes.tally)
        && log.layout.cleared % 2 == 0
        && log.claimed <= BLOCK_SLOTS * sizes.ring
}

// The open batch, if it has this ticket.
pub fn batch_of(started: Started, ticket: u32) -> Result<Batch, Refusal>
    ensures { Held started ticket result }
{
    started
        .batch
        .filter(|batch| batch.ticket == ticket)
        .ok_or(Refusal::OtherTicket)
}

// Whether there is a sector of that number.
pub fn check_sector(started: Started, sector: Sector) -> Result<(), Refusal>
    ensures { Numbered started sector.0 result }
{
    if sector.0 >= started.log.layout.sizes.sectors {
        return Err(Refusal::NoSector);
    }
    Ok(())
}

// The same, and whether a buffer is as long as a page.
pub fn check_page(started: Started, sector: Sector, len: usize) -> Result<(), Refusal>
    ensures { Paged started sector.0 len result }
{
    if len != PAGE {
        return Err(Refusal::Length);
    }
    check_sector(started, sector)
}

impl<C: Chip> Engine<C> {
    // What is known of the log and the batch, if the volume serves calls.
    pub(crate) fn serving(&self) -> Result<Started, Refusal>
        ensures { Served (C.flash self.now.chip) self.now.memory result }
    {
        self.memory
            .started
            .filter(|started| fits(&self.chip, started.log))
            .ok_or(Refusal::NotStarted)
    }
}
