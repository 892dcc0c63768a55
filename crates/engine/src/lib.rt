#![tactic(auto)]
// The sector volume over any chip. Tickets are plain numbers here; the volume proper gives them out as values.
ghost use Rattle.std.specs.Prelude.{◌≡◌, None};
ghost use Rattle.engine.specs.Formats.{Admits, Formats, Untouched};
ghost use Rattle.engine.specs.Memories.{Forgets};

mod batch;
mod memory;
mod refusal;
mod sector;
mod serve;
mod start;
mod wipe;

pub use self::memory::{Batch, Memory, Started};
pub use self::refusal::{Numbers, Refusal};
pub use self::sector::Report;
use chip::Chip;
use label::{LabelBytes, Sizes, write_label};

// The label of a volume on a chip of `blocks` blocks, if the sizes fit and the name is short enough.
fn label_for(blocks: u16, sectors: u16, tally: u16, name: &[u8]) -> Option<LabelBytes>
    ensures { Admits blocks sectors tally name.now result }
{
    let sizes = Sizes {
        ring: blocks.saturating_sub(1).saturating_sub(tally),
        sectors,
        tally,
    };
    if !sizes.fits(blocks) {
        return None;
    }
    write_label(sizes, name)
}

// A volume on a chip.
#[derive(Drop)]
pub struct Engine<C: Chip> {
    chip: C,
    memory: Memory,
}

impl<C: Chip> Engine<C> {
    // A volume that is not started, and has given no ticket.
    pub fn new(chip: C) -> Self
        ensures { (result.chip ≡ chip) × (result.memory ≡ record { tickets = 0; started = None }) }
    {
        Engine {
            chip,
            memory: Memory {
                tickets: 0,
                started: None,
            },
        }
    }

    // Erases the whole chip and writes the label of `sectors` sectors, `tally` tally blocks and this name; an empty
    // name is none. The blocks that are left are the ring. Three arguments, as the call is defined: a struct of them would
    // be taken apart at once.
    pub fn format(&mut self, sectors: u16, tally: u16, name: &[u8]) -> Result<(), Refusal>
        ensures formats { Formats sectors tally name.now (C.flash self.old.chip) result (C.flash self.new.chip) }
        ensures forgets { Forgets result self.old.memory self.new.memory }
        ensures untouched { Untouched result self.old self.new }
    {
        let Some(label) = label_for(self.chip.blocks(), sectors, tally, name) else {
            return Err(Refusal::Sizes);
        };
        self.memory.started = None;
        self.chip.power_on();
        wipe::write(&mut self.chip, label.as_slice())?;
        Ok(())
    }
}
