// The start of a volume.
ghost use Rattle.engine.specs.Calls.{Starts};

use crate::Engine;
use crate::refusal::Refusal;
use chip::Chip;
use image::examine;
use upkeep::repair;

impl<C: Chip> Engine<C> {
    // Switches power on, examines the image, and repairs what a cut has left. Any batch is gone.
    pub fn start(&mut self) -> Result<(), Refusal>
        ensures { Starts (C.flash self.old.chip) self.old.memory result (C.flash self.new.chip) self.new.memory }
    {
        self.memory.started = None;
        self.chip.power_on();
        let found = examine(&mut self.chip)?;
        let log = repair(&mut self.chip, found)?;
        self.memory.idle(log);
        Ok(())
    }
}
