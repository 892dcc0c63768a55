// The calls of the chip.
ghost use Rattle.std.specs.Prelude.{◌≡◌, true};
ghost use Rattle.chip.specs.Flash.{awake};
ghost use Rattle.chip.specs.Steps.{program, erase, Answers, Reads};
ghost use Rattle.buffered_chip.specs.Plans.{Stored, Wiped};
ghost use Rattle.buffered_chip.specs.Buffers.{shown, Idle, Settled};

use crate::{Buffered, Plan, Status, steps};
use chip::{Block, Chip, ERASED, Fault, Home, PAGE, Span};

impl<'a> Buffered<'a> {
    // A chip over the whole blocks of `image`, with power.
    pub fn new(image: &'a mut [u8], name: u16, plan: Plan) -> Buffered<'a>
        ensures image { result.image.now ≡ image.old }
        ensures name { result.status.name ≡ name }
        ensures power { result.status.on ≡ true }
        ensures plan { result.status.plan ≡ plan }
    {
        Buffered {
            image,
            page: [ERASED; PAGE],
            status: Status {
                name,
                on: true,
                plan,
            },
        }
    }

    // Copies a range into a buffer. By `&self`, so that the image is known to stay as it is: tried in `read` itself, and
    // the proof knew no more of the image than its length.
    fn copy(&self, span: Span, into: &mut [u8]) -> Result<(), Fault>
        ensures { Reads (shown self.now) span.block.0 span.at span.len into.old result into.new }
    {
        rows::read_range(self.image, self.status.on, span, into)
    }
}

impl<'a> Chip for Buffered<'a> {
    ghost flash = { shown };

    fn blocks(&self) -> u16 {
        rows::whole_blocks(self.image)
    }

    fn power(&self) -> bool {
        self.status.on
    }

    fn home(&self, block: Block) -> Home {
        rows::home_of(self.image, self.status.name, block)
    }

    fn read(&mut self, span: Span, into: &mut [u8]) -> Result<(), Fault>
        ensures copies { Reads (shown self.old) span.block.0 span.at span.len into.old result into.new }
        ensures keeps { shown self.new ≡ shown self.old }
        ensures idle { Idle self.old self.new }
    {
        self.copy(span, into)
    }

    fn program(&mut self, span: Span, given: &[u8]) -> Result<(), Fault>
        ensures answers { Answers (program span.block.0 span.at span.len given.now) (shown self.old) result (shown self.new) }
        ensures stored { Stored span.block.0 span.at given.now self.old.status.plan self.old.image.now result self.new.image.now }
        ensures settled { Settled self.old result self.new }
    {
        let answer = steps::store(&mut self.page, self.image, self.status, span, given);
        self.status.settle(answer)
    }

    fn erase(&mut self, block: Block) -> Result<(), Fault>
        ensures answers { Answers (erase block.0) (shown self.old) result (shown self.new) }
        ensures wiped { Wiped block.0 self.old.status.plan self.old.image.now result self.new.image.now }
        ensures settled { Settled self.old result self.new }
    {
        let answer = steps::wipe(self.image, self.status, block);
        self.status.settle(answer)
    }

    fn power_on(&mut self)
        ensures wakes { shown self.new ≡ awake (shown self.old) }
        ensures idle { Idle self.old self.new }
    {
        self.status.on = true;
    }
}
