#![tactic(auto)]
// A chip for the bench: its blocks lie in bytes that are lent to it, and it loses power in the step that its plan names.
ghost use Rattle.std.specs.Prelude.{◌≡◌, true};
ghost use Rattle.chip.specs.Flash.{awake};
ghost use Rattle.chip.specs.Steps.{program, erase, Answers, Reads};
ghost use Rattle.rows.specs.Rows.{Bytes};
ghost use Rattle.bench_chip.specs.Burns.{shown, Idle, Began, Programs, Erases};

use chip::{BLOCK, Block, Chip, ERASED, Fault, Home, Span, admit};

// Which step is cut, and what it leaves.
#[derive(Clone, Copy, PartialEq, Eq, Debug)]
pub struct Plan {
    // The number of the step, from 1 on, among the programs and erases that are begun; 0 is none.
    // No Option: a script may say 0, and a count that has run down ends there, so that would be a second none.
    pub step: u32,
    // The ones that a cut program spares, and the byte that a cut erase leaves.
    pub mask: u8,
}

impl Plan {
    // No step is cut.
    pub const WHOLE: Plan = Plan { step: 0, mask: 0 };
}

// The chip: the bytes that are lent to it, its name, its power, and what is left of its plan.
#[derive(Drop)]
pub struct Bench<'a> {
    image: &'a mut [u8],
    name: u16,
    on: bool,
    plan: Plan,
}

impl<'a> Bench<'a> {
    // A chip over the whole blocks of `image`, with power.
    pub fn new(image: &'a mut [u8], name: u16, plan: Plan) -> Bench<'a>
        ensures image { result.image.now ≡ image.old }
        ensures name { result.name ≡ name }
        ensures power { result.on ≡ true }
        ensures plan { result.plan ≡ plan }
    {
        Bench {
            image,
            name,
            on: true,
            plan,
        }
    }

    // Counts a step that is begun, and tells whether it is the one to be cut; then power goes.
    fn begin(&mut self) -> bool
        ensures began { Began self.old result self.new }
        ensures image { self.new.image.now ≡ self.old.image.now }
    {
        let cut = self.plan.step == 1;
        self.plan.step = self.plan.step.saturating_sub(1);
        if cut {
            self.on = false;
        }
        cut
    }

    // Copies a range into a buffer. By `&self`, so that the image is known to stay as it is: tried in `read` itself, and
    // the proof knew no more of the image than its length.
    fn copy(&self, span: Span, into: &mut [u8]) -> Result<(), Fault>
        ensures { Reads (shown self.now) span.block.0 span.at span.len into.old result into.new }
    {
        rows::read_range(self.image, self.on, span, into)
    }
}

impl<'a> Chip for Bench<'a> {
    ghost flash = { shown };

    fn blocks(&self) -> u16
        ensures count { result ≡ (shown self.now).blocks }
        ensures bytes { Bytes self.now.image.now }
    {
        rows::whole_blocks(self.image)
    }

    fn power(&self) -> bool {
        self.on
    }

    fn home(&self, block: Block) -> Home {
        rows::home_of(self.image, self.name, block)
    }

    fn read(&mut self, span: Span, into: &mut [u8]) -> Result<(), Fault>
        ensures copies { Reads (shown self.old) span.block.0 span.at span.len into.old result into.new }
        ensures keeps { shown self.new ≡ shown self.old }
        ensures idle { Idle self.old self.new }
    {
        self.copy(span, into)
    }

    fn program(&mut self, span: Span, given: &[u8]) -> Result<(), Fault>
        ensures answers { Answers (program span.block.0 span.at span.len given.now) (shown self.old) result (shown self.new) }
        ensures burns { Programs span.block.0 span.at given.now self.old result self.new }
    {
        admit(span.is_paged(self.blocks(), given.len()), self.on)?;
        let base = rows::place_of(span.block, span.at);
        if self.begin() {
            rows::clear_bits(self.image, base, given, self.plan.mask);
            return Err(rows::lost(self.name, span.block));
        }
        rows::clear_bits(self.image, base, given, 0);
        Ok(())
    }

    fn erase(&mut self, block: Block) -> Result<(), Fault>
        ensures answers { Answers (erase block.0) (shown self.old) result (shown self.new) }
        ensures burns { Erases block.0 self.old result self.new }
    {
        admit(block.0 < self.blocks(), self.on)?;
        let base = rows::place_of(block, 0);
        if self.begin() {
            rows::fill_range(self.image, base, BLOCK, self.plan.mask);
            return Err(rows::lost(self.name, block));
        }
        rows::fill_range(self.image, base, BLOCK, ERASED);
        Ok(())
    }

    fn power_on(&mut self)
        ensures wakes { shown self.new ≡ awake (shown self.old) }
        ensures idle { Idle self.old self.new }
    {
        self.on = true;
    }
}
