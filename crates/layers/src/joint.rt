// Two chips as one.
ghost use Rattle.std.specs.Prelude.{◌≡◌, ◌+◌, min, ◌&&◌};
ghost use Rattle.layers.specs.Joints.{joined, Found, Reached};

use chip::{Block, Chip, Fault, Home, Span, admit};

// The blocks of `front`, then those of `back`, up to 65,535. It has power when both have.
#[derive(Drop)]
pub struct Joint<A: Chip, B: Chip> {
    front: A,
    back: B,
}

// On which of the two chips a block lies, and which block it is there. No Result: neither half is a refusal.
#[derive(Clone, Copy)]
enum Half {
    Front(Block),
    Back(Block),
}

impl<A: Chip, B: Chip> Joint<A, B> {
    pub fn new(front: A, back: B) -> Self
        ensures { (result.front ≡ front) × (result.back ≡ back) }
    {
        Joint { front, back }
    }

    // How many blocks the joint has.
    fn shown(&self) -> u16
        ensures { result ≡ min 65535 ((A.Chip.flash self.now.front).blocks + (B.Chip.flash self.now.back).blocks) }
    {
        self.front.blocks().saturating_add(self.back.blocks())
    }

    // Whether both chips have power.
    fn both_on(&self) -> bool
        ensures { result ≡ ((A.Chip.flash self.now.front).on && (B.Chip.flash self.now.back).on) }
    {
        self.front.power() && self.back.power()
    }

    // Where a block of the joint lies.
    fn half(&self, block: Block) -> Half
        ensures { Found (A.Chip.flash self.now.front).blocks block.0 result }
    {
        let first = self.front.blocks();
        if block.0 < first {
            Half::Front(block)
        } else {
            Half::Back(Block(block.0 - first))
        }
    }

    // Where a block of the joint lies, for a call whose range is one of the joint if `within` says so.
    fn reach(&self, block: Block, within: bool) -> Result<Half, Fault>
        ensures { Reached (joined (A.Chip.flash self.now.front) (B.Chip.flash self.now.back)).on (A.Chip.flash self.now.front).blocks block.0 within result }
    {
        admit(within, self.both_on())?;
        Ok(self.half(block))
    }
}

impl<A: Chip, B: Chip> Chip for Joint<A, B> {
    ghost flash = { λ j. joined (A.Chip.flash j.front) (B.Chip.flash j.back) };

    fn blocks(&self) -> u16 {
        self.shown()
    }

    fn power(&self) -> bool {
        self.both_on()
    }

    fn home(&self, block: Block) -> Home {
        if block.0 >= self.shown() {
            return Home::NOWHERE;
        }
        match self.half(block) {
            Half::Front(block) => self.front.home(block),
            Half::Back(block) => self.back.home(block),
        }
    }

    fn read(&mut self, span: Span, into: &mut [u8]) -> Result<(), Fault> {
        let within = span.is_within(self.shown(), into.len());
        match self.reach(span.block, within)? {
            Half::Front(block) => self.front.read(Span { block, ..span }, into),
            Half::Back(block) => self.back.read(Span { block, ..span }, into),
        }
    }

    fn program(&mut self, span: Span, given: &[u8]) -> Result<(), Fault> {
        let within = span.is_paged(self.shown(), given.len());
        match self.reach(span.block, within)? {
            Half::Front(block) => self.front.program(Span { block, ..span }, given),
            Half::Back(block) => self.back.program(Span { block, ..span }, given),
        }
    }

    fn erase(&mut self, block: Block) -> Result<(), Fault> {
        match self.reach(block, block.0 < self.shown())? {
            Half::Front(block) => self.front.erase(block),
            Half::Back(block) => self.back.erase(block),
        }
    }

    fn power_on(&mut self) {
        self.front.power_on();
        self.back.power_on();
    }
}
