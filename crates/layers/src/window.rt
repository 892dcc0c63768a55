// Some consecutive blocks of a chip, as a chip of their own.
ghost use Rattle.std.specs.Prelude.{◌≡◌};
ghost use Rattle.layers.specs.Windows.{windowed, Lies};

use chip::{Block, Chip, Fault, Home, Span};

// The blocks of `chip` from `first` on, `count` of them or as many as there are.
#[derive(Drop)]
pub struct Window<C: Chip> {
    chip: C,
    first: Block,
    count: u16,
}

impl<C: Chip> Window<C> {
    pub fn new(chip: C, first: Block, count: u16) -> Self
        ensures { (result.chip ≡ chip) × ((result.first ≡ first) × (result.count ≡ count)) }
    {
        Window { chip, first, count }
    }

    // Which block of the chip a block of the window is.
    fn inner(&self, block: Block) -> Option<Block>
        ensures { Lies self.now.first.0 self.now.count (C.flash self.now.chip) block.0 result }
    {
        let shown = self.chip.blocks().saturating_sub(self.first.0);
        if block.0 < self.count && block.0 < shown {
            Some(Block(self.first.0 + block.0))
        } else {
            None
        }
    }
}

impl<C: Chip> Chip for Window<C> {
    ghost flash = { λ w. windowed w.first.0 w.count (C.Chip.flash w.chip) };

    fn blocks(&self) -> u16 {
        self.count
            .min(self.chip.blocks().saturating_sub(self.first.0))
    }

    fn power(&self) -> bool {
        self.chip.power()
    }

    fn home(&self, block: Block) -> Home {
        match self.inner(block) {
            Some(inner) => self.chip.home(inner),
            None => Home::NOWHERE,
        }
    }

    fn read(&mut self, span: Span, into: &mut [u8]) -> Result<(), Fault> {
        let block = self.inner(span.block).ok_or(Fault::Range)?;
        self.chip.read(Span { block, ..span }, into)
    }

    fn program(&mut self, span: Span, given: &[u8]) -> Result<(), Fault> {
        let block = self.inner(span.block).ok_or(Fault::Range)?;
        self.chip.program(Span { block, ..span }, given)
    }

    fn erase(&mut self, block: Block) -> Result<(), Fault> {
        let block = self.inner(block).ok_or(Fault::Range)?;
        self.chip.erase(block)
    }

    fn power_on(&mut self) {
        self.chip.power_on();
    }
}
