#![tactic(auto)]
// A chip of serial NOR flash: what it means, and what each implementation of it keeps to.
ghost use Rattle.std.specs.Prelude.{◌≡◌};
ghost use Rattle.chip.specs.Flash.{Flash, home_at, awake};
ghost use Rattle.chip.specs.Ranges.{Admitted, Tells, Within, Paged};
ghost use Rattle.chip.specs.Steps.{program, erase, Answers, Reads};

mod fetching;

pub use self::fetching::{fetch, fetch_into};

// The bytes of one block, and of one page of it.
pub const BLOCK: usize = 4096;

pub const PAGE: usize = 512;

// The byte of an erased cell.
pub const ERASED: u8 = 0xFF;

// The most blocks that a chip shows.
pub const MOST_BLOCKS: u16 = 65535;

// The number of a block of a chip.
#[derive(Clone, Copy, PartialEq, Eq, Debug)]
pub struct Block(pub u16);

// Where a block really lies: the name of a bottom chip, and the block's number there.
#[derive(Clone, Copy, PartialEq, Eq, Debug)]
pub struct Home {
    pub name: u16,
    pub block: u16,
}

impl Home {
    // That of a block which is not there.
    pub const NOWHERE: Home = Home { name: 0, block: 0 };
}

// Why a chip does not do what it is asked to.
#[derive(Clone, Copy, PartialEq, Eq, Debug)]
pub enum Fault {
    // The range is empty, lies outside, or has another length than the bytes.
    Range,
    // The chip was off before the call.
    NoPower,
    // Power was lost in this step, at the block with this home.
    Cut(Home),
}

// The refusal of a range or block that is not there, or else of a chip that is off.
pub fn admit(there: bool, on: bool) -> Result<(), Fault>
    ensures { Admitted there on result }
{
    if !there {
        return Err(Fault::Range);
    }
    if !on {
        return Err(Fault::NoPower);
    }
    Ok(())
}

// A range: `len` bytes of one block, from the byte `at` on. The length stands beside the buffer's, since a range may be asked
// for with a buffer of another, which is refused.
#[derive(Clone, Copy, PartialEq, Eq, Debug)]
pub struct Span {
    pub block: Block,
    pub at: usize,
    pub len: usize,
}

impl Span {
    // Whether there is such a range on a chip of `blocks` blocks, and it is as long as `len` bytes.
    pub fn is_within(&self, blocks: u16, len: usize) -> bool
        ensures { Tells result (Within blocks self.now.block.0 self.now.at self.now.len len) }
    {
        self.block.0 < blocks
            && self.len == len
            && len > 0
            && self.at < BLOCK
            && len <= BLOCK - self.at
    }

    // The same, and whether it lies in one page.
    pub fn is_paged(&self, blocks: u16, len: usize) -> bool
        ensures { Tells result (Paged blocks self.now.block.0 self.now.at self.now.len len) }
    {
        self.is_within(blocks, len) && len <= PAGE - self.at % PAGE
    }
}

// Any flash. Ranges and buffers may be anything; a refusal changes nothing, in the chip or in the buffer.
pub trait Chip {
    ghost flash: { Self → Flash };

    // How many blocks there are; this never changes.
    fn blocks(&self) -> u16
        ensures { result ≡ (flash self.now).blocks };

    // Whether the chip has power.
    fn power(&self) -> bool
        ensures { result ≡ (flash self.now).on };

    // The home of a block, which never changes; 0, 0 past the last block.
    fn home(&self, block: Block) -> Home
        ensures { result ≡ home_at (flash self.now) block.0 };

    // Copies a range of one block into a buffer of that length.
    fn read(&mut self, span: Span, into: &mut [u8]) -> Result<(), Fault>
        ensures copies { Reads (flash self.old) span.block.0 span.at span.len into.old result into.new }
        ensures keeps { flash self.new ≡ flash self.old };

    // Clears, in a range of one page, the bits that `given` has cleared.
    fn program(&mut self, span: Span, given: &[u8]) -> Result<(), Fault>
        ensures { Answers (program span.block.0 span.at span.len given.now) (flash self.old) result (flash self.new) };

    // Sets all bytes of a block to FF.
    fn erase(&mut self, block: Block) -> Result<(), Fault>
        ensures { Answers (erase block.0) (flash self.old) result (flash self.new) };

    // Switches power on, which is never refused.
    fn power_on(&mut self)
        ensures { flash self.new ≡ awake (flash self.old) };
}
