// What a program and an erase do to the bytes, and how they end.
ghost use Rattle.std.specs.Prelude.{◌≡◌, ◌+◌, ◌*◌, ◌%◌, ◌<◌, ◌≤◌, length, replicate};
ghost use Rattle.chip.specs.Steps.{program, erase, Answers};
ghost use Rattle.rows.specs.Rows.{count_of, flash_of, Bytes, Masked};
ghost use Rattle.buffered_chip.specs.Plans.{reached, counted, powered, Stored, Wiped};

use crate::{Plan, Status};
use chip::{BLOCK, Block, ERASED, Fault, PAGE, Span, admit};

impl Plan {
    // How many of `len` bytes the next step finishes.
    pub fn reach(&self, len: usize) -> usize
        ensures { result ≡ reached self.now len }
    {
        if self.step == 1 {
            len.min(self.done)
        } else {
            len
        }
    }
}

impl Status {
    // Counts a step that was begun, and lets power go if it was cut.
    pub fn settle(&mut self, answer: Result<(), Fault>) -> Result<(), Fault>
        ensures told { result ≡ answer }
        ensures name { self.new.name ≡ self.old.name }
        ensures power { self.new.on ≡ powered answer self.old.on }
        ensures plan { self.new.plan ≡ counted answer self.old.plan }
    {
        match answer {
            Ok(()) => self.plan.step = self.plan.step.saturating_sub(1),
            Err(Fault::Cut(_)) => {
                self.plan.step = self.plan.step.saturating_sub(1);
                self.on = false;
            }
            Err(_) => {}
        }
        answer
    }
}

// A page buffer while it is in use; when it ends it is all ones again.
struct Ones<'a> {
    bytes: &'a mut [u8; PAGE],
}

impl Drop for Ones<'_> {
    fn drop(self)
        ensures { self.exit.0.now ≡ replicate 512 255 }
    {
        self.bytes.fill(ERASED);
        let Ones { bytes: _ } = self;
    }
}

// Puts bytes into a page of ones, and stores it over the page of a block that the byte `at` lies in.
fn burn(page: &mut [u8; PAGE], image: &mut [u8], block: Block, at: usize, given: &[u8])
    requires bytes { Bytes image.old }
    requires there { block.0 < count_of image.old }
    requires ends { at < 4096 }
    requires fits { at % 512 + length given.now ≤ 512 }
    ensures { Masked image.old (block.0 * 4096 + at) (length given.now) given.now 0 image.new }
{
    let offset = at % PAGE;
    page.fill(ERASED);
    rows::copy_in(page, offset, given);
    rows::clear_bits(image, rows::place_of(block, at - offset), page, 0);
}

// Programs a range by way of the page buffer, or as much of it as the plan lets it. On every way out the buffer is all
// ones again.
pub fn store(
    page: &mut [u8; PAGE],
    image: &mut [u8],
    status: Status,
    span: Span,
    given: &[u8],
) -> Result<(), Fault>
    ensures ones { page.new ≡ replicate 512 255 }
    ensures answers { Answers (program span.block.0 span.at span.len given.now) (flash_of image.old status.on status.name) result (flash_of image.new (powered result status.on) status.name) }
    ensures stored { Stored span.block.0 span.at given.now status.plan image.old result image.new }
{
    let buffer = Ones { bytes: page };
    let there = span.is_paged(rows::whole_blocks(image), given.len());
    admit(there, status.on)?;
    let reach = status.plan.reach(given.len());
    burn(buffer.bytes, image, span.block, span.at, &given[..reach]);
    if status.plan.step == 1 {
        return Err(rows::lost(status.name, span.block));
    }
    Ok(())
}

// Fills a block with ones, or as much of it as the plan lets it.
pub fn wipe(image: &mut [u8], status: Status, block: Block) -> Result<(), Fault>
    ensures answers { Answers (erase block.0) (flash_of image.old status.on status.name) result (flash_of image.new (powered result status.on) status.name) }
    ensures wiped { Wiped block.0 status.plan image.old result image.new }
{
    admit(block.0 < rows::whole_blocks(image), status.on)?;
    rows::fill_range(
        image,
        rows::place_of(block, 0),
        status.plan.reach(BLOCK),
        ERASED,
    );
    if status.plan.step == 1 {
        return Err(rows::lost(status.name, block));
    }
    Ok(())
}
