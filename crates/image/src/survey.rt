// What a sound image holds.
ghost use Rattle.std.specs.Prelude.{◌≡◌, ℕ, ◌+◌, ◌*◌, ◌/◌, ◌%◌, ◌<◌, ◌≤◌, length, slice_index};
ghost use Rattle.ring.specs.Places.{chip_block};
ghost use Rattle.lookup.specs.Answers.{Found, FoundAmong};
ghost use Rattle.image.specs.Examined.{Sound};
ghost use Rattle.image.specs.Surveys.{Bounded, Shown, Standing, Surveyed, SurveyedAmong};

use chip::{Chip, ERASED, PAGE, fetch_into};
use lookup::{live_slot, written_sectors};
use ring::directory::BLOCK_SLOTS;
use ring::layout::Log;
use ring::{RingBlock, Sector, Slot};

// The numbers of a sound image: erases that are booked, whether one more has begun, erases that can still be booked,
// slots that are not claimed, and sectors that are written.
#[derive(Clone, Copy)]
pub struct Survey {
    pub booked: u32,
    pub begun: bool,
    pub left: u32,
    pub unclaimed: u16,
    pub written: u16,
}

// Surveys the first slots of an image, as many as its log holds for claimed. Of a log that stands on the chip, these are
// the image's.
pub fn survey_image<C: Chip>(chip: &mut C, log: Log) -> Survey
    requires { Bounded (C.flash chip.old) log }
    ensures among { SurveyedAmong (C.flash chip.old) log result }
    ensures survey { Standing (C.flash chip.old) log → Surveyed (C.flash chip.old) log result }
    ensures keeps { C.flash chip.new ≡ C.flash chip.old }
{
    let layout = log.layout;
    let booked = layout.booked();
    Survey {
        booked,
        begun: layout.begun(),
        left: 16384 * u32::from(layout.sizes.tally) - booked,
        unclaimed: log.unclaimed(),
        written: written_sectors(chip, log),
    }
}

// The slot in which a sector lives among the first slots, as many as the log holds for claimed, if it is written there.
pub fn find_sector<C: Chip>(chip: &mut C, log: Log, sector: Sector) -> Option<Slot>
    requires { Bounded (C.flash chip.old) log }
    ensures among { FoundAmong (C.flash chip.old) log.layout.sizes log.layout.cleared log.claimed sector.0 result }
    ensures found { Standing (C.flash chip.old) log → Found (C.flash chip.old) log.layout.sizes log.layout.cleared sector.0 result }
    ensures keeps { C.flash chip.new ≡ C.flash chip.old }
{
    live_slot(chip, log, sector)
}

// Fills a buffer with the front of a slot's page; nothing is read where there is no such slot, or the buffer is empty
// or larger than a page.
pub fn read_slot<C: Chip>(chip: &mut C, log: Log, slot: Slot, into: &mut [u8])
    requires { Bounded (C.flash chip.old) log }
    ensures bytes { slot.0 < 7 * log.layout.sizes.ring → 0 < length into.old → length into.old ≤ 512 → (k : ℕ) → k < length into.old → slice_index into.new k ≡ (C.flash chip.old).byte (chip_block log.layout.sizes (slot.0 / 7)) (512 * (slot.0 % 7 + 1) + k) }
    ensures keeps { C.flash chip.new ≡ C.flash chip.old }
{
    let block = RingBlock(slot.0 / BLOCK_SLOTS);
    if block.0 >= log.layout.sizes.ring || into.is_empty() || into.len() > PAGE {
        return;
    }
    let at = PAGE * usize::from(slot.0 % BLOCK_SLOTS + 1);
    fetch_into(chip, log.layout.chip_block(block), at, into);
}

// Fills a page with what a sector holds in the first slots, as many as the log holds for claimed, and says whether it
// holds something; if not, the page is all ones. No Option of a page: the buffer is the caller's, and is told of both ways.
pub fn read_sector<C: Chip>(chip: &mut C, log: Log, sector: Sector, into: &mut [u8]) -> bool
    requires { (Bounded (C.flash chip.old) log) × (length into.old ≡ 512) }
    ensures shown { Shown (C.flash chip.old) log sector.0 result into.new }
    ensures keeps { C.flash chip.new ≡ C.flash chip.old }
{
    if let Some(slot) = find_sector(chip, log, sector) {
        read_slot(chip, log, slot, into);
        return true;
    }
    into.fill(ERASED);
    false
}
