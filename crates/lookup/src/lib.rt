#![tactic(auto)]
// Look-ups in a volume's log, which go from its newest slot back and stay right on any image. Each is asked for the first
// slots, as many as a log holds for claimed, whether an image has so many claimed or not.
ghost use Rattle.std.specs.Prelude.{◌≡◌, ◌≤◌};
ghost use Rattle.ring.specs.Logs.{claimed as claimed_of};
ghost use Rattle.ring.specs.Places.{positions};
ghost use Rattle.ring.specs.Turns.{Ready};
ghost use Rattle.lookup.specs.Answers.{Found, FoundAmong, LiveFront, LiveFrontAmong, written as written_in, written_among};

use chip::Chip;
use ring::layout::Log;
use ring::{Position, Sector, Slot};

mod flags;
mod front;
mod marks;
mod walk;

use self::front::Front;
use self::marks::Marks;
use self::walk::{Walk, directory_of};

// The slot in which a sector lives, if it is written.
pub fn live_slot<C: Chip>(chip: &mut C, log: Log, sector: Sector) -> Option<Slot>
    requires ready { Ready (C.flash chip.old) log.layout.sizes log.layout.cleared }
    requires inside { log.claimed ≤ positions log.layout.sizes log.layout.cleared }
    ensures among { FoundAmong (C.flash chip.old) log.layout.sizes log.layout.cleared log.claimed sector.0 result }
    ensures found { log.claimed ≡ claimed_of (C.flash chip.old) log.layout.sizes log.layout.cleared → Found (C.flash chip.old) log.layout.sizes log.layout.cleared sector.0 result }
    ensures keeps { C.flash chip.new ≡ C.flash chip.old }
{
    let mut walk = Walk::from_newest(log);
    while let Some(visit) = walk.back(chip, log) {
        if visit.hits(sector) {
            return Some(Position(visit.position).slot(log.layout));
        }
    }
    None
}

// Which of the first seven positions are live: the last slot that counts for the sector of such a one is itself.
pub fn live_front<C: Chip>(chip: &mut C, log: Log) -> [bool; 7]
    requires ready { Ready (C.flash chip.old) log.layout.sizes log.layout.cleared }
    requires inside { log.claimed ≤ positions log.layout.sizes log.layout.cleared }
    ensures among { LiveFrontAmong (C.flash chip.old) log.layout.sizes log.layout.cleared log.claimed result }
    ensures live { log.claimed ≡ claimed_of (C.flash chip.old) log.layout.sizes log.layout.cleared → LiveFront (C.flash chip.old) log.layout.sizes log.layout.cleared result }
    ensures keeps { C.flash chip.new ≡ C.flash chip.old }
{
    let descriptors = directory_of(chip, log.layout, Position(0));
    let mut front = Front::before(descriptors);
    let mut walk = Walk::from_newest(log);
    while let Some(visit) = walk.back(chip, log) {
        front.note(visit);
    }
    front.own_places()
}

// How many sectors are written.
pub fn written_sectors<C: Chip>(chip: &mut C, log: Log) -> u16
    requires ready { Ready (C.flash chip.old) log.layout.sizes log.layout.cleared }
    requires inside { log.claimed ≤ positions log.layout.sizes log.layout.cleared }
    requires sectors { log.layout.sizes.sectors ≤ 28644 }
    ensures among { result ≡ written_among (C.flash chip.old) log.layout.sizes log.layout.cleared log.claimed }
    ensures count { log.claimed ≡ claimed_of (C.flash chip.old) log.layout.sizes log.layout.cleared → result ≡ written_in (C.flash chip.old) log.layout.sizes log.layout.cleared }
    ensures keeps { C.flash chip.new ≡ C.flash chip.old }
{
    let sectors = log.layout.sizes.sectors;
    let mut written = Marks::none();
    let mut walk = Walk::from_newest(log);
    while let Some(visit) = walk.back(chip, log) {
        written.note(visit, sectors);
    }
    written.count_below(sectors)
}
