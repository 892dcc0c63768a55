// Room for slots that are to be claimed.
ghost use Rattle.std.specs.Prelude.{◌≡◌, ◌%◌};
ghost use Rattle.image.specs.Surveys.{Bounded};
ghost use Rattle.upkeep.specs.Roomy.{RoomMade, RoomStands};

use crate::reclaims::reclaim;
use chip::{Chip, Fault};
use ring::layout::{Log, TALLY_BITS};

// Whether there is room, or the tally has no bits left to make it; and where the log then stands. No `Result`: both ways
// end well for the chip and hand on a log, and `?` hands on a cut alone.
#[derive(Clone, Copy)]
pub enum Room {
    Made(Log),
    Spent(Log),
}

// Reclaims while fewer than so many slots are unclaimed.
pub fn make_room<C: Chip>(chip: &mut C, log: Log, slots: u16) -> Result<Room, Fault>
    requires { (Bounded (C.flash chip.old) log) × (log.layout.cleared % 2 ≡ 0) }
    ensures rooms { RoomMade (C.flash chip.old) log slots result (C.flash chip.new) }
    ensures stands { RoomStands (C.flash chip.new) result }
{
    let mut log = log;
    while log.unclaimed() < slots {
        if log.layout.cleared >= TALLY_BITS * u32::from(log.layout.sizes.tally) {
            return Ok(Room::Spent(log));
        }
        log = reclaim(chip, log)?;
    }
    Ok(Room::Made(log))
}
