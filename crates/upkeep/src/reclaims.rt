// Reclaims: the oldest block is given back, and what is live of it is kept.
ghost use Rattle.std.specs.Prelude.{◌≡◌, ◌*◌, ◌%◌, ◌<◌, IfOk};
ghost use Rattle.ring.specs.Turns.{Ready};
ghost use Rattle.image.specs.Surveys.{Bounded};
ghost use Rattle.upkeep.specs.Reclaims.{Copies};
ghost use Rattle.upkeep.specs.Reclaimed.{Moved, Reclaimed};

use chip::{Chip, Fault};
use lookup::live_front;
use ring::Position;
use ring::directory::BLOCK_SLOTS;
use ring::layout::{Layout, Log};
use writes::entry::{Entry, read_entry};
use writes::erase::free_oldest;
use writes::slot::copy_slot;

// Copies the slot at one position to another.
fn copy_live<C: Chip>(
    chip: &mut C,
    layout: Layout,
    from: Position,
    to: Position,
) -> Result<(), Fault>
    requires { Ready (C.flash chip.old) layout.sizes layout.cleared }
    ensures { Copies (C.flash chip.old) layout.sizes layout.cleared from.0 to.0 result (C.flash chip.new) }
{
    let mut entry = Entry::BLANK;
    read_entry(chip, layout, from, &mut entry);
    copy_slot(chip, layout, to, entry.sector, &entry.page)
}

// Copies what is live of the first seven positions to the end of the log, and tells how many slots that took.
fn move_live<C: Chip>(chip: &mut C, log: Log) -> Result<u16, Fault>
    requires { Bounded (C.flash chip.old) log }
    ensures { Moved (C.flash chip.old) log result (C.flash chip.new) }
{
    let front = live_front(chip, log);
    let mut copies = 0;
    for (i, live) in front.iter().enumerate() {
        if *live {
            let to = Position(log.claimed + copies);
            copy_live(chip, log.layout, Position(i as u16), to)?;
            copies += 1;
        }
    }
    Ok(copies)
}

// Gives the oldest block back to the ring, and tells where the log then stands.
pub fn reclaim<C: Chip>(chip: &mut C, log: Log) -> Result<Log, Fault>
    requires stands { Bounded (C.flash chip.old) log }
    requires idle { log.layout.cleared % 2 ≡ 0 }
    requires bits { log.layout.cleared < 32768 * log.layout.sizes.tally }
    ensures reclaims { Reclaimed (C.flash chip.old) log result (C.flash chip.new) }
    ensures stands { IfOk result (Bounded (C.flash chip.new)) }
{
    let copies = move_live(chip, log)?;
    free_oldest(chip, log.layout)?;
    Ok(Log {
        layout: Layout {
            sizes: log.layout.sizes,
            cleared: log.layout.cleared + 2,
        },
        claimed: (log.claimed + copies).saturating_sub(BLOCK_SLOTS),
    })
}
