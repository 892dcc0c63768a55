// Repairs: what a start does to an image that keeps the rules.
ghost use Rattle.std.specs.Prelude.{◌≡◌, ◌+◌, ◌%◌, true};
ghost use Rattle.ring.specs.Logs.{unclosed_copy};
ghost use Rattle.image.specs.Surveys.{Bounded};
ghost use Rattle.upkeep.specs.Repairs.{last_of, Mended, Repaired};

use chip::{Chip, Fault};
use image::first_of;
use lookup::live_front;
use ring::Position;
use ring::flags::{ends_group, is_unclosed_copy};
use ring::layout::{Layout, Log};
use ring::place::read_flags;
use writes::entry::{Entry, read_entry};
use writes::erase::rebook;
use writes::slot::{drop_slot, finish_copy};

// Finishes the copy that is the last claimed slot, from the first live position.
fn finish_last<C: Chip>(chip: &mut C, log: Log, last: Position) -> Result<(), Fault>
    requires stands { Bounded (C.flash chip.old) log }
    requires idle { log.layout.cleared % 2 ≡ 0 }
    requires last { last.0 + 1 ≡ log.claimed }
    requires copy { unclosed_copy (last_of (C.flash chip.old) log.layout.sizes log.layout.cleared log.claimed) ≡ true }
    ensures { Mended (C.flash chip.old) log result (C.flash chip.new) }
{
    let Some(source) = first_of(live_front(chip, log)) else {
        return Ok(());
    };
    let mut entry = Entry::BLANK;
    read_entry(chip, log.layout, source, &mut entry);
    finish_copy(chip, log.layout, last, entry.sector, &entry.page)
}

// Ends what the last claimed slot has left open: a copy is finished, and any other group is dropped.
fn mend_last<C: Chip>(chip: &mut C, log: Log) -> Result<(), Fault>
    requires { (Bounded (C.flash chip.old) log) × (log.layout.cleared % 2 ≡ 0) }
    ensures { Mended (C.flash chip.old) log result (C.flash chip.new) }
{
    let Some(last) = log.last() else {
        return Ok(());
    };
    let flags = read_flags(chip, log.layout, last);
    if is_unclosed_copy(flags) {
        return finish_last(chip, log, last);
    }
    if ends_group(flags) {
        return Ok(());
    }
    drop_slot(chip, log.layout, last)
}

// Repairs an image by its log, and tells where the log then stands.
pub fn repair<C: Chip>(chip: &mut C, log: Log) -> Result<Log, Fault>
    requires { Bounded (C.flash chip.old) log }
    ensures { Repaired (C.flash chip.old) log result (C.flash chip.new) }
{
    if log.layout.begun() {
        rebook(chip, log.layout)?;
        let layout = Layout {
            sizes: log.layout.sizes,
            cleared: log.layout.cleared + 1,
        };
        return Ok(Log { layout, ..log });
    }
    mend_last(chip, log)?;
    Ok(log)
}
