// The rules about the last claimed slot.
ghost use Rattle.std.specs.Prelude.{◌≡◌, ◌+◌, ◌-◌, ◌≤◌, if◌then◌else◌};
ghost use Rattle.chip.specs.Ranges.{Tells};
ghost use Rattle.ring.specs.Logs.{claimed as claimed_of, is_live, log as log_in};
ghost use Rattle.ring.specs.Places.{positions};
ghost use Rattle.ring.specs.Turns.{Ready};
ghost use Rattle.ring.specs.Rules.{Copying};
ghost use Rattle.lookup.specs.Answers.{LiveFront};
ghost use Rattle.image.specs.Checks.{Checked};
ghost use Rattle.image.specs.Sevens.{FirstOf};

use crate::copy::covers;
use crate::flaw::Broken;
use crate::seven::{first_of, how_many};
use chip::Chip;
use ring::Position;
use ring::flags::{ends_group, is_unclosed_copy};
use ring::layout::{Layout, Log};
use ring::place::read_flags;

// Whether an unclosed copy is right: it stands behind the first block, and covers the first live slot there.
fn is_right_copy<C: Chip>(
    chip: &mut C,
    layout: Layout,
    at: Position,
    source: Option<Position>,
) -> bool
    requires ready { Ready (C.flash chip.old) layout.sizes layout.cleared }
    requires source { FirstOf (is_live (log_in (C.flash chip.old) layout.sizes layout.cleared)) source }
    ensures tells { Tells result (Copying (C.flash chip.old) layout.sizes layout.cleared at.0) }
    ensures keeps { C.flash chip.new ≡ C.flash chip.old }
{
    match source {
        Some(source) => at.turn() >= 1 && covers(chip, layout, at, source),
        None => false,
    }
}

// The slots that copies may take: the unclaimed ones, and the one of a copy that is not closed.
fn spare_slots(log: Log, copying: bool) -> u16
    requires inside { log.claimed ≤ positions log.layout.sizes log.layout.cleared }
    ensures { result ≡ positions log.layout.sizes log.layout.cleared - log.claimed + (if copying then 1 else 0) }
{
    log.unclaimed() + u16::from(copying)
}

// Checks rules 7 to 9, which are about the last claimed slot; `front` says which of the first seven positions are live.
pub fn check_last<C: Chip>(chip: &mut C, log: Log, front: [bool; 7]) -> Result<(), Broken>
    requires ready { Ready (C.flash chip.old) log.layout.sizes log.layout.cleared }
    requires claimed { log.claimed ≡ claimed_of (C.flash chip.old) log.layout.sizes log.layout.cleared }
    requires inside { log.claimed ≤ positions log.layout.sizes log.layout.cleared }
    requires front { LiveFront (C.flash chip.old) log.layout.sizes log.layout.cleared front }
    ensures checked { Checked (C.flash chip.old) log.layout.sizes log.layout.cleared 7 9 result }
    ensures keeps { C.flash chip.new ≡ C.flash chip.old }
{
    let Some(last) = log.last() else {
        return Ok(());
    };
    let place = last.slot(log.layout).0;
    let flags = read_flags(chip, log.layout, last);
    if log.layout.begun() {
        if ends_group(flags) {
            return Ok(());
        }
        return Err(Broken { rule: 7, place });
    }
    let copying = is_unclosed_copy(flags);
    if spare_slots(log, copying) < how_many(front) {
        return Err(Broken { rule: 8, place });
    }
    if !copying {
        return Ok(());
    }
    if is_right_copy(chip, log.layout, last, first_of(front)) {
        return Ok(());
    }
    Err(Broken { rule: 9, place })
}
