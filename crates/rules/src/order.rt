// The rule that claimed slots are filled in their order, and that a copy begins no sooner than a group ends.
ghost use Rattle.std.specs.Prelude.{◌≡◌, suc, ◌-◌, ◌/◌, ◌%◌, ◌<◌, true, false, slice_index_or};
ghost use Rattle.chip.specs.Ranges.{Tells};
ghost use Rattle.ring.specs.Directories.{none};
ghost use Rattle.ring.specs.Logs.{claimed as claimed_of, ends, is_copy};
ghost use Rattle.ring.specs.Places.{flags_at};
ghost use Rattle.ring.specs.Rules.{Misplaced, unfilled};
ghost use Rattle.ring.specs.Turns.{Ready};
ghost use Rattle.rules.specs.Breaches.{Shows};

use crate::turns::read_turn;
use chip::Chip;
use ring::Position;
use ring::directory::Descriptor;
use ring::flags::{ends_group, is_copy, is_unfilled};
use ring::layout::{Layout, Log};

// The flags of the position before one of a block with these descriptors. That of a block's first slot is in the turn
// before.
fn flags_before<C: Chip>(chip: &mut C, layout: Layout, at: Position, slots: &[Descriptor]) -> u8
    requires ready { Ready (C.flash chip.old) layout.sizes layout.cleared }
    requires shows { Shows (C.flash chip.old) layout.sizes layout.cleared (at.0 / 7) slots.now }
    requires behind { 0 < at.0 }
    ensures flags { result ≡ flags_at (C.flash chip.old) layout.sizes layout.cleared (at.0 - 1) }
    ensures keeps { C.flash chip.new ≡ C.flash chip.old }
{
    let before = Position(at.0 - 1);
    if at.index() > 0 {
        return slots[before.index()].flags;
    }
    let behind = read_turn(chip, layout, before.turn());
    behind[before.index()].flags
}

// Whether a slot is not filled, though another is claimed behind it.
fn is_unfinished(at: Position, claimed: u16, flags: u8) -> bool
    ensures { Tells result ((suc at.0 < claimed) × (unfilled flags ≡ true)) }
{
    at.0.saturating_add(1) < claimed && is_unfilled(flags)
}

// Whether the slot at a position, of a block with these descriptors, is a copy that stands inside a group.
fn splits_group<C: Chip>(chip: &mut C, log: Log, at: Position, slots: &[Descriptor]) -> bool
    requires ready { Ready (C.flash chip.old) log.layout.sizes log.layout.cleared }
    requires shows { Shows (C.flash chip.old) log.layout.sizes log.layout.cleared (at.0 / 7) slots.now }
    ensures tells { Tells result ((0 < at.0) × (at.0 < log.claimed) × (is_copy (slice_index_or slots.now (at.0 % 7) none).flags ≡ true) × (ends (flags_at (C.flash chip.old) log.layout.sizes log.layout.cleared (at.0 - 1)) ≡ false)) }
    ensures keeps { C.flash chip.new ≡ C.flash chip.old }
{
    if at.0 == 0 || at.0 >= log.claimed || !is_copy(slots[at.index()].flags) {
        return false;
    }
    !ends_group(flags_before(chip, log.layout, at, slots))
}

// Whether the slot at a position, of a block with these descriptors, breaks the order of the claimed slots.
pub fn is_misplaced<C: Chip>(chip: &mut C, log: Log, at: Position, slots: &[Descriptor]) -> bool
    requires ready { Ready (C.flash chip.old) log.layout.sizes log.layout.cleared }
    requires count { log.claimed ≡ claimed_of (C.flash chip.old) log.layout.sizes log.layout.cleared }
    requires shows { Shows (C.flash chip.old) log.layout.sizes log.layout.cleared (at.0 / 7) slots.now }
    ensures tells { Tells result (Misplaced (C.flash chip.old) log.layout.sizes log.layout.cleared at.0) }
    ensures keeps { C.flash chip.new ≡ C.flash chip.old }
{
    is_unfinished(at, log.claimed, slots[at.index()].flags) || splits_group(chip, log, at, slots)
}
