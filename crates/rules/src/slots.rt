// The rules that each slot of the log keeps by itself, and the first slot that breaks one.
ghost use Rattle.std.specs.Prelude.{◌≡◌, ℕ, ◌/◌, ◌<◌, ◌≤◌, true};
ghost use Rattle.chip.specs.Ranges.{Tells};
ghost use Rattle.ring.specs.Logs.{claimed as claimed_of};
ghost use Rattle.ring.specs.Places.{slot_at};
ghost use Rattle.ring.specs.Rules.{At, Illegal, Unclean, Misplaced, Beyond, numbered};
ghost use Rattle.ring.specs.Turns.{Ready, turns_of};
ghost use Rattle.rules.specs.Breaches.{Asked};
ghost use Rattle.rules.specs.Firsts.{FirstSlot, FirstAtTurn};

use crate::order::is_misplaced;
use crate::turns::read_turn;
use crate::unclaimed::is_unclean;
use chip::Chip;
use ring::directory::{BLOCK_SLOTS, Descriptor};
use ring::flags::{is_legal, is_numbered};
use ring::layout::{Layout, Log};
use ring::{Position, RingBlock, Slot};
use std::marker::Brand;

// A property of positions of the log, for proofs alone: a search's caller names the one that its test tells.
trait Property {
    ghost holds: { ℕ → Type 0 };
}

// The caller's proof puts its own in place of this one.
impl Property for Brand {
    ghost holds = { λ _. ⊥ };
}

// Whether a slot has a sector number that is too large.
fn is_beyond(slot: Descriptor, sectors: u16) -> bool
    ensures { Tells result ((numbered slot.flags ≡ true) × (sectors ≤ slot.sector.0)) }
{
    is_numbered(slot.flags) && slot.sector.0 >= sectors
}

// The first slot of the block at a turn of the log at whose position a test says yes.
fn first_at_turn<C: Chip, P: Property, T: Fn(&mut C, Position, &[Descriptor]) -> bool>(
    chip: &mut C,
    layout: Layout,
    test: &T,
    turn: u16,
) -> Option<u16>
    requires ready { Ready (C.flash chip.old) layout.sizes layout.cleared }
    requires may { (on : _) (at : _) (slots : _) → Asked (C.flash chip.old) layout.sizes layout.cleared (C.flash on.now) at.0 slots.now → T.pre test.now on at slots }
    requires tells { (on : _) (at : _) (slots : _) (answer : _) (left : _) → Asked (C.flash chip.old) layout.sizes layout.cleared (C.flash on.now) at.0 slots.now → T.post test.now on at slots answer left → Tells answer (P.holds at.0) × (C.flash left.now ≡ C.flash chip.old) }
    requires inside { turn < turns_of layout.sizes layout.cleared }
    ensures first { FirstAtTurn P.holds turn result }
    ensures keeps { C.flash chip.new ≡ C.flash chip.old }
{
    let slots = read_turn(chip, layout, turn);
    for j in 0..BLOCK_SLOTS {
        if test(chip, Position(BLOCK_SLOTS * turn + j), &slots) {
            return Some(j);
        }
    }
    None
}

// The first slot around the ring at whose position a test says yes. A block that is being erased has no turn, so no
// position lies in it.
fn first_slot<C: Chip, P: Property, T: Fn(&mut C, Position, &[Descriptor]) -> bool>(
    chip: &mut C,
    layout: Layout,
    test: T,
) -> Option<Slot>
    requires ready { Ready (C.flash chip.old) layout.sizes layout.cleared }
    requires may { (on : _) (at : _) (slots : _) → Asked (C.flash chip.old) layout.sizes layout.cleared (C.flash on.now) at.0 slots.now → T.pre test on at slots }
    requires tells { (on : _) (at : _) (slots : _) (answer : _) (left : _) → Asked (C.flash chip.old) layout.sizes layout.cleared (C.flash on.now) at.0 slots.now → T.post test on at slots answer left → Tells answer (P.holds at.0) × (C.flash left.now ≡ C.flash chip.old) }
    ensures first { FirstSlot (At layout.sizes layout.cleared (slot_at layout.sizes layout.cleared) P.holds) result }
    ensures keeps { C.flash chip.new ≡ C.flash chip.old }
{
    for b in 0..layout.sizes.ring {
        if let Some(turn) = layout.turn_of(RingBlock(b)) {
            if let Some(j) = first_at_turn::<C, P, T>(chip, layout, &test, turn) {
                return Some(Slot(BLOCK_SLOTS * b + j));
            }
        }
    }
    None
}

// The first slot whose flags are not legal.
pub fn illegal_slot<C: Chip>(chip: &mut C, layout: Layout) -> Option<Slot>
    requires { Ready (C.flash chip.old) layout.sizes layout.cleared }
    ensures first { FirstSlot (At layout.sizes layout.cleared (slot_at layout.sizes layout.cleared) (Illegal (C.flash chip.old) layout.sizes layout.cleared)) result }
    ensures keeps { C.flash chip.new ≡ C.flash chip.old }
{
    first_slot::<C, Brand, _>(
        chip,
        layout,
        |_, at, slots| !is_legal(slots[at.index()].flags),
    )
}

// The first slot behind the `claimed` ones that is not erased.
pub fn unclean_slot<C: Chip>(chip: &mut C, log: Log) -> Option<Slot>
    requires ready { Ready (C.flash chip.old) log.layout.sizes log.layout.cleared }
    requires count { log.claimed ≡ claimed_of (C.flash chip.old) log.layout.sizes log.layout.cleared }
    ensures first { FirstSlot (At log.layout.sizes log.layout.cleared (slot_at log.layout.sizes log.layout.cleared) (Unclean (C.flash chip.old) log.layout.sizes log.layout.cleared)) result }
    ensures keeps { C.flash chip.new ≡ C.flash chip.old }
{
    first_slot::<C, Brand, _>(chip, log.layout, |chip, at, _| is_unclean(chip, log, at))
}

// The first of the `claimed` slots that is out of order.
pub fn misplaced_slot<C: Chip>(chip: &mut C, log: Log) -> Option<Slot>
    requires ready { Ready (C.flash chip.old) log.layout.sizes log.layout.cleared }
    requires count { log.claimed ≡ claimed_of (C.flash chip.old) log.layout.sizes log.layout.cleared }
    ensures first { FirstSlot (At log.layout.sizes log.layout.cleared (slot_at log.layout.sizes log.layout.cleared) (Misplaced (C.flash chip.old) log.layout.sizes log.layout.cleared)) result }
    ensures keeps { C.flash chip.new ≡ C.flash chip.old }
{
    first_slot::<C, Brand, _>(
        chip,
        log.layout,
        |chip, at, slots| is_misplaced(chip, log, at, slots),
    )
}

// The first slot whose sector number is not one of the volume's.
pub fn beyond_slot<C: Chip>(chip: &mut C, layout: Layout) -> Option<Slot>
    requires { Ready (C.flash chip.old) layout.sizes layout.cleared }
    ensures first { FirstSlot (At layout.sizes layout.cleared (slot_at layout.sizes layout.cleared) (Beyond (C.flash chip.old) layout.sizes layout.cleared)) result }
    ensures keeps { C.flash chip.new ≡ C.flash chip.old }
{
    first_slot::<C, Brand, _>(
        chip,
        layout,
        |_, at, slots| is_beyond(slots[at.index()], layout.sizes.sectors),
    )
}
