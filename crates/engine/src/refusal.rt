// Why a volume refuses a call.
ghost use Rattle.std.specs.Prelude.{◌≡◌, ◌<◌, ◌≤◌, [], ◌∷◌, length};
ghost use Rattle.engine.specs.Refusals.{numbers, Words, converted, flawed};

use chip::{Fault, Home};
use image::{Broken, Flaw};
use label::LabelFault;
use std::marker::Model;

#[derive(Clone, Copy, PartialEq, Eq, Debug)]
pub enum Refusal {
    // The volume is not started.
    NotStarted,
    // Put, close, drop: the ticket is not that of the open batch.
    OtherTicket,
    // Open: a batch is open.
    BatchOpen,
    // Open: there is no batch of that many puts.
    Count,
    // Read, put: the buffer is not as long as a page.
    Length,
    // Read, put: there is no such sector.
    NoSector,
    // Put: the batch has had all its puts.
    BatchFull,
    // Open: all tickets are given.
    NoTicket,
    // Format: sizes that do not fit the chip, or a name that is too long.
    Sizes,
    // Start: the label is at fault, at this byte.
    Label(LabelFault),
    // Start: a rule is broken.
    Rule(Broken),
    // Open: a reclaim is due, and the tally is spent.
    Spent,
    // A step was cut, at the block with this home.
    Cut(Home),
    // A step that the chip has not. No call asks for one.
    Range,
    // The chip was off where it should have power. No call finds it so.
    NoPower,
}

// A refusal's numbers: which one it is, and the values that come with it. A volume has no heap, so they are the first of
// three, and the rest are 0.
#[derive(Clone, Copy)]
pub struct Numbers {
    values: [usize; 3],
    count: usize,
}

// Callers see the list of those that count.
impl Model for Numbers {
    ghost use Rattle.std.specs.Prelude.{◌≡◌, ℕ, ◌≤◌, List, [], ◌∷◌, ◌++◌, length, take, refl};

    ghost Value = { List ℕ };

    ghost view = { λ n. take n.count n.values };

    ghost invariant = { λ n. (n.count ≤ 3) × (length n.values ≡ 3) × (length (take n.count n.values) ≡ n.count) × (take 3 (take n.count n.values ++ 0 ∷ 0 ∷ 0 ∷ []) ≡ n.values) };

    ghost inverse = { λ v. record { values = take 3 (v ++ 0 ∷ 0 ∷ 0 ∷ []); count = length v } };

    ghost inverse_ok = { λ n h. rw (h.2, h.3) refl };
}

// A refusal that comes with no value.
fn plain(number: usize) -> Numbers
    ensures { result ≡ number ∷ [] }
{
    Numbers {
        values: [number, 0, 0],
        count: 1,
    }
}

// A number of 16 bits, among a refusal's.
fn word(n: u16) -> usize
    ensures number { result ≡ n }
    ensures small { result < 65536 }
{
    usize::from(n)
}

impl Refusal {
    pub fn as_numbers(&self) -> Numbers
        ensures numbers { result ≡ numbers self.now }
        ensures words { Words self.now result }
    {
        match *self {
            Refusal::NotStarted => plain(1),
            Refusal::OtherTicket => plain(2),
            Refusal::BatchOpen => plain(3),
            Refusal::Count => plain(4),
            Refusal::Length => plain(5),
            Refusal::NoSector => plain(6),
            Refusal::BatchFull => plain(7),
            Refusal::NoTicket => plain(8),
            Refusal::Sizes => plain(9),
            Refusal::Label(fault) => Numbers {
                values: [10, fault.at, 0],
                count: 2,
            },
            Refusal::Rule(broken) => Numbers {
                values: [11, word(u16::from(broken.rule)), word(broken.place)],
                count: 3,
            },
            Refusal::Spent => plain(12),
            Refusal::Cut(home) => Numbers {
                values: [13, word(home.name), word(home.block)],
                count: 3,
            },
            Refusal::Range => plain(14),
            Refusal::NoPower => plain(15),
        }
    }
}

impl Numbers {
    // The numbers, the refusal's own first.
    pub fn as_slice(&self) -> &[usize]
        ensures numbers { result.now ≡ self.now }
        ensures few { length result.now ≤ 3 }
    {
        &self.values[0..self.count]
    }
}

// What a chip's fault is to the volume.
impl From<Fault> for Refusal {
    ghost from_gives = { λ f r. r ≡ converted f };

    fn from(f: Fault) -> Refusal {
        match f {
            Fault::Range => Refusal::Range,
            Fault::NoPower => Refusal::NoPower,
            Fault::Cut(home) => Refusal::Cut(home),
        }
    }
}

// What an image's flaw is to the volume.
impl From<Flaw> for Refusal {
    ghost from_gives = { λ f r. r ≡ flawed f };

    fn from(f: Flaw) -> Refusal {
        match f {
            Flaw::NoPower => Refusal::NoPower,
            Flaw::Label(fault) => Refusal::Label(fault),
            Flaw::Rule(broken) => Refusal::Rule(broken),
        }
    }
}
