// The walk over the log from its newest slot back, which reads each directory once.
ghost use Rattle.std.specs.Prelude.{◌≡◌, ◌-◌, ◌<◌, ◌≤◌};
ghost use Rattle.chip.specs.Flash.{Flash};
ghost use Rattle.ring.specs.Directories.{Describes};
ghost use Rattle.ring.specs.Places.{block_at, chip_block, positions};
ghost use Rattle.ring.specs.Turns.{Ready};
ghost use Rattle.lookup.specs.Walks.{Walking, Stepped, hits};

use crate::flags::group_counts;
use chip::Chip;
use ring::directory::{Descriptor, read_descriptors};
use ring::layout::{Layout, Log};
use ring::{Position, Sector};

// How far a walk has come: the slots from `position` on are behind it.
#[derive(Clone, Copy)]
pub struct Walk {
    position: u16,
    // Whether a slot that does not end its group would count here.
    counting: bool,
    // The directory of the block that the walk came to last.
    held: Option<[Descriptor; 7]>,
}

// A slot that a walk comes to, and whether it counts.
#[derive(Clone, Copy)]
pub struct Visit {
    pub position: u16,
    pub sector: Sector,
    pub counts: bool,
}

impl Visit {
    // Whether the slot counts for a sector.
    pub fn hits(self, sector: Sector) -> bool
        ensures { result ≡ hits self sector.0 }
    {
        self.counts && self.sector == sector
    }
}

// The descriptors of the block that holds a position.
pub fn directory_of<C: Chip>(chip: &mut C, layout: Layout, at: Position) -> [Descriptor; 7]
    requires { Ready (C.flash chip.old) layout.sizes layout.cleared }
    ensures describes { Describes (C.flash chip.old) (chip_block layout.sizes (block_at layout.sizes layout.cleared at.0)) result }
    ensures keeps { C.flash chip.new ≡ C.flash chip.old }
{
    read_descriptors(chip, at.block(layout))
}

impl Walk {
    // A walk before its first step.
    pub fn from_newest(log: Log) -> Walk
        ensures place { result.position ≡ log.claimed }
        ensures walks { (s : Flash) → log.claimed ≤ positions log.layout.sizes log.layout.cleared → Walking s log result }
    {
        Walk {
            position: log.claimed,
            counting: false,
            held: None,
        }
    }

    // The directory of the block that holds the next slot back: the one at hand, unless the walk comes to a new block.
    fn next_directory<C: Chip>(&self, chip: &mut C, log: Log) -> [Descriptor; 7]
        requires ready { Ready (C.flash chip.old) log.layout.sizes log.layout.cleared }
        requires walks { Walking (C.flash chip.old) log self.now }
        requires some { 0 < self.now.position }
        ensures describes { Describes (C.flash chip.old) (chip_block log.layout.sizes (block_at log.layout.sizes log.layout.cleared (self.now.position - 1))) result }
        ensures keeps { C.flash chip.new ≡ C.flash chip.old }
    {
        match self.held {
            Some(descriptors) if Position(self.position).index() > 0 => descriptors,
            _ => directory_of(chip, log.layout, Position(self.position - 1)),
        }
    }

    // Goes one slot further back, until none is left.
    pub fn back<C: Chip>(&mut self, chip: &mut C, log: Log) -> Option<Visit>
        requires ready { Ready (C.flash chip.old) log.layout.sizes log.layout.cleared }
        requires walks { Walking (C.flash chip.old) log self.old }
        ensures steps { Stepped (C.flash chip.old) log self.old result self.new }
        ensures keeps { C.flash chip.new ≡ C.flash chip.old }
    {
        if self.position == 0 {
            return None;
        }
        let descriptors = self.next_directory(chip, log);
        let position = self.position - 1;
        let Descriptor { flags, sector } = descriptors[Position(position).index()];
        let counts = group_counts(flags, self.counting);
        *self = Walk {
            position,
            counting: counts,
            held: Some(descriptors),
        };
        Some(Visit {
            position,
            sector,
            counts,
        })
    }
}
