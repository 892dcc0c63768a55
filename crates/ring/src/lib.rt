#![tactic(auto)]
// The numbers of a volume's ring: sectors, slots, and ring blocks are not each other.

// The number of a sector, as a user has it.
#[derive(Clone, Copy, PartialEq, Eq, Debug)]
pub struct Sector(pub u16);

// The number of a slot, around the ring.
#[derive(Clone, Copy, PartialEq, Eq, Debug)]
pub struct Slot(pub u16);

// The number of a block of the ring.
#[derive(Clone, Copy, PartialEq, Eq, Debug)]
pub struct RingBlock(pub u16);

// A place in the log, counted from its first slot.
#[derive(Clone, Copy, PartialEq, Eq, Debug)]
pub struct Position(pub u16);

pub mod directory;
pub mod flags;
pub mod layout;
pub mod place;
