#![tactic(auto)]
// The steps by which a volume writes, and the reads that they need, on a ring whose layout is known.
pub mod entry;
pub mod erase;
pub mod slot;
mod step;
