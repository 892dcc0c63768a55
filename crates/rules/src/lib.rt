#![tactic(auto)]
// The rules that an image of a volume keeps, as far as each is about one block or slot of the log: the first place
// at which a rule is broken.

mod bytes;
mod claimed;
mod directories;
mod order;
mod slots;
mod turns;
mod unclaimed;

pub use self::claimed::claimed_slots;
pub use self::directories::scribbled_block;
pub use self::slots::{beyond_slot, illegal_slot, misplaced_slot, unclean_slot};
