#![tactic(auto)]
// The upkeep of a volume: repairs after a cut, and reclaims.
mod reclaims;
mod repairs;
mod room;

pub use self::reclaims::reclaim;
pub use self::repairs::repair;
pub use self::room::{Room, make_room};
