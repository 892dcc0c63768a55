#![tactic(auto)]
// What an image is: its examination.
mod bytes;
mod copy;
mod flaw;
mod front;
mod last;
mod seven;
mod slots;
mod survey;
mod verdict;

pub use self::flaw::{Broken, Flaw};
pub use self::seven::first_of;
pub use self::survey::{Survey, find_sector, read_sector, read_slot, survey_image};
pub use self::verdict::examine;
pub use ring::layout::Log;
