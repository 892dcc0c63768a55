#![tactic(auto)]
// Runs of many calls, and the law that holds of them all.
mod run;

pub use self::run::{Answer, Call, Reply, run_calls};
