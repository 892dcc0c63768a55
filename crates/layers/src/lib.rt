#![tactic(auto)]
// Chips made of other chips: a window on one, and a joint of two.
pub mod joint;
pub mod window;
