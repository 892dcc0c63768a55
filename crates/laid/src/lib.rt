#![tactic(auto)]
// An image by the log that it carries.
