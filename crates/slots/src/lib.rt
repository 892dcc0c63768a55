#![tactic(auto)]
// What the programs of a slot leave.
