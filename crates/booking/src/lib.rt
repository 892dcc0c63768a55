#![tactic(auto)]
// What the tally's bits and the erase between them leave.
