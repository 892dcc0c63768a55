#![tactic(auto)]
// What sectors hold, as a log grows, is closed and loses its front.
