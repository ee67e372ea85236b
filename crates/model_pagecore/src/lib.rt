//! The page half of the running store's invariant: what holds of latches, frames, flush lists, the recent-closed buffer
//! and the data part between any two turns, and that each step keeps it.
#![tactic(auto)]
