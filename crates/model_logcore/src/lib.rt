//! The log half of the running store's invariant: what holds of the ring, the links, the marks and the log part between
//! any two turns, and that each step keeps it.
#![tactic(auto)]
