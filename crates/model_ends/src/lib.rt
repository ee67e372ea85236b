//! A run by turns ends: with the log alone, turns one after another end each user within a number of turns that the script
//! and its sizes give, from each state that the run can reach, and whatever the device calls answer. The theorem stands in
//! `proofs/Starts.antt`: a turn either makes a number smaller, or it is one of a wait, and brings an actor nearer to a turn
//! that does.
//!
//! With pages, and whoever reads the log, three things hold of each state that any turns reach: once FAILED has a code, turns
//! one after another end the run within a number that the script gives (`proofs/FailedEnds.antt`); the writer never waits for
//! space in the log (`proofs/Beside.antt`); and from a user that waits for a latch the holders lead to an actor that waits for
//! none (`proofs/LatchOrder.antt`).
#![tactic(auto)]
