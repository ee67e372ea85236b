//! The invariant of a running store: both halves over one list of actors and one list of words, and that each turn of any
//! actor keeps it. What a run comes to, read off the invariant: its history is legal, its marks stand between its groups,
//! what is lost is lost by a failure, and the groups of its log are those of the script.
#![tactic(auto)]
