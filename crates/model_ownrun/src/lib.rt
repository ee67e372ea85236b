//! What holds between any two turns of a store whose users write for themselves, and that each turn keeps it; and that a user
//! alone is never idle.
#![tactic(auto)]
