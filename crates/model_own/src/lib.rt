//! Users that write for themselves, as definitions: the errand on which a user does the log's work in place of a wait,
//! and one turn of such a store. Nothing runs here; that each turn keeps the invariant stands in `model_ownrun`.
#![tactic(auto)]

mod errand;

pub use errand::ErrandStep;
