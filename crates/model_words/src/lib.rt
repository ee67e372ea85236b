//! What `clap` makes of the words of a call, and that it is what they ask for. Nothing runs here; what the words ask for
//! stands in `model_script`.
#![tactic(auto)]
