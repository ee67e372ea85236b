//! Pages that are read beside the turns of a running store, as definitions: what whoever reads a page knows between its
//! loads, and what a read came to. Each turn of any actor keeps that. Nothing runs here.
#![tactic(auto)]

mod read;

pub use read::{Glance, PageRead, ReadEnd};
