//! Tests of recovery, and of formatting and opening, on stores that are built byte by byte; and of runs by turns.
#![tactic(auto, using(model_base::proofs::ShapeLimits::default_page_size))]

#[cfg(test)]
mod batches;
#[cfg(test)]
mod fixtures;
#[cfg(test)]
mod formatting;
#[cfg(test)]
mod lies;
#[cfg(test)]
mod opening;
#[cfg(test)]
mod recovery;
#[cfg(test)]
mod stops;
#[cfg(test)]
mod store;
#[cfg(test)]
mod turns;
#[cfg(test)]
mod workers;
