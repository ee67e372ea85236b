//! The tests of runs in threads: what no contract says of them, that they end, and where a user passes the gate. The seats of a
//! shared store are played in turn too, by one thread.
#![tactic(auto, using(model_base::proofs::ShapeLimits::default_page_size))]

#[cfg(test)]
mod following;
#[cfg(test)]
mod runs;
#[cfg(test)]
mod seats;
#[cfg(test)]
mod store;
#[cfg(test)]
mod text;
#[cfg(test)]
mod told;
#[cfg(test)]
mod waking;
#[cfg(test)]
mod watch;
