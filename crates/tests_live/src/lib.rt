//! The tests of a live store: what no clause says of it, that its commits are answered beside one another, and that close ends.
#![tactic(auto)]

#[cfg(test)]
mod chain;
#[cfg(test)]
mod commits;
#[cfg(test)]
mod lines;
#[cfg(test)]
mod pages;
#[cfg(test)]
mod refusals;
#[cfg(test)]
mod stops;
#[cfg(test)]
mod store;
