// Runs by turns on devices in memory, worked out by hand to the turn.
mod candidate;
mod following;
mod log;
mod own;
mod pages;
mod ring;
mod rounds;
mod runs;
mod store;
mod tails;
mod unsynced;
