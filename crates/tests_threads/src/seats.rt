// The seats of a shared store, played in turn by one thread, worked out by hand to the Op.
mod plays;
mod store;
mod turns;
