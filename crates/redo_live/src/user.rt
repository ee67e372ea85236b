// A user of a live store.
use redo_disk::Sectors;
use redo_follow::Tally;
use redo_ownrule::Player;
use redo_rule::Seat;

/// A user of a live store, which commits one group after the other. In memory it holds the last one alone, however many it has
/// committed. It may go to another thread. The store takes it back as it is closed, and closes without it if it was dropped; but
/// only of a user that came back it is told that its commits are kept.
#[derive(Drop)]
pub struct User<L: Sectors, D: Sectors> {
    pub(crate) seat: Seat<L, D>,
    pub(crate) player: Player<Tally>,
    // how many bytes its groups have together
    pub(crate) used: u64,
}
