// Where a user that writes for itself stands on its errand.

/// Of a user that writes for itself: its errand, on which it does the log's work in place of a wait.
#[derive(Clone, Copy, Debug, PartialEq, Eq)]
pub enum ErrandStep {
    /// It is on none: it goes on with its own step.
    Done,
    /// It takes DEVICE, and the log's work with it.
    TakeDevice,
    /// It gives DEVICE back, since the log part has failed.
    GiveBroken,
    /// It does the writer's part.
    Write,
    /// It does the flusher's part: it syncs, if it is to, and gives DEVICE back.
    Flush,
}
