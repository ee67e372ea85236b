// The flusher's state.
use model_core::FlusherStep;
use std::marker::Model;

/// The flusher: it syncs the log device where something is written, and moves FLUSHED. Contracts see its state.
#[derive(Debug, Drop)]
pub struct Flusher {
    pub(crate) last: u64,
    pub(crate) write: u64,
    pub(crate) mark: u64,
    pub(crate) code: u32,
    pub(crate) checks: bool,
    pub(crate) step: FlusherStep,
}

impl Model for Flusher {
    ghost use Rattle.model_core.specs.{FlusherState};
    ghost use Rattle.redo_logactors.specs.FlusherView.{flusher_view};

    ghost Value = { FlusherState };

    ghost view = { flusher_view };
}
