// The closer's state.
use model_core::CloserStep;
use redo_link::Advance;
use std::marker::Model;

/// The closer: it advances the tail of the recent-closed buffer. Contracts see its state.
#[derive(Debug, Drop)]
pub struct Closer {
    pub(crate) advance: Advance,
    pub(crate) code: u32,
    pub(crate) checks: bool,
    pub(crate) step: CloserStep,
}

impl Model for Closer {
    ghost use Rattle.model_core.specs.{CloserState};
    ghost use Rattle.redo_logactors.specs.CloserView.{closer_view, IsCloser};

    ghost Value = { CloserState };

    ghost view = { closer_view };

    ghost invariant = { IsCloser };
}
