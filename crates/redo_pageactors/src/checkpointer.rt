// The checkpointer's state.
use model_core::CheckpointerStep;
use std::marker::Model;

/// The checkpointer: it writes checkpoints at lsns below which no page lacks a group, and moves CKPT. Contracts see its
/// state.
#[derive(Debug, Drop)]
pub struct Checkpointer {
    pub(crate) own: u64,
    pub(crate) ctail: u64,
    pub(crate) flushed: u64,
    pub(crate) to: u64,
    pub(crate) list: u32,
    pub(crate) first: u32,
    pub(crate) last: u32,
    pub(crate) reader: u32,
    pub(crate) code: u32,
    pub(crate) checks: bool,
    pub(crate) step: CheckpointerStep,
}

impl Model for Checkpointer {
    ghost use Rattle.model_core.specs.{CheckpointerState};
    ghost use Rattle.redo_pageactors.specs.CheckpointerView.{checkpointer_view, IsCheckpointer};

    ghost Value = { CheckpointerState };

    ghost view = { checkpointer_view };

    ghost invariant = { IsCheckpointer };
}
