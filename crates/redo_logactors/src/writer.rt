// The writer's state.
use model_core::{BUFFER_BLOCKS, WriterStep};
use model_log::BLOCK_DATA;
use redo_link::Advance;
use std::marker::Model;

/// Blocks of which the writer may hold bytes: as many as the log buffer spans.
pub(crate) const KEPT_BLOCKS: usize = BUFFER_BLOCKS as usize;
/// Bytes that it may hold.
pub(crate) const KEPT_BYTES: usize = (BLOCK_DATA * BUFFER_BLOCKS) as usize;

/// The writer: it advances the tail of the recent-written buffer, reads the groups below the tail out of the log buffer,
/// writes them, and moves WRITE. Contracts see its state.
#[derive(Debug, Drop)]
pub struct Writer {
    pub(crate) blocks: u64,
    pub(crate) tail: u64,
    pub(crate) write: u64,
    pub(crate) from: u64,
    pub(crate) kept: Vec<u8>,
    pub(crate) firsts: Vec<u32>,
    pub(crate) advance: Advance,
    pub(crate) first: u32,
    pub(crate) word: u64,
    pub(crate) ckpt: u64,
    pub(crate) code: u32,
    pub(crate) checks: bool,
    pub(crate) step: WriterStep,
}

impl Model for Writer {
    ghost use Rattle.model_core.specs.{WriterState};
    ghost use Rattle.redo_logactors.specs.WriterView.{writer_view, IsWriter};

    ghost Value = { WriterState };

    ghost view = { writer_view };

    ghost invariant = { IsWriter };
}
