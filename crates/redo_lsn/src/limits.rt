// Which shapes a store may have.
ghost use Rattle.std.specs.Prelude.{◌≡◌, ◌↔◌, ◌||◌, IsTrue};
ghost use Rattle.model_base.specs.{has_early_sizes, has_sizes, is_page_size, is_within_limits, IsWithinLimits};
ghost use Rattle.model_log.specs.{has_sizes_of};

use model_base::{
    EARLY_SLOTS, LARGE_PAGE_SIZE, MAX_EARLY_PAGES, MAX_LOG_BLOCKS, MAX_PAGES, MIN_LOG_BLOCKS,
    PAGE_SIZE, SLOTS, Shape,
};
use model_log::Format;

/// Whether a page may have so many bytes.
fn is_page_size(bytes: u32) -> bool
    ensures { result ≡ is_page_size bytes }
{
    bytes == PAGE_SIZE || bytes == LARGE_PAGE_SIZE
}

/// Whether these are the sizes of a store as one is made.
fn has_sizes(shape: &Shape) -> bool
    ensures { result ≡ has_sizes shape.now }
{
    is_page_size(shape.page_size) && shape.pages <= MAX_PAGES && shape.slots == SLOTS
}

/// Whether they are those of a store of format 1 or 2.
fn has_early_sizes(shape: &Shape) -> bool
    ensures { result ≡ has_early_sizes shape.now }
{
    shape.page_size == PAGE_SIZE && shape.pages <= MAX_EARLY_PAGES && shape.slots == EARLY_SLOTS
}

/// Whether either is so.
fn has_some_sizes(shape: &Shape) -> bool
    ensures { result ≡ (has_sizes shape.now || has_early_sizes shape.now) }
{
    has_sizes(shape) || has_early_sizes(shape)
}

/// Whether a store of this format may have these sizes.
pub fn has_sizes_of(format: Format, shape: &Shape) -> bool
    ensures { result ≡ has_sizes_of format shape.now }
{
    match format {
        Format::One | Format::Two => has_early_sizes(shape),
        Format::Three => has_sizes(shape),
    }
}

/// Whether each size is one that a store may have.
fn passes(shape: &Shape) -> bool
    ensures { result ≡ is_within_limits shape.now }
{
    let sizes = *shape;
    1 <= sizes.pages
        && MIN_LOG_BLOCKS <= sizes.log_blocks
        && sizes.log_blocks <= MAX_LOG_BLOCKS
        && has_some_sizes(shape)
}

/// What is asked of the sizes of a store.
pub trait Limits {
    /// Whether each size is one that a store may have.
    fn is_within_limits(&self) -> bool;
}

impl Limits for Shape {
    #[tactic(auto, using(model_base::proofs::ShapeLimits::is_within_limits_facts, model_base::proofs::ShapeLimits::is_within_limits_true))]
    fn is_within_limits(&self) -> bool
        ensures test { result ≡ is_within_limits self.now }
        ensures facts { IsTrue result ↔ IsWithinLimits self.now }
    {
        passes(self)
    }
}
