// The sizes of a store.

/// The sizes of a store, as its file header has them.
#[derive(Clone, Copy, Debug, PartialEq, Eq)]
pub struct Shape {
    /// Bytes of a page.
    pub page_size: u32,
    /// The number of pages.
    pub pages: u32,
    /// The space id, which every page and record carries.
    pub space: u32,
    /// The number of log blocks.
    pub log_blocks: u32,
    /// Slots of the doublewrite area.
    pub slots: u32,
}

impl Shape {
    ghost use Rattle.std.specs.Prelude.{◌≡◌, ◌≤◌};
    ghost use Rattle.model_base.specs.Limits.{default_shape, frame_length, IsWithinLimits, run_shape, user_length};

    /// User bytes of a page.
    pub fn user_bytes(&self) -> u32
        requires { frame_length ≤ self.now.page_size }
        ensures { result ≡ user_length self.now }
    {
        self.page_size - (crate::USER_START + crate::PAGE_TRAILER)
    }

    /// The sizes with which a run is made on a store of this shape, once it has the slots of the latest format.
    #[tactic(auto, using(crate::proofs::ShapeLimits::run_within))]
    pub fn run_shape(&self) -> Shape
        ensures shape { result ≡ run_shape self.now }
        ensures limits { IsWithinLimits self.now → IsWithinLimits (run_shape self.now) }
    {
        Shape {
            slots: crate::SLOTS,
            ..*self
        }
    }

    /// The shape of a store that is formatted without an option.
    #[tactic(auto, using(crate::proofs::ShapeLimits::default_within))]
    pub fn default_shape() -> Shape
        ensures shape { result ≡ default_shape }
        ensures limits { IsWithinLimits result }
    {
        Shape {
            page_size: crate::PAGE_SIZE,
            pages: crate::DEFAULT_PAGES,
            space: crate::DEFAULT_SPACE,
            log_blocks: crate::DEFAULT_LOG_BLOCKS,
            slots: crate::SLOTS,
        }
    }
}
