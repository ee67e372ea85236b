// What holds of every log. A caller learns it by calling a function that does nothing.
ghost use Rattle.std.specs.Prelude.{◌≡◌, ◌≤◌, ◌<◌, ◌%◌, ◌^◌, ℕ, List, length, All, IsTrue};
ghost use Rattle.model_base.specs.declared.shape.Shape.{Shape};
ghost use Rattle.model_base.specs.declared.limits.TheConstants.{BLOCK_SIZE, START_LSN, LSN_LIMIT};
ghost use Rattle.model_base.specs.{IsWithinLimits};
ghost use Rattle.model_log.specs.Ring.{IsLayout};
ghost use Rattle.model_log.specs.declared.head.Format.{Format};
ghost use Rattle.model_log.specs.declared.layout.Layout.{Layout};
ghost use Rattle.model_log.specs.Block.{lsn_of, sn_of, length_of, block_text, is_first, read_block, data_of};
ghost use Rattle.model_log.specs.Boundary.{IsDataLsn};
ghost use Rattle.model_log.specs.Device.{place_of, checkpoint_text, read_checkpoint, has_sizes_of, read_head};
ghost use Rattle.model_log.specs.HeadText.{head_text};
ghost use Rattle.model_log.specs.declared.head.Head.TheVariants.{Good};
ghost use Rattle.model_log.specs.declared.layout.TheConstants.{BLOCK_DATA};

/// An sn leads to a data lsn and back, each data lsn leads to its sn and back, and the bytes keep their order.
pub fn lsn_and_sn()
    ensures back { (n : ℕ) → sn_of (lsn_of n) ≡ n }
    ensures data { (n : ℕ) → IsDataLsn (lsn_of n) }
    ensures forth { (lsn : ℕ) → IsDataLsn lsn → lsn_of (sn_of lsn) ≡ lsn }
    ensures rising { (m n : ℕ) → m < n → lsn_of m < lsn_of n }
{}

/// A block that was written is read back, and so is its data.
pub fn block_reads_back()
    ensures view { (lsn : ℕ) (content : List ℕ) (first ckpt : ℕ) → length content ≤ BLOCK_DATA
        → All (λ byte. byte < 256) content → ckpt < 2 ^ 32 → IsTrue (is_first (length_of (length content)) first)
        → read_block lsn (block_text lsn content first ckpt)
        ≡ Some (record { length = length_of (length content); first = first; ckpt = ckpt }) }
    ensures content { (lsn : ℕ) (content : List ℕ) (first ckpt : ℕ) → length content ≤ BLOCK_DATA
        → data_of (record { length = length_of (length content); first = first; ckpt = ckpt })
        (block_text lsn content first ckpt) ≡ content }
{}

/// A checkpoint that was written is read in its place.
pub fn checkpoint_reads_back()
    ensures { (number lsn : ℕ) (layout : Layout) → IsLayout layout → number < 2 ^ 64 → START_LSN ≤ lsn → lsn < LSN_LIMIT
        → lsn % BLOCK_SIZE ≡ 0
        → read_checkpoint (place_of number) layout (checkpoint_text number lsn layout) ≡ Some (number, lsn) }
{}

/// The header of a store is read as that.
pub fn head_reads_back()
    ensures { (format : Format) (shape : Shape) → IsWithinLimits shape → IsTrue (has_sizes_of format shape)
        → read_head (head_text format shape) ≡ Good format shape }
{}
