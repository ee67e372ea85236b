// What holds of the blocks of a run, as they stand once everything below a boundary is written.
ghost use Rattle.std.specs.Prelude.{◌≡◌, ◌≤◌, ◌<◌, ◌+◌, ◌-◌, ◌*◌, ◌%◌, ◌^◌, ℕ, List, length, take, drop};
ghost use Rattle.model_base.specs.declared.limits.TheConstants.{BLOCK_SIZE};
ghost use Rattle.model_log.specs.declared.group.Whole.{Whole};
ghost use Rattle.model_log.specs.Block.{sn_of, block_of, IsAtDataStart, length_of, length_at, framed};
ghost use Rattle.model_log.specs.Boundary.{IsDataLsn, content_at, IsBoundaryBlock, IsGivenTo};
ghost use Rattle.model_log.specs.declared.layout.TheConstants.{BLOCK_HEADER};

/// The data length of the block at b for the boundary m is that of the bytes it holds, where m is the place of a
/// byte, the run starts at the first data byte of a block, and the stream reaches m.
pub fn boundary_length()
    ensures { (s m b : ℕ) (stream : List ℕ) → IsAtDataStart s → IsDataLsn m → b % BLOCK_SIZE ≡ 0 → block_of s ≤ b
        → b + BLOCK_HEADER < m → sn_of m - sn_of s ≤ length stream
        → length_of (length (content_at s stream m b)) ≡ length_at m b }
{}

/// What is cut from the bytes that a writer is given are the blocks of the boundary.
pub fn given_is_framed()
    ensures { (s : ℕ) (wholes : List Whole) (from mark ckpt i : ℕ) (bytes firsts : List ℕ) → IsAtDataStart s
        → block_of s ≤ from → from % BLOCK_SIZE ≡ 0 → ckpt < 2 ^ 32 → IsGivenTo s wholes from mark bytes firsts
        → i < length firsts → IsBoundaryBlock s wholes mark (from + BLOCK_SIZE * i)
        (take BLOCK_SIZE (drop (BLOCK_SIZE * i) (framed bytes from firsts ckpt))) }
{}
