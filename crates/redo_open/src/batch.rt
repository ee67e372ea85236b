// Pages that are written together.
ghost use Rattle.std.specs.Prelude.{◌≡◌, ◌<◌, ◌++◌, ◌∷◌, ◌*◌, [], length, nat_le, IfOk};
ghost use Rattle.model_base.specs.{IsWithinLimits, user_length};

use model_base::Shape;
use std::alloc::{AllocError, Global};
use std::marker::Model;

/// Pages with their lsns, and their user bytes side by side. There is room for as many as the store has slots.
#[derive(Drop)]
pub(crate) struct Batch {
    shape: Shape,
    pairs: Vec<(u32, u64)>,
    users: Vec<u8>,
}

impl Model for Batch {
    ghost use Rattle.std.specs.Prelude.{vec_capacity};
    ghost use Rattle.redo_open.specs.Rewrite.{Gathered, HasBatchRoom};

    ghost Value = { Gathered };

    ghost view = { λ batch. record { shape = batch.shape; pairs = batch.pairs.items; users = batch.users.items } };

    ghost invariant = { λ batch. HasBatchRoom batch.shape (vec_capacity batch.pairs) (vec_capacity batch.users) };
}

impl Batch {
    /// A batch of no page.
    pub(crate) fn new(alloc: Global, shape: &Shape) -> Result<Batch, AllocError>
        requires limits { IsWithinLimits shape.now }
        ensures { IfOk result (λ batch. batch ≡ record { shape = shape.now; pairs = []; users = [] }) }
    {
        let slots = shape.slots as usize;
        let pairs = Vec::with_capacity(alloc, slots)?;
        let users = Vec::with_capacity(alloc, slots * shape.user_bytes() as usize)?;
        Ok(Batch {
            shape: *shape,
            pairs,
            users,
        })
    }

    /// The pages and their lsns.
    pub(crate) fn pairs(&self) -> &[(u32, u64)]
        ensures { result.now ≡ self.now.pairs }
    {
        &self.pairs
    }

    /// Their user bytes, joined.
    pub(crate) fn users(&self) -> &[u8]
        ensures { result.now ≡ self.now.users }
    {
        &self.users
    }

    /// Whether there is no room for one more.
    pub(crate) fn is_full(&self) -> bool
        ensures { result ≡ nat_le self.now.shape.slots (length self.now.pairs) }
    {
        self.shape.slots as usize <= self.pairs.len()
    }

    /// Adds a page.
    pub(crate) fn add(&mut self, page: u32, lsn: u64, user: &[u8])
        requires few { length self.old.pairs < self.old.shape.slots }
        requires joined { length self.old.users ≡ length self.old.pairs * user_length self.old.shape }
        requires long { length user.now ≡ user_length self.old.shape }
        ensures { self.new ≡ record { shape = self.old.shape; pairs = self.old.pairs ++ (page, lsn) ∷ []; users = self.old.users ++ user.now } }
    {
        self.pairs.push_reserved((page, lsn));
        self.users.extend_from_slice(user).unwrap();
    }

    /// Takes all pages away.
    pub(crate) fn clear(&mut self)
        ensures { self.new ≡ record { shape = self.old.shape; pairs = []; users = [] } }
    {
        self.pairs.clear();
        self.users.clear();
    }
}
