// What is gone but for the clauses.
ghost use Rattle.std.specs.Prelude.{◌≡◌, List, [], ◌++◌};
ghost use Rattle.std.specs.Borrow.{ftrue};

use std::marker::{Model, PhantomData};

/// Items that were let go. It has no bytes: clauses alone read them, as `items`.
#[derive(Drop)]
pub(crate) struct Past<T> {
    of: PhantomData<T>,
    pub ghost items: { List T },
}

impl<T> Model for Past<T> {
    ghost also_owns = { λ _. ftrue };
}

// It owns nothing.
unsafe impl<T> Send for Past<T> {}

unsafe impl<T> Sync for Past<T> {}

impl<T> Past<T> {
    /// No item.
    pub(crate) fn new() -> Past<T>
        ensures { result.items ≡ [] }
    {
        Past { of: PhantomData }
    }

    /// With these behind its own.
    pub(crate) fn with(&self, more: &Vec<T>) -> Past<T>
        ensures { result.items ≡ self.now.items ++ more.now.items }
    {
        let _ = more;
        Past { of: PhantomData }
    }
}
