// Why a script isn't run on a store.
ghost use Rattle.std.specs.Prelude.{◌≡◌};
ghost use Rattle.redo_script.specs.declared.unfit.Unfit.TheVariants.{NoMemory};

use model_script::Misfit;
use redo_lsn::NoMemory as WantOfMemory;
use thiserror::Error;

/// Why a script isn't run on a store.
#[derive(Clone, Copy, Debug, PartialEq, Eq, Error)]
pub enum Unfit {
    /// A quantity of it doesn't fit the store.
    #[error("a quantity of the script doesn't fit the store")]
    Misfit(Misfit),
    /// Memory ran out.
    #[error("out of memory")]
    NoMemory,
}

impl From<WantOfMemory> for Unfit {
    ghost from_gives = { λ _ unfit. unfit ≡ NoMemory };

    fn from(_error: WantOfMemory) -> Unfit {
        Unfit::NoMemory
    }
}
