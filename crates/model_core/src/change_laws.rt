// The changed cells of a group are what applying it changes.
ghost use Rattle.std.specs.Prelude.{ℕ, ◌≡◌, ◌<◌, List, length, slice_index, if◌then◌else◌};
ghost use Rattle.model_base.specs.{user_length};
ghost use Rattle.model_base.specs.declared.shape.Shape.{Shape};
ghost use Rattle.model_core.specs.Writes.{value_at, writes};
ghost use Rattle.model_log.specs.{GroupFits};
ghost use Rattle.model_log.specs.declared.rec.Rec.{Rec};
ghost use Rattle.model_store.specs.{user_after};

/// A user byte of a page after a group: where the group changes its cell the value of that, else what it was.
pub fn cells_decide()
    ensures { (shape : Shape) (group : List Rec) (p j : ℕ) (user : List ℕ) → GroupFits shape group
        → length user ≡ user_length shape → j < user_length shape
        → slice_index (user_after p group user) j ≡ (if writes shape p group j then value_at shape p group j
        else slice_index user j) }
{}
