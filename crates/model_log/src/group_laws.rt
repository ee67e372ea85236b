// What holds of the texts of groups. A caller learns it by calling a function that does nothing.
ghost use Rattle.std.specs.Prelude.{ℕ, ◌≡◌, ◌≤◌, List, ◌++◌};
ghost use Rattle.model_base.specs.declared.limits.TheConstants.{MAX_GROUP};
ghost use Rattle.model_base.specs.declared.got.Got.{Got};
ghost use Rattle.model_base.specs.declared.got.Got.TheVariants.{Value};
ghost use Rattle.model_log.specs.Group.{IsGroup, group_length, group_text};
ghost use Rattle.model_log.specs.GroupFront.{GivesGroup};
ghost use Rattle.model_log.specs.declared.rec.Rec.{Rec};

/// No group's text begins another's, and none is the text of two groups.
pub fn one_group()
    ensures { (g h : List Rec) (x y : List ℕ) → IsGroup g → IsGroup h
        → group_text g ++ x ≡ group_text h ++ y → (g ≡ h) × (x ≡ y) }
{}

/// Where a group's text of at most 8,192 bytes stands in front, reading gives that group and the length of its text,
/// whatever follows.
pub fn group_reads_back()
    ensures { (group : List Rec) (rest : List ℕ) (got : Got (List Rec)) → IsGroup group → group_length group ≤ MAX_GROUP
        → GivesGroup (group_text group ++ rest) got → got ≡ Value group (group_length group) }
{}
