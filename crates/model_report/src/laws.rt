// The laws of legal histories. Each stands as the contract of a function with nothing to do.
ghost use Rattle.std.specs.Prelude.{◌≡◌, ◌≤◌, ◌<◌, ℕ, List, [], ◌∷◌, ◌++◌, length, take, slice_get, Some};
ghost use Rattle.std.specs.List.{AllByRecursion};
ghost use Rattle.model_log.specs.declared.group.Whole.{Whole};
ghost use Rattle.model_log.specs.{IsBoundary, IsRunOf, last_span_end, spans_of};
ghost use Rattle.model_script.specs.declared.script.ScriptLine.{ScriptLine};
ghost use Rattle.model_report.specs.Answered.{HasNoLost, IsAnswered};
ghost use Rattle.model_report.specs.Legal.{state_by, FitsMarks, FitsMode, IsLegal, IsLegalEntry, count_up_to, entries_of_user, entry_spans, wholes_of};
ghost use Rattle.model_report.specs.declared.entry.Entry.{Entry};
ghost use Rattle.model_report.specs.declared.entry.Marks.{Marks};

/// A legal history stays legal with one more entry at its end, of a user none of whose commits is lost.
pub fn legal_history_grows()
    ensures { (script : List ScriptLine) (space s : ℕ) (marks : Marks) (entries : List Entry) (entry : Entry) →
        IsLegal script space s marks entries → entry.start ≡ last_span_end s (entry_spans entries) →
        IsLegalEntry script space marks entry → entry.k ≡ length (entries_of_user entry.user entries) →
        HasNoLost (entries_of_user entry.user entries) →
        IsLegal script space s marks (entries ++ entry ∷ []) }
{}

/// The state of an answered commit by the marks is one that they and its mode allow.
pub fn answered_state_is_legal()
    ensures marks { (marks : Marks) (end : ℕ) → FitsMarks marks end (state_by marks end) }
    ensures mode { (marks : Marks) (mode end : ℕ) → IsAnswered marks mode end → FitsMode mode (state_by marks end) }
{}

/// The groups of a legal history are a run of the log.
pub fn history_is_run()
    ensures { (script : List ScriptLine) (space s : ℕ) (marks : Marks) (entries : List Entry) →
        IsLegal script space s marks entries → IsRunOf s (wholes_of script space entries) }
{}

/// A place between entries is one between their groups.
pub fn mark_is_boundary()
    ensures { (script : List ScriptLine) (space s mark : ℕ) (entries : List Entry) →
        IsBoundary s (entry_spans entries) mark → IsBoundary s (spans_of (wholes_of script space entries)) mark }
{}

/// Where the groups of a history that end at or below a mark stand in front, they are as many as its entries that do.
pub fn first_groups_are_front()
    ensures { (script : List ScriptLine) (space mark : ℕ) (entries : List Entry) (front behind : List Whole) →
        wholes_of script space entries ≡ front ++ behind →
        AllByRecursion (λ (whole : Whole). whole.end ≤ mark) front →
        AllByRecursion (λ (whole : Whole). mark < whole.end) behind →
        take (count_up_to mark entries) (wholes_of script space entries) ≡ front }
{}

/// An entry that ends at or below the mark is then one of the first so many.
pub fn reached_entry_counts()
    ensures { (script : List ScriptLine) (space mark i : ℕ) (entries : List Entry) (entry : Entry) (front behind : List Whole) →
        wholes_of script space entries ≡ front ++ behind →
        AllByRecursion (λ (whole : Whole). whole.end ≤ mark) front →
        AllByRecursion (λ (whole : Whole). mark < whole.end) behind →
        slice_get entries i ≡ Some entry → entry.end ≤ mark → i < count_up_to mark entries }
{}
