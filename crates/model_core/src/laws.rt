// What holds of every store that runs. A caller learns it by calling a function that does nothing.
ghost use Rattle.std.specs.Prelude.{◌≡◌, ◌<◌, ◌⊎◌, ℕ, Bool, List, false, true};
ghost use Rattle.model_core.specs.States.{Actor};
ghost use Rattle.model_core.specs.Program.{Listed, answer_of, words_left, is_checking, own_op, own_took, took, waits};
ghost use Rattle.model_core.specs.Layout.{index};
ghost use Rattle.model_core.specs.NamedWords.{IsWord, word_count};
ghost use Rattle.model_core.specs.Hands.{ChecksWithoutTail, holds_tail, IsFreeing, HasStopped};
ghost use Rattle.model_core.specs.declared.ops.Answer.{Answer};
ghost use Rattle.model_core.specs.declared.ops.Op.TheVariants as op;
ghost use Rattle.model_core.specs.declared.words.Layout.{Layout};
ghost use Rattle.model_core.specs.declared.words.LinkBuffer.{LinkBuffer};
ghost use Rattle.model_core.specs.declared.words.Word.{Word};

/// The words of a store have numbers below their count.
#[tactic(auto, using(crate::proofs::WordNumbers::index_below))]
pub fn words_are_numbered()
    ensures { (layout : Layout) (w : Word) → IsWord layout w → index layout w < word_count layout }
{}

/// An actor that waits loads FAILED next.
#[tactic(auto, using(crate::proofs::Waiting::wait_checks))]
pub fn a_wait_leads_to_a_check()
    ensures { (a : Actor) (r : Answer) → waits a r ≡ true → is_checking (own_took a r) ≡ true }
{}

/// A wait changes no word, but that the cleaner, whose round finds no page to write, may have released a latch, and that an
/// advance which finds no link frees its tail. A user or the closer then stores the tail that it has loaded.
#[tactic(auto, using(crate::proofs::WaitingWords::wait_words))]
pub fn a_wait_changes_no_word()
    ensures { (layout : Layout) (lists : ℕ → List Listed) (broken : Bool) (code mark : ℕ) (words : List ℕ) (a : Actor)
        → waits a (answer_of layout lists broken code mark words (own_op a)) ≡ true
        → (words_left layout words (own_op a) ≡ words) ⊎ IsFreeing a }
{}

/// An actor that has ended asks for nothing, and stays as it is.
#[tactic(auto, using(crate::proofs::Ended::ended_rests))]
pub fn an_ended_actor_rests()
    ensures { (a : Actor) (r : Answer) → HasStopped a → (own_op a ≡ op.Rest) × (own_took a r ≡ a) }
{}

/// Whoever checks for a failure holds no tail: an actor gives a tail back before it waits.
#[tactic(auto, using(crate::proofs::TailsFree::took_free))]
pub fn a_check_holds_no_tail()
    ensures { (a : Actor) (r : Answer) → ChecksWithoutTail a → ChecksWithoutTail (took a r) }
{}

/// An actor that has ended holds no tail.
#[tactic(auto, using(crate::proofs::TailsFree::stopped_free))]
pub fn an_ended_actor_holds_no_tail()
    ensures { (a : Actor) → HasStopped a → (b : LinkBuffer) → holds_tail b a ≡ false }
{}
