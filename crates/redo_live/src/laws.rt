// What a user's commits and reads come to. Each law is the contract of a function that does nothing.
ghost use Rattle.std.specs.Prelude.{List, Some, length, ℕ, ◌≡◌, ◌≢◌, ◌≤◌};
ghost use lib.ListN.{get_elem?};
ghost use mathlib.Core.Option.{some};
ghost use Rattle.model_reads.specs.{IsPageAsOf};
ghost use Rattle.model_report.specs.{wholes_of};
ghost use Rattle.model_script.specs.declared.item.Item.{Item};
ghost use Rattle.model_store.specs.{Reading};
ghost use Rattle.model_theorem.specs.{Opened};
ghost use Rattle.model_theorem.specs.Run.{IsPrefixRead};
ghost use Rattle.redo_drive.specs.Drive.{closed_run};
ghost use Rattle.redo_live.specs.Closing.{LeavesStore};
ghost use Rattle.redo_live.specs.Committing.{HasCommitted, IsRefusedSo};
ghost use Rattle.redo_live.specs.Crashed.{IsReadAfterCrash};
ghost use Rattle.redo_live.specs.Holding.{IsOpen, shape_of, state_of};
ghost use Rattle.redo_live.specs.Kept.{IsKeptCommit, IsReadCommit};
ghost use Rattle.redo_live.specs.Later.{HasGoneOn};
ghost use Rattle.redo_live.specs.Reading.{HasReadPage, IsUnreadFor};
ghost use Rattle.redo_live.specs.declared.refused.Refused.{Refused};
ghost use Rattle.redo_live.specs.declared.refused.Refused.TheVariants.{Device};
ghost use Rattle.redo_live.specs.declared.store.Store.{Store};
ghost use Rattle.redo_live.specs.declared.user.User.{User};
ghost use Rattle.redo_ownrule.specs.LiveLeaving.{closed_with};
ghost use Rattle.redo_ownrule.specs.Sharing.{opened_of};
ghost use Rattle.redo_rule.specs.declared.closing.Left.{Left};

use model_theorem::held_run_reads;
use redo_disk::Sectors;

/// A user goes on through its commits and reads, however many these are and whatever they are answered.
pub fn commits_go_on<L: Sectors, D: Sectors>()
    ensures same { (user : User L D) → HasGoneOn user user }
    ensures further { (old new last : User L D) → HasGoneOn old new → HasGoneOn new last → HasGoneOn old last }
    ensures refused { (store : Store L D) (old new : User L D) (mode : ℕ) (items : List Item) (refused : Refused)
        → IsRefusedSo store old mode items refused new → HasGoneOn old new }
    ensures unread { (store : Store L D) (old new : User L D) (refused : Refused)
        → IsUnreadFor store old refused new → HasGoneOn old new }
{}

/// A commit that was answered is kept: the history that the store leaves has it as that of its user's line, with the group of
/// its operations and the end that was answered, however the user went on from there. Where a commit was refused by a
/// failure, the store leaves a code.
pub fn commit_is_kept<L: Sectors, D: Sectors>()
    ensures kept { (store : Store L D) (users : List (User L D)) (left : Left L D) (old new last : User L D) (i mode end : ℕ)
        (items : List Item) → IsOpen store → HasCommitted store old mode items new end
        → HasGoneOn new last → get_elem? users i ≡ some last
        → (leaves : LeavesStore L.seen L.gives D.seen D.gives store users left)
        → IsKeptCommit leaves.leaves.script (shape_of store).space leaves.leaves.history (state_of last).user
        (length (state_of old).lines) mode items end }
    ensures failed { (store : Store L D) (users : List (User L D)) (left : Left L D) (old new last : User L D)
        (i mode code : ℕ) (items : List Item) → IsRefusedSo store old mode items (Device code) new → HasGoneOn new last
        → get_elem? users i ≡ some last → LeavesStore L.seen L.gives D.seen D.gives store users left → left.code ≢ 0 }
{}

/// A page that was read is kept: what was answered is that page of the history that the store leaves, as of the lsn that was
/// answered, however the user went on from there. No commit that the user was answered before ends above that lsn. Where a
/// read was refused by a failure, the store leaves a code.
pub fn page_is_kept<L: Sectors, D: Sectors>()
    ensures kept { (store : Store L D) (users : List (User L D)) (left : Left L D) (old new last : User L D)
        (i number as_of : ℕ) (bytes : List ℕ) → HasReadPage store old number as_of bytes new → HasGoneOn new last
        → get_elem? users i ≡ some last → (leaves : LeavesStore L.seen L.gives D.seen D.gives store users left)
        → IsPageAsOf (opened_of store.shared).pages
        (wholes_of leaves.leaves.script (shape_of store).space leaves.leaves.history)
        (record { page = number; lsn = as_of; bytes = bytes }) }
    ensures failed { (store : Store L D) (users : List (User L D)) (left : Left L D) (old new last : User L D) (i code : ℕ)
        → IsUnreadFor store old (Device code) new → HasGoneOn new last → get_elem? users i ≡ some last
        → LeavesStore L.seen L.gives D.seen D.gives store users left → left.code ≢ 0 }
    ensures own { (store : Store L D) (old new reader last : User L D) (mode end number as_of : ℕ) (items : List Item)
        (bytes : List ℕ) → HasCommitted store old mode items new end → HasGoneOn new reader
        → HasReadPage store reader number as_of bytes last → end ≤ as_of }
{}

/// THE CRASH THEOREM of a store that is called, by whatever program, and however its devices are stopped: what a crash leaves
/// of them is read as a prefix of the history.
pub fn called_store_is_read<L: Sectors, D: Sectors>()
    ensures { (store : Store L D) (users : List (User L D)) (left : Left L D)
        → (leaves : LeavesStore L.seen L.gives D.seen D.gives store users left)
        → IsReadAfterCrash L.seen D.seen (opened_of store.shared) left leaves.leaves.script leaves.leaves.history }
{
    held_run_reads();
}

/// Each commit in mode 1 that was answered is read: where pages are read as a prefix of the history, they have its group
/// applied whole, and what is read reaches its end.
pub fn flushed_commit_is_read<L: Sectors, D: Sectors>()
    ensures { (store : Store L D) (users : List (User L D)) (left : Left L D) (old new last : User L D) (i end : ℕ)
        (items : List Item) → IsOpen store → HasCommitted store old 1 items new end
        → HasGoneOn new last → get_elem? users i ≡ some last
        → (leaves : LeavesStore L.seen L.gives D.seen D.gives store users left) (opened : Opened) (reading : Reading)
        → IsPrefixRead leaves.leaves.script opened
        (Some (closed_run (opened_of store.shared).start (closed_with left leaves.leaves.history))) reading
        → IsReadCommit leaves.leaves.script opened.shape.space
        (closed_run (opened_of store.shared).start (closed_with left leaves.leaves.history)) reading items end }
{}
