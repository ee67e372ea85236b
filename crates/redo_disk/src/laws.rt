// What holds of calls in a row. Each law is the contract of a function that does nothing.
ghost use Rattle.std.specs.Prelude.{◌≡◌, ◌+◌, ◌++◌, List, Option, None};
ghost use Rattle.redo_disk.specs.Calls.{Call, EndWith, Request, Serve, Makes};
ghost use Rattle.redo_disk.specs.ReadCalls.{AreReads, MayEndWith, changing_calls, failed_calls, failures};
ghost use Rattle.redo_disk.specs.declared.error.DevError.{DevError};

use crate::Sectors;

/// Calls, and others after them: what is told of both together.
pub fn calls_join<D: Sectors>()
    ensures makes { (old middle new : D) (first then : List Call) → Makes D.gives old first middle
        → Makes D.gives middle then new → Makes D.gives old (first ++ then) new }
    ensures failed { (first then : List Call) → failed_calls (first ++ then) ≡ failed_calls first + failed_calls then }
    ensures changing { (first then : List Call) → changing_calls (first ++ then)
        ≡ changing_calls first + changing_calls then }
    ensures reads { (first then : List Call) → AreReads first → AreReads then → AreReads (first ++ then) }
    ensures ends { (error : Option DevError) (first then : List Call) → EndWith None first → EndWith error then
        → EndWith error (first ++ then) }
    ensures may_end { (error : Option DevError) (first then : List Call) → MayEndWith None first → MayEndWith error then
        → MayEndWith error (first ++ then) }
    ensures serves { (asked more : List Request) (error : Option DevError) (first then : List Call)
        → Serve asked None first → Serve more error then → Serve (asked ++ more) error (first ++ then) }
{}

/// Code that ends with the error of its last call has met one failure of the device at the most, and tells it. Reads
/// change nothing.
pub fn calls_end_once()
    ensures failed { (error : Option DevError) (calls : List Call) → MayEndWith error calls
        → failed_calls calls ≡ failures error }
    ensures may_end { (error : Option DevError) (calls : List Call) → EndWith error calls → MayEndWith error calls }
    ensures reads { (calls : List Call) → AreReads calls → changing_calls calls ≡ 0 }
{}
