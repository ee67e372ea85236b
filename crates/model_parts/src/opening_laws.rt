// What holds of every store while it is opened.
ghost use Rattle.std.specs.Prelude.{◌≡◌, ◌≢◌, ◌≤◌, ◌+◌, ◌⊎◌, ℕ, List, [], length, false, Option};
ghost use Rattle.model_base.specs.{IsWithinLimits, run_shape};
ghost use Rattle.model_base.specs.declared.shape.Shape.{Shape};
ghost use Rattle.model_device.specs.{Crashes, IsImage, sector, settled, Disk};
ghost use Rattle.model_log.specs.{checkpoint_text, place_of};
ghost use Rattle.model_log.specs.declared.head.Format.TheVariants.{One};
ghost use Rattle.model_page.specs.{data_device_length};
ghost use Rattle.model_page.specs.declared.content.Content.{Content};
ghost use Rattle.model_parts.specs.Opened.{HasRoom, OpensAgain, IsOpenable, ReadsOpened, KeepsOpened, found_layout, numbers_taken, start_of, start_block};
ghost use Rattle.model_parts.specs.Batch.{Fresh};
ghost use Rattle.model_parts.specs.Changes.{IsPut, IsPutting};
ghost use Rattle.model_parts.specs.Formatted.{KeepsHead, formatted_store};
ghost use Rattle.model_parts.specs.Cleared.{IsCleared, IsClearing};
ghost use Rattle.model_parts.specs.FormattedDevices.{IsFormatted};
ghost use Rattle.model_parts.specs.Held.{IsFresh};
ghost use Rattle.model_parts.specs.Migrating.{IsMigrated, IsMigrating};
ghost use Rattle.model_parts.specs.Enlarging.{IsEnlarged, IsHeaded, IsHeading, KeepsStretches};
ghost use Rattle.model_parts.specs.Ready.{IsReadyBy};
ghost use Rattle.model_parts.specs.Repair.{KeepsAll};
ghost use Rattle.model_parts.specs.Rewritten.{IsRewriting, IsRewritten};
ghost use Rattle.model_parts.specs.Stored.{IsUpTo, Keeps, Stored, read_as, IsWrittenOver};
ghost use Rattle.model_store.specs.{AreFoundIn, IsFair, IsFairLog, IsOrderly, IsReading, Reading};
ghost use Rattle.model_store.specs.declared.tail.Tail.{Tail};

/// While the two header blocks are made alike, the log is read as it was.
pub fn kept_head_is_read()
    ensures reads { (opened : Reading) (log_bytes data_bytes new_log : List ℕ) → IsReading log_bytes data_bytes opened
        → KeepsHead log_bytes new_log → IsReading new_log data_bytes opened }
    ensures orderly { (opened : Reading) (log_bytes data_bytes new_log : List ℕ) → IsOrderly log_bytes data_bytes opened
        → KeepsHead log_bytes new_log → IsOrderly new_log data_bytes opened }
    ensures found { (opened : Reading) (log_bytes new_log : List ℕ) (tail : Option Tail)
        → AreFoundIn (found_layout opened) log_bytes opened.ckpt opened.views tail → KeepsHead log_bytes new_log
        → AreFoundIn (found_layout opened) new_log opened.ckpt opened.views tail }
{}

/// While log blocks outside the kept range are cleared away, in two stages, and pages are repaired and written as they are
/// read, the store is read with the same pages, and its log from the same checkpoint with the same groups and the same
/// end.
pub fn clearing_reads()
    ensures { (opened : Reading) (log_bytes data_bytes new_log new_data : List ℕ) (tail : Option Tail)
        → IsReading log_bytes data_bytes opened → AreFoundIn (found_layout opened) log_bytes opened.ckpt opened.views tail
        → IsClearing (found_layout opened) opened.ckpt (start_of opened) tail log_bytes new_log
        → IsRewriting opened data_bytes new_data → ReadsOpened opened new_log new_data }
{}

/// Once they are, and each page is kept as it is read, the next checkpoint changes no page, at each moment while it is
/// written.
pub fn marking_reads()
    ensures { (opened : Reading) (log_bytes data_bytes old_log new_log new_data : List ℕ) (tail : Option Tail)
        → IsOrderly log_bytes data_bytes opened → AreFoundIn (found_layout opened) log_bytes opened.ckpt opened.views tail
        → IsCleared (found_layout opened) opened.ckpt (start_of opened) tail log_bytes old_log
        → IsPutting (place_of (opened.number + 1)) (checkpoint_text (opened.number + 1) (start_block opened) (found_layout opened))
        old_log new_log
        → IsRewritten opened new_data → ReadsOpened opened new_log new_data }
{}

/// And once it stays, a run can start on the log device, by format 2 or 3.
pub fn marked_is_fresh()
    ensures { (opened : Reading) (log_bytes data_bytes old_log new_log : List ℕ) (tail : Option Tail)
        → IsOrderly log_bytes data_bytes opened → AreFoundIn (found_layout opened) log_bytes opened.ckpt opened.views tail
        → sector 2 log_bytes ≡ sector 0 log_bytes → opened.format ≢ One
        → IsCleared (found_layout opened) opened.ckpt (start_of opened) tail log_bytes old_log
        → IsPut (place_of (opened.number + 1)) (checkpoint_text (opened.number + 1) (start_block opened) (found_layout opened))
        old_log new_log
        → IsFresh opened.shape (start_of opened) (opened.number + 1) (settled new_log) }
{}

/// A store of format 1 is read with the opened pages at each moment while it is taken to format 2 after that.
pub fn migrating_reads()
    ensures { (opened : Reading) (log_bytes data_bytes old_log marked_log new_log new_data : List ℕ) (tail : Option Tail)
        → IsOrderly log_bytes data_bytes opened → AreFoundIn (found_layout opened) log_bytes opened.ckpt opened.views tail
        → sector 2 log_bytes ≡ sector 0 log_bytes → opened.format ≡ One
        → IsCleared (found_layout opened) opened.ckpt (start_of opened) tail log_bytes old_log
        → IsPut (place_of (opened.number + 1)) (checkpoint_text (opened.number + 1) (start_block opened) (found_layout opened))
        old_log marked_log
        → IsMigrating opened.shape (opened.number + 2) (start_block opened) marked_log new_log
        → IsRewritten opened new_data → ReadsOpened opened new_log new_data }
{}

/// And then a run can start on it.
pub fn migrated_is_fresh()
    ensures { (opened : Reading) (log_bytes data_bytes old_log marked_log new_log : List ℕ) (tail : Option Tail)
        → IsOrderly log_bytes data_bytes opened → AreFoundIn (found_layout opened) log_bytes opened.ckpt opened.views tail
        → IsCleared (found_layout opened) opened.ckpt (start_of opened) tail log_bytes old_log
        → IsPut (place_of (opened.number + 1)) (checkpoint_text (opened.number + 1) (start_block opened) (found_layout opened))
        old_log marked_log
        → IsMigrated opened.shape (opened.number + 2) (start_block opened) marked_log new_log
        → IsFresh opened.shape (start_of opened) (opened.number + 2) (settled new_log) }
{}

/// While the places that don't pass are repaired, each fair image of the data device is one that is being rewritten.
pub fn repairing_rewrites()
    ensures { (opened : Reading) (log_bytes : List ℕ) (old new : Disk) (image : List ℕ) → IsOrderly log_bytes old.base opened
        → KeepsAll opened.shape old new → IsFair opened.shape new image → IsRewriting opened old.base image }
{}

/// And so it is while batches of pages are written as they were read.
pub fn writing_rewrites()
    ensures { (opened : Reading) (log_bytes old : List ℕ) (was : ℕ → Content) (batch : List Fresh) (disk : Disk) (image : List ℕ)
        → IsReading log_bytes old opened → IsWrittenOver opened old was batch
        → Keeps opened.shape (IsUpTo (read_as opened)) was batch disk → IsFair opened.shape disk image
        → IsRewriting opened old image }
{}

/// Once each place holds its page as it was read, each fair image is rewritten.
pub fn stored_is_rewritten()
    ensures { (opened : Reading) (disk : Disk) (image : List ℕ) → length opened.pages ≡ opened.shape.pages
        → Stored opened.shape (IsUpTo (read_as opened)) (read_as opened) [] false disk
        → IsFair opened.shape disk image → IsRewritten opened image }
{}

/// So while the header blocks are made alike, opening keeps the pages, in every fair image of the two devices.
pub fn kept_head_keeps()
    ensures { (opened : Reading) (log_bytes data_bytes : List ℕ) (log_disk data_disk : Disk) → IsReading log_bytes data_bytes opened
        → ((image : List ℕ) → IsFairLog log_disk image → KeepsHead log_bytes image)
        → ((image : List ℕ) → IsFair opened.shape data_disk image → IsRewriting opened data_bytes image)
        → KeepsOpened opened log_disk data_disk }
{}

/// So it does as long as the log is cleared and pages are repaired and written.
pub fn clearing_keeps()
    ensures { (opened : Reading) (log_bytes data_bytes : List ℕ) (tail : Option Tail) (log_disk data_disk : Disk)
        → IsReading log_bytes data_bytes opened → AreFoundIn (found_layout opened) log_bytes opened.ckpt opened.views tail
        → ((image : List ℕ) → IsFairLog log_disk image
        → IsClearing (found_layout opened) opened.ckpt (start_of opened) tail log_bytes image)
        → ((image : List ℕ) → IsFair opened.shape data_disk image → IsRewriting opened data_bytes image)
        → KeepsOpened opened log_disk data_disk }
{}

/// And so it does while the next checkpoint is written, once each place holds its page.
pub fn marking_keeps()
    ensures { (opened : Reading) (log_bytes data_bytes old_log : List ℕ) (tail : Option Tail) (log_disk data_disk : Disk)
        → IsOrderly log_bytes data_bytes opened → AreFoundIn (found_layout opened) log_bytes opened.ckpt opened.views tail
        → IsCleared (found_layout opened) opened.ckpt (start_of opened) tail log_bytes old_log
        → ((image : List ℕ) → IsFairLog log_disk image
        → IsPutting (place_of (opened.number + 1)) (checkpoint_text (opened.number + 1) (start_block opened) (found_layout opened))
        old_log image)
        → Stored opened.shape (IsUpTo (read_as opened)) (read_as opened) [] false data_disk
        → KeepsOpened opened log_disk data_disk }
{}

/// And while a store of format 1 is taken to format 2.
pub fn migrating_keeps()
    ensures { (opened : Reading) (log_bytes data_bytes old_log marked_log : List ℕ) (tail : Option Tail) (log_disk data_disk : Disk)
        → IsOrderly log_bytes data_bytes opened → AreFoundIn (found_layout opened) log_bytes opened.ckpt opened.views tail
        → sector 2 log_bytes ≡ sector 0 log_bytes → opened.format ≡ One
        → IsCleared (found_layout opened) opened.ckpt (start_of opened) tail log_bytes old_log
        → IsPut (place_of (opened.number + 1)) (checkpoint_text (opened.number + 1) (start_block opened) (found_layout opened))
        old_log marked_log
        → ((image : List ℕ) → IsFairLog log_disk image
        → IsMigrating opened.shape (opened.number + 2) (start_block opened) marked_log image)
        → Stored opened.shape (IsUpTo (read_as opened)) (read_as opened) [] false data_disk
        → KeepsOpened opened log_disk data_disk }
{}

/// While a store of an earlier format, which is ready by its own sizes, gets the slots and places of a run on its data device, it
/// is read with the opened pages.
pub fn enlarging_keeps()
    ensures { (opened : Reading) (log_bytes data_bytes : List ℕ) (log_disk old data_disk : Disk)
        → IsOrderly log_bytes data_bytes opened → IsReadyBy opened.shape opened log_disk old
        → ((image : List ℕ) → IsImage data_disk image → KeepsStretches opened.shape old.base image)
        → KeepsOpened opened log_disk data_disk }
{}

/// Once it has them, it holds its pages by its own sizes and by those of a run.
pub fn enlarged_is_stored()
    ensures { (shape by : Shape) (pages : ℕ → Content) (old new : Disk) → IsWithinLimits shape → (by ≡ shape) ⊎ (by ≡ run_shape shape)
        → Stored shape (IsUpTo pages) pages [] false old → new ≡ settled new.base
        → data_device_length (run_shape shape) ≤ length new.base → IsEnlarged shape pages old.base new.base
        → Stored by (IsUpTo pages) pages [] false new }
{}

/// And then it is read with the opened pages while the headers of a run are put.
pub fn heading_keeps()
    ensures { (opened : Reading) (log_bytes data_bytes old_log : List ℕ) (log_disk data_disk : Disk)
        → IsOrderly log_bytes data_bytes opened
        → IsFresh opened.shape (start_of opened) (opened.number + numbers_taken opened.format) (settled old_log)
        → ((image : List ℕ) → IsFairLog log_disk image → IsHeading opened.shape old_log image)
        → Stored opened.shape (IsUpTo (read_as opened)) (read_as opened) [] false data_disk
        → Stored (run_shape opened.shape) (IsUpTo (read_as opened)) (read_as opened) [] false data_disk
        → KeepsOpened opened log_disk data_disk }
{}

/// Once they stand, a run can start on the log device.
pub fn headed_is_fresh()
    ensures { (shape : Shape) (start number : ℕ) (old new : List ℕ) → IsWithinLimits shape
        → IsFresh shape start number (settled old) → IsHeaded shape old new → IsFresh (run_shape shape) start number (settled new) }
{}

/// A store that is ready, by its own sizes or by those of a run, is read with the opened pages.
pub fn ready_is_read()
    ensures { (opened : Reading) (log_bytes data_bytes : List ℕ) (shape : Shape) (log_disk data_disk : Disk)
        → IsOrderly log_bytes data_bytes opened → (shape ≡ opened.shape) ⊎ (shape ≡ run_shape opened.shape)
        → IsReadyBy shape opened log_disk data_disk → KeepsOpened opened log_disk data_disk }
{}

/// A store that may be opened is read so before the first step of opening.
pub fn openable_reads()
    ensures { (opened : Reading) (log_disk data_disk : Disk) → IsOpenable opened log_disk data_disk
        → KeepsOpened opened log_disk data_disk }
{}

/// A formatted store is in order, and its pages are blank.
pub fn formatted_is_openable()
    ensures { (shape : Shape) (log_disk data_disk : Disk) → IsWithinLimits shape → IsFormatted shape log_disk data_disk
        → IsOpenable (formatted_store shape) log_disk data_disk }
{}

/// So a store whose opening was stopped by a crash may be opened again, with the same pages.
pub fn opened_again()
    ensures { (opened : Reading) (log_disk data_disk log_left data_left : Disk) → KeepsOpened opened log_disk data_disk → HasRoom opened
        → Crashes log_disk log_left → Crashes data_disk data_left → IsFairLog log_disk log_left.reads
        → IsFair opened.shape data_disk data_left.reads → OpensAgain opened log_left data_left }
{}
