// What holds of every data device. Each law is the contract of a function that does nothing.
ghost use Rattle.std.specs.Prelude.{ℕ, List, [], ◌≡◌, ◌≤◌, ◌<◌, replicate, false};
ghost use Rattle.model_base.specs.{IsWithinLimits};
ghost use Rattle.model_base.specs.declared.shape.Shape.{Shape};
ghost use Rattle.model_parts.specs.Batch.{Fresh};
ghost use Rattle.model_parts.specs.Stored.{Keeps, Stored, IsUpTo, IsOpened, CrashKeeps, read_as};
ghost use Rattle.model_device.specs.{settled, Disk};
ghost use Rattle.model_page.specs.{blank_page, data_device_length, IsInPlace};
ghost use Rattle.model_page.specs.declared.content.Content.{Content};
ghost use Rattle.model_store.specs.{IsFair, IsOrderly, Reading};

/// Whatever a crash leaves that is fair, each page is kept, as it was or as the batch has it, and as nothing else.
pub fn crash_keeps()
    ensures { (shape : Shape) (top was : ℕ → Content) (batch : List Fresh) (disk : Disk) (image : List ℕ)
        → Keeps shape (IsUpTo top) was batch disk → IsFair shape disk image → CrashKeeps shape top was batch image }
{}

/// What a part may begin with is what it keeps.
pub fn opened_is_stored()
    ensures { (shape : Shape) (top was : ℕ → Content) (disk : Disk)
        → IsWithinLimits shape → IsOpened shape top was disk → Stored shape (IsUpTo top) was [] false disk }
{}

/// A device of zeros is that of a store whose pages were never written.
pub fn zeros_are_opened()
    ensures { (shape : Shape) (long : ℕ) → IsWithinLimits shape → data_device_length shape ≤ long
        → IsOpened shape (λ p. blank_page shape) (λ p. blank_page shape) (settled (replicate long 0)) }
{}

/// A part can begin with an orderly store each of whose places passes. Its copies are up to the pages as they are read.
pub fn orderly_is_opened()
    ensures { (log : List ℕ) (reading : Reading) (was : ℕ → Content) (disk : Disk)
        → IsOrderly log disk.base reading → disk ≡ settled disk.base
        → ((p : ℕ) → p < reading.shape.pages → IsInPlace reading.shape disk.base p (was p))
        → IsOpened reading.shape (read_as reading) was disk }
{}
