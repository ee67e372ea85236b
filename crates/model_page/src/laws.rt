// What holds of every page. Each law is the contract of a function that does nothing.
ghost use Rattle.std.specs.Prelude.{ℕ, List, length, ◌≡◌, ◌<◌, ◌+◌, false, Some};
ghost use Rattle.model_base.specs.{frame_length, IsPageSize};
ghost use Rattle.model_base.specs.declared.shape.Shape.{Shape};
ghost use Rattle.model_page.specs.Page.{copy_lsn, IsBestCopy, IsKept, IsLost, page_text, is_blank, page_check, user_part};
ghost use Rattle.model_page.specs.Fits.{HasBestCopy, FitsPage};
ghost use Rattle.model_page.specs.declared.content.Content.{Content};
ghost use Rattle.model_page.specs.declared.page.PageState.TheVariants.{Sound};

/// The bytes of a page pass the check with the page's own fields, and hold its user bytes. Only where all of them are 0
/// they are blank instead: under an lsn above 0 they are not, and those of a page of full size never are, since the
/// checksum of as many zero bytes isn't 0.
pub fn page_reads_back()
    ensures sound { (number space lsn : ℕ) (user : List ℕ) → FitsPage number space lsn user
        → is_blank (page_text number space lsn user) ≡ false
        → page_check (page_text number space lsn user) ≡ Sound number space lsn }
    ensures not_blank { (number space lsn : ℕ) (user : List ℕ) → FitsPage number space lsn user
        → 0 < lsn → is_blank (page_text number space lsn user) ≡ false }
    ensures never_blank { (number space lsn : ℕ) (user : List ℕ)
        → IsPageSize (frame_length + length user) → is_blank (page_text number space lsn user) ≡ false }
    ensures user { (number space lsn : ℕ) (user : List ℕ)
        → user_part (page_text number space lsn user) ≡ user }
{}

/// Where a copy of a page passes, one counts, and only one.
pub fn best_copy_is_one()
    ensures some { (shape : Shape) (image : List ℕ) (page slot lsn : ℕ) → slot < shape.slots
        → copy_lsn shape image page slot ≡ Some lsn → HasBestCopy shape image page }
    ensures one { (shape : Shape) (image : List ℕ) (page a b m n : ℕ)
        → IsBestCopy shape image page a m → IsBestCopy shape image page b n → (a ≡ b) × (m ≡ n) }
{}

/// A page is kept as one content, and then it isn't lost.
pub fn kept_is_one()
    ensures one { (shape : Shape) (image : List ℕ) (page : ℕ) (a b : Content)
        → IsKept shape image page a → IsKept shape image page b → a ≡ b }
    ensures not_lost { (shape : Shape) (image : List ℕ) (page : ℕ) (kept : Content)
        → IsKept shape image page kept → IsLost shape image page → ⊥ }
{}
