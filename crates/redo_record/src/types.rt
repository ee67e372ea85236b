// The bytes that tell what a record is, and where a group ends.
ghost use Rattle.std.specs.Prelude.{◌≡◌, ◌<◌};
ghost use Rattle.model_log.specs.{HasText, type_of};

use model_log::Rec;

/// The type byte of a string of bytes: MLOG_WRITE_STRING.
pub(crate) const STRING: u8 = 30;
/// The type byte of a page that is set to zeros: MLOG_INIT_FILE_PAGE2.
pub(crate) const INIT: u8 = 59;
/// What is added to the type byte of a record that is a group alone: MLOG_SINGLE_REC_FLAG.
pub(crate) const SINGLE: u8 = 0x80;
/// The byte that ends a group of several records: MLOG_MULTI_REC_END.
pub(crate) const END_MARK: u8 = 31;

/// The byte with which a record's text begins where it isn't a group alone.
pub(crate) fn type_byte(rec: &Rec) -> u8
    requires { HasText rec.now }
    ensures exact { result ≡ type_of rec.now }
    ensures small { result < SINGLE }
{
    match rec {
        Rec::Num { width, .. } => *width as u8,
        Rec::Text { .. } => STRING,
        Rec::Init { .. } => INIT,
    }
}
