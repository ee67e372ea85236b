// A receiver that keeps count.
ghost use Rattle.std.specs.Prelude.{List, [], ◌≡◌};
ghost use Rattle.model_base.specs.{crc_of};
ghost use Rattle.model_core.specs.{Given};
ghost use Rattle.redo_follow.specs.Handing.{with_group};
ghost use Rattle.redo_follow.specs.Following.{HasTally, joined_given};

use crate::receiver::Receiver;
use redo_crc::Crc;
use std::marker::Model;

/// It keeps the count of groups modulo 2^64 and the checksum of their joined texts. Contracts see both.
#[derive(Debug, Drop)]
pub struct Tally {
    count: u64,
    crc: Crc,
}

impl Model for Tally {
    ghost use Rattle.redo_follow.specs.Following.{Kept};

    ghost Value = { Kept };

    ghost view = { λ tally. record { count = tally.count; register = tally.crc } };
}

impl Tally {
    /// Of no group.
    pub fn new() -> Self
        ensures { HasTally result [] }
    {
        Tally {
            count: 0,
            crc: Crc::new(),
        }
    }

    /// How many groups it took, modulo 2^64.
    pub fn count(&self) -> u64
        ensures { result ≡ self.now.count }
    {
        self.count
    }

    /// The checksum of their joined texts.
    pub fn crc(&self) -> u32
        ensures { (got : List Given) → HasTally self.now got → result ≡ crc_of (joined_given got) }
    {
        self.crc.value()
    }
}

impl Receiver for Tally {
    ghost stands_for = { HasTally };

    fn group(&mut self, _start: u64, _end: u64, text: &[u8])
        ensures { (got : List Given) → HasTally self.old got → HasTally self.new (with_group got _start _end text.now) }
    {
        self.count = self.count.wrapping_add(1);
        self.crc.update(text);
    }
}
