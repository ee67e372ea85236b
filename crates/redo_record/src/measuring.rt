// How long the text of a group is, also of one that has no room in the format.
ghost use Rattle.std.specs.Prelude.{◌≡◌, ◌≤◌, ◌<◌, ◌+◌, ◌^◌, length};
ghost use Rattle.std.specs.List.{flat_map};
ghost use Rattle.std.specs.Option.{SomeIff};
ghost use Rattle.model_base.specs.{spelling32};
ghost use Rattle.model_log.specs.{group_length, IsGroup, record_text, value_text};

use model_log::{Group, Rec};

/// How long a group's text is.
pub trait Length {
    /// It has a text, whose length fits 64 bits.
    ghost has_length: { Self → Type 0 };

    /// The number of bytes of the group's text.
    fn length(&self) -> u64
        requires { has_length self.now };

    /// The number of bytes of the text of the records, also where one has no room in the format, if it fits 64 bits.
    fn checked_length(&self) -> Option<u64>;
}

impl Length for Group {
    ghost has_length = { λ group. IsGroup group × (group_length group < 2 ^ 64) };

    fn length(&self) -> u64
        requires is_group { IsGroup self.now }
        requires countable { group_length self.now < 2 ^ 64 }
        ensures { result ≡ group_length self.now }
    {
        self.checked_length().unwrap()
    }

    #[tactic(auto, unfolding(model_log::specs::Group::group_text, model_log::specs::Group::single_text, model_log::specs::Group::record_text))]
    fn checked_length(&self) -> Option<u64>
        ensures { SomeIff result (group_length self.now < 2 ^ 64) (group_length self.now) }
    {
        match self.0.as_slice() {
            [] => Some(0),
            [only] => record_length(only),
            several => with_end_mark(several),
        }
    }
}

// The length of several records and the mark at their end.
fn with_end_mark(recs: &[Rec]) -> Option<u64>
    ensures { SomeIff result (length (flat_map record_text recs.now) + 1 < 2 ^ 64)
        (length (flat_map record_text recs.now) + 1) }
{
    records_length(recs)?.checked_add(1)
}

fn records_length(recs: &[Rec]) -> Option<u64>
    ensures { SomeIff result (length (flat_map record_text recs.now) < 2 ^ 64)
        (length (flat_map record_text recs.now)) }
{
    let mut total: u64 = 0;
    for rec in recs {
        let Some(next) = with_record(total, rec) else {
            return None;
        };
        total = next;
    }
    Some(total)
}

fn with_record(total: u64, rec: &Rec) -> Option<u64>
    ensures { SomeIff result (total + length (record_text rec.now) < 2 ^ 64)
        (total + length (record_text rec.now)) }
{
    total.checked_add(record_length(rec)?)
}

#[tactic(auto, unfolding(model_log::specs::Group::record_text))]
fn record_length(rec: &Rec) -> Option<u64>
    ensures { SomeIff result (length (record_text rec.now) < 2 ^ 64)
        (length (record_text rec.now)) }
{
    match rec {
        Rec::Num {
            width,
            space,
            page,
            offset: _,
            value,
        } => Some(3 + id_length(*space) + id_length(*page) + value_length(*width, *value)),
        Rec::Text {
            space,
            page,
            offset: _,
            bytes,
        } => (5 + id_length(*space) + id_length(*page)).checked_add(bytes.len() as u64),
        Rec::Init { space, page } => Some(1 + id_length(*space) + id_length(*page)),
    }
}

#[tactic(auto, unfolding(model_base::specs::Spelling::spelling64))]
fn value_length(width: u32, value: u64) -> u64
    ensures exact { result ≡ length (value_text width value) }
    ensures short { result ≤ 9 }
{
    if width == 8 {
        spelling_length(value >> 32) + 4
    } else {
        spelling_length(value)
    }
}

fn id_length(id: u32) -> u64
    ensures exact { result ≡ length (spelling32 id) }
    ensures short { result ≤ 5 }
{
    spelling_length(u64::from(id))
}

#[tactic(auto, unfolding(model_base::specs::Spelling::spelling32))]
fn spelling_length(number: u64) -> u64
    ensures exact { result ≡ length (spelling32 number) }
    ensures short { result ≤ 5 }
{
    match number {
        0..=0x7F => 1,
        0x80..=0x3FFF => 2,
        0x4000..=0x1F_FFFF => 3,
        0x20_0000..=0x0FFF_FFFF => 4,
        0x1000_0000..=0xFEFF_FFFF => 5,
        0xFF00_0000..=0xFFFD_FFFF => 4,
        0xFFFE_0000..=0xFFFF_FBFF => 3,
        0xFFFF_FC00..=u64::MAX => 2,
    }
}
