ghost use Rattle.std.specs.Prelude.{◌≡◌, ◌+◌, ◌*◌, ◌<◌, ◌^◌, length};
ghost use Rattle.effect_codec.specs.Coding.{coded_effect};

use kom_types::{Bytes, Effect, ReadRanges};

/// How many bytes an effect has.
pub fn coded_len(effect: &Effect) -> u64
    ensures { result ≡ length (coded_effect effect.now) }
{
    match effect {
        Effect::ConfAdded { name, .. } => 22 + text_len(name),
        Effect::ConfGone { .. } => 5,
        Effect::ConfNamed { name, .. } => 5 + text_len(name),
        Effect::ConfField { .. } => 14,
        Effect::PersonAdded { .. } => 16,
        Effect::PersonGone { .. } => 5,
        Effect::PersonField { .. } => 14,
        Effect::Password { hash, .. } => 5 + bytes_len(hash),
        Effect::LoggedIn { user, .. } => 13 + text_len(user),
        Effect::Counted { .. } => 14,
        Effect::TextAdded { body, .. } => 17 + text_len(body),
        Effect::TextGone { .. } => 5,
        Effect::RecipientAdded(_) => 29,
        Effect::RecipientGone { .. } => 9,
        Effect::LinkAdded(_) => 22,
        Effect::LinkGone { .. } => 10,
        Effect::MemberSet { .. } => 30,
        Effect::MemberGone { .. } => 9,
        Effect::ReadSet { ranges, .. } => 17 + ranges_len(ranges),
        Effect::MarkSet { .. } => 13,
        Effect::MarkGone { .. } => 9,
        Effect::AuxAdded { item, .. } => 31 + text_len(&item.content),
        Effect::AuxGone { .. } => 10,
        Effect::Created { .. } => 13,
    }
}

pub(crate) fn bytes_len(bytes: &[u8]) -> u64
    ensures len { result ≡ length bytes.now }
    ensures bound { result < 2 ^ 63 }
{
    bytes.len() as u64
}

fn text_len(text: &Bytes) -> u64
    ensures len { result ≡ 4 + length text.now }
    ensures bound { result < 2 ^ 63 + 4 }
{
    4 + bytes_len(text.as_slice())
}

fn ranges_len(ranges: &ReadRanges) -> u64
    ensures len { result ≡ 4 + 8 * length ranges.now }
    ensures bound { result < 2 ^ 63 + 4 }
{
    4 + 8 * ranges.as_slice().len() as u64
}
