//! Which texts nobody keeps, by days alone.
ghost use Rattle.std.specs.Prelude.{◌≡◌, nat_lt};
ghost use Rattle.kom_sweep.specs.Due.{days_of, age, recipient_in, child_in, is_held};
ghost use Rattle.kom_sweep.specs.Ages.{lets_go_by};

use crate::ages::Ages;
use kom_types::{AuxRow, Conference, MiscInfo, Moment, TextStat};

/// The flag of an aux-item that its text is not to be deleted. (Protocol A, "Auxiliary
/// Information".)
pub(crate) const DONT_GARB: u8 = 8;

/// The seconds of a day.
pub(crate) const DAY: u64 = 86_400;

/// For how many days a conference keeps its texts.
#[derive(Clone, Copy, Debug)]
pub(crate) struct Days {
    pub nice: u32,
    pub keep_commented: u32,
    pub expire: u32,
}

/// A text without recipients is let go as by a conference that keeps its texts so long.
pub(crate) const WITHOUT_RECIPIENTS: Days = Days {
    nice: 77,
    keep_commented: 77,
    expire: 0,
};

impl Days {
    pub(crate) fn of(conference: &Conference) -> Days
        ensures { result ≡ days_of conference.now }
    {
        Days {
            nice: conference.nice,
            keep_commented: conference.keep_commented,
            expire: conference.expire,
        }
    }

    /// Whether a conference of these days lets a text of this age go, by what is known of the ages
    /// of its comments and footnotes.
    pub(crate) fn let_go(&self, age: u64, ages: Ages) -> bool
        ensures { result ≡ lets_go_by age ages self.now }
    {
        (0 < self.expire && u64::from(self.expire) < age)
            || (u64::from(self.nice) < age && ages.are_above(self.keep_commented))
    }
}

/// The whole days from the making of a text to a moment; 0 where it is made later.
pub(crate) fn age(moment: Moment, stat: &TextStat) -> u64
    ensures { result ≡ age moment stat.now }
{
    moment.seconds().saturating_sub(stat.created.seconds()) / DAY
}

/// The conference or letterbox that is a recipient.
pub(crate) fn recipient_in(info: MiscInfo) -> Option<u32>
    ensures { result ≡ recipient_in info }
{
    match info {
        MiscInfo::Recipient(conference)
        | MiscInfo::CopyRecipient(conference)
        | MiscInfo::BlindRecipient(conference) => Some(conference),
        _ => None,
    }
}

/// The text that is a comment or a footnote.
pub(crate) fn child_in(info: MiscInfo) -> Option<u32>
    ensures { result ≡ child_in info }
{
    match info {
        MiscInfo::CommentIn(text) | MiscInfo::FootnoteIn(text) => Some(text),
        _ => None,
    }
}

/// Whether one of a text's items keeps it.
pub(crate) fn is_held(items: &[AuxRow]) -> bool
    ensures { result ≡ is_held items.now }
{
    items.iter().any(|item| item.flags & DONT_GARB != 0)
}
