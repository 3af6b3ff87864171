ghost use Rattle.kom_types.specs.spellings.Memberships.{member, membership};
ghost use Rattle.kom_types.specs.spellings.Memberships.{ranges_shown, read_range};

use crate::arrays::{put_array, put_count};
use crate::sinks::{Sink, put_numbers, put_time};
use crate::spelled::Spelled;
use kom_types::{Member, Membership, RangesShown, ReadRange};

impl Spelled for ReadRange {
    ghost spelling = { read_range };

    fn put<S: Sink>(&self, out: &mut S) -> Result<(), S::Refusal> {
        put_numbers(&[self.first, self.last], out)
    }
}

impl Spelled for Membership {
    ghost spelling = { membership };

    #[tactic(auto, using(crate::proofs::WrittenWords::with_words_append))]
    fn put<S: Sink>(&self, out: &mut S) -> Result<(), S::Refusal> {
        out.number(self.position)?;
        put_time(self.last_time_read, out)?;
        put_numbers(&[self.conference, u32::from(self.priority)], out)?;
        self.ranges.put(out)?;
        out.number(self.added_by)?;
        put_time(self.added_at, out)?;
        out.bits(8, u16::from(self.kind))
    }
}

impl Spelled for Member {
    ghost spelling = { member };

    fn put<S: Sink>(&self, out: &mut S) -> Result<(), S::Refusal> {
        put_numbers(&[self.person, self.added_by], out)?;
        put_time(self.added_at, out)?;
        out.bits(8, u16::from(self.kind))
    }
}

impl Spelled for RangesShown {
    ghost spelling = { ranges_shown };

    fn put<S: Sink>(&self, out: &mut S) -> Result<(), S::Refusal> {
        match self {
            RangesShown::Count(count) => put_count(*count, out),
            RangesShown::All(ranges) => put_array(ranges.as_slice(), out),
        }
    }
}
