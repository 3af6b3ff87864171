ghost use Rattle.std.specs.Prelude.{◌≡◌, List, true};
ghost use Rattle.kom_records.specs.Records as records;
ghost use Rattle.kom_records.specs.Telling.{ReadsAs};

use crate::elements::Element;
use crate::fault::ReadFault;
use crate::tokens::Tokens;
use kom_types::{Membership, RangesShown};

impl Element for Membership {
    ghost reads = { records.membership };

    fn take_from(tokens: &mut Tokens<'_>) -> Result<Membership, ReadFault> {
        let position = tokens.number()?;
        let last_time_read = tokens.time()?;
        let conference = tokens.number()?;
        let priority = tokens.byte()?;
        let ranges = tokens.ranges()?;
        let added_by = tokens.number()?;
        let added_at = tokens.time()?;
        let kind = tokens.bits_8()?;
        Ok(Membership {
            position,
            last_time_read,
            conference,
            priority,
            ranges,
            added_by,
            added_at,
            kind,
        })
    }
}

impl Tokens<'_> {
    /// Takes the ranges of a membership, or how many they are.
    fn ranges(&mut self) -> Result<RangesShown, ReadFault>
        ensures { ReadsAs true (records.ranges self.old) result self.new }
    {
        let count = self.number()?;
        self.ranges_by(count)
    }

    /// Takes so many ranges, or the star that stands for them.
    fn ranges_by(&mut self, count: u32) -> Result<RangesShown, ReadFault>
        ensures { ReadsAs true (records.ranges_by count self.old) result self.new }
    {
        if count > 0 && self.is_starred() {
            self.next();
            Ok(RangesShown::Count(count))
        } else {
            Ok(RangesShown::All(self.array_of(count)?))
        }
    }
}
