ghost use Rattle.kom_types.specs.spellings.Conferences.{conference, conference_name, uconference};

use crate::arrays::put_array;
use crate::sinks::{Sink, put_numbers, put_time};
use crate::spelled::Spelled;
use kom_types::{Conference, ConferenceName, UConference};

impl Spelled for Conference {
    ghost spelling = { conference };

    fn put<S: Sink>(&self, out: &mut S) -> Result<(), S::Refusal> {
        out.text(self.name.as_slice())?;
        out.bits(8, u16::from(self.kind))?;
        put_time(self.created, out)?;
        put_time(self.last_written, out)?;
        let numbers = [
            self.creator,
            self.presentation,
            self.supervisor,
            self.submitters,
            self.super_conference,
            self.motd,
            self.nice,
            self.keep_commented,
            self.members,
            self.first_local,
            self.texts,
            self.expire,
        ];
        put_numbers(&numbers, out)?;
        put_array(self.aux_items.as_slice(), out)
    }
}

impl Spelled for UConference {
    ghost spelling = { uconference };

    fn put<S: Sink>(&self, out: &mut S) -> Result<(), S::Refusal> {
        out.text(self.name.as_slice())?;
        out.bits(8, u16::from(self.kind))?;
        put_numbers(&[self.highest_local, self.nice], out)
    }
}

impl Spelled for ConferenceName {
    ghost spelling = { conference_name };

    fn put<S: Sink>(&self, out: &mut S) -> Result<(), S::Refusal> {
        out.text(self.name.as_slice())?;
        out.bits(4, u16::from(self.kind / 16))?;
        out.number(self.number)
    }
}
