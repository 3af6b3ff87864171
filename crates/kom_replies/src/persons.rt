ghost use Rattle.kom_types.specs.spellings.Persons.{person};

use crate::sinks::{Sink, put_numbers, put_time};
use crate::spelled::Spelled;
use kom_types::Person;

impl Spelled for Person {
    ghost spelling = { person };

    fn put<S: Sink>(&self, out: &mut S) -> Result<(), S::Refusal> {
        out.text(self.user.as_slice())?;
        out.bits(16, self.privileges)?;
        out.bits(8, u16::from(self.flags))?;
        put_time(self.last_login, out)?;
        let numbers = [
            self.user_area,
            self.time_present,
            self.sessions,
            self.created_lines,
            self.created_bytes,
            self.read_texts,
            self.text_fetches,
            self.created_persons,
            self.created_conferences,
            self.first_created_local,
            self.created_texts,
            self.marks,
            self.conferences,
        ];
        put_numbers(&numbers, out)
    }
}
