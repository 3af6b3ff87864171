ghost use Rattle.std.specs.Prelude.{◌≡◌, true};
ghost use Rattle.kom_records.specs.Records as records;
ghost use Rattle.kom_records.specs.Telling.{ReadsAs};

use crate::fault::ReadFault;
use crate::tokens::Tokens;
use kom_types::{Conference, Person, UConference};

impl Tokens<'_> {
    /// Takes what most clients want of a conference.
    pub(crate) fn uconference(&mut self) -> Result<UConference, ReadFault>
        ensures { ReadsAs true (records.uconference self.old) result self.new }
    {
        let name = self.string()?;
        let kind = self.bits_8()?;
        let highest_local = self.number()?;
        let nice = self.number()?;
        Ok(UConference {
            name,
            kind,
            highest_local,
            nice,
        })
    }

    /// Takes a conference.
    pub(crate) fn conference(&mut self) -> Result<Conference, ReadFault>
        ensures { ReadsAs true (records.conference self.old) result self.new }
    {
        let name = self.string()?;
        let kind = self.bits_8()?;
        let created = self.time()?;
        let last_written = self.time()?;
        let creator = self.number()?;
        let presentation = self.number()?;
        let supervisor = self.number()?;
        let submitters = self.number()?;
        let super_conference = self.number()?;
        let motd = self.number()?;
        let nice = self.number()?;
        let keep_commented = self.number()?;
        let members = self.number()?;
        let first_local = self.number()?;
        let texts = self.number()?;
        let expire = self.number()?;
        let aux_items = self.array()?;
        Ok(Conference {
            name,
            kind,
            created,
            last_written,
            creator,
            presentation,
            supervisor,
            submitters,
            super_conference,
            motd,
            nice,
            keep_commented,
            members,
            first_local,
            texts,
            expire,
            aux_items,
        })
    }

    /// Takes a person.
    pub(crate) fn person(&mut self) -> Result<Person, ReadFault>
        ensures { ReadsAs true (records.person self.old) result self.new }
    {
        let user = self.string()?;
        let privileges = self.bits_16()?;
        let flags = self.bits_8()?;
        let last_login = self.time()?;
        let user_area = self.number()?;
        let time_present = self.number()?;
        let sessions = self.number()?;
        let created_lines = self.number()?;
        let created_bytes = self.number()?;
        let read_texts = self.number()?;
        let text_fetches = self.number()?;
        let created_persons = self.number()?;
        let created_conferences = self.number()?;
        let first_created_local = self.number()?;
        let created_texts = self.number()?;
        let marks = self.number()?;
        let conferences = self.number()?;
        Ok(Person {
            user,
            privileges,
            flags,
            last_login,
            user_area,
            time_present,
            sessions,
            created_lines,
            created_bytes,
            read_texts,
            text_fetches,
            created_persons,
            created_conferences,
            first_created_local,
            created_texts,
            marks,
            conferences,
        })
    }
}
