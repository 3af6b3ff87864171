//! How counters are raised.
ghost use Rattle.std.specs.Prelude.{◌≡◌, ◌+◌, true};
ghost use Rattle.kom_types.specs.tables.Persons.{last_count};
ghost use Rattle.kom_model.specs.Raising as raising;
ghost use Rattle.kom_model.specs.Raising.{may_raise_to, may_raise_conference, may_raise_person};
ghost use Rattle.kom_model.specs.Raising.{may_raise_text, raised_to, raised_in};

use crate::stored_rows::StoredRows;
use kom_types::limits::{LAST_CONFERENCE, LAST_DRAWN};
use kom_types::{Raised, RaisedCounter};

impl StoredRows {
    /// Whether a counter may be raised so: its object is there, and it does not fall or pass its
    /// bound.
    #[tactic(auto, unfolding(kom_model::specs::Raising::may_raise, kom_model::specs::Db::next_text_of))]
    pub fn may_raise(&self, given: Raised) -> bool
        ensures { result ≡ raising.may_raise given self.now.db }
    {
        let Raised {
            counter,
            object,
            next,
        } = given;
        match counter {
            RaisedCounter::Conferences => {
                object == 0 && is_between(self.next_conference(), next, LAST_CONFERENCE)
            }
            RaisedCounter::Texts => object == 0 && is_between(self.next_text(), next, LAST_DRAWN),
            RaisedCounter::Locals => self.may_raise_local(object, next),
            RaisedCounter::Created => self.may_raise_created(object, next),
            RaisedCounter::TextItems => self.may_raise_text_item(object, next),
            RaisedCounter::ConferenceItems => self.may_raise_conference_item(object, next),
            RaisedCounter::Sessions => self.may_raise_sessions(object, next),
        }
    }

    fn may_raise_local(&self, object: u32, next: u64) -> bool
        ensures { result ≡ may_raise_conference (λ row. row.next_local) object next self.now.db }
    {
        match self.conference(object) {
            None => false,
            Some(row) => is_between(row.next_local, next, LAST_DRAWN),
        }
    }

    fn may_raise_conference_item(&self, object: u32, next: u64) -> bool
        ensures { result ≡ may_raise_conference (λ row. row.next_item) object next self.now.db }
    {
        match self.conference(object) {
            None => false,
            Some(row) => is_between(row.next_item, next, LAST_DRAWN),
        }
    }

    fn may_raise_created(&self, object: u32, next: u64) -> bool
        ensures { result
            ≡ may_raise_person (λ row. row.next_created) object next (LAST_DRAWN + 1) self.now.db }
    {
        match self.person(object) {
            None => false,
            Some(row) => is_between(row.next_created, next, LAST_DRAWN),
        }
    }

    fn may_raise_sessions(&self, object: u32, next: u64) -> bool
        ensures { result
            ≡ may_raise_person (λ row. row.sessions) object next last_count self.now.db }
    {
        match self.person(object) {
            None => false,
            Some(row) => is_between(row.sessions, next, u32::MAX - 1),
        }
    }

    fn may_raise_text_item(&self, object: u32, next: u64) -> bool
        ensures { result ≡ may_raise_text (λ row. row.next_item) object next self.now.db }
    {
        match self.text(object) {
            None => false,
            Some(row) => is_between(row.next_item, next, LAST_DRAWN),
        }
    }

    /// Sets a counter to a number, where it may be raised so. It takes no memory.
    #[tactic(auto, unfolding(kom_model::specs::Raising::may_raise, kom_model::specs::Raising::raised_in))]
    pub fn raise(&mut self, given: Raised)
        requires { raising.may_raise given self.old.db ≡ true }
        ensures { self.new.db ≡ raised_in given self.old.db }
    {
        let Raised {
            counter,
            object,
            next,
        } = given;
        match counter {
            RaisedCounter::Conferences => self.raise_conferences(object, next),
            RaisedCounter::Texts => self.raise_texts(object, next),
            RaisedCounter::Locals => self.raise_local(object, next),
            RaisedCounter::Created => self.raise_created(object, next),
            RaisedCounter::TextItems => self.raise_text_item(object, next),
            RaisedCounter::ConferenceItems => self.raise_conference_item(object, next),
            RaisedCounter::Sessions => self.raise_sessions(object, next),
        }
    }

    fn raise_conferences(&mut self, object: u32, next: u64)
        requires { may_raise_to RaisedCounter.Conferences object next self.old.db ≡ true }
        ensures { self.new.db ≡ raised_to RaisedCounter.Conferences object next self.old.db }
    {
        let next = next as u32;
        self.next_conference = next;
    }

    fn raise_texts(&mut self, object: u32, next: u64)
        requires { may_raise_to RaisedCounter.Texts object next self.old.db ≡ true }
        ensures { self.new.db ≡ raised_to RaisedCounter.Texts object next self.old.db }
    {
        let next = next as u32;
        self.next_text = next;
    }

    fn raise_local(&mut self, object: u32, next: u64)
        requires { may_raise_to RaisedCounter.Locals object next self.old.db ≡ true }
        ensures { self.new.db ≡ raised_to RaisedCounter.Locals object next self.old.db }
    {
        let next = next as u32;
        self.conferences.set_next_local(object, next);
    }

    fn raise_created(&mut self, object: u32, next: u64)
        requires { may_raise_to RaisedCounter.Created object next self.old.db ≡ true }
        ensures { self.new.db ≡ raised_to RaisedCounter.Created object next self.old.db }
    {
        let next = next as u32;
        self.persons.set_next_created(object, next);
    }

    fn raise_text_item(&mut self, object: u32, next: u64)
        requires { may_raise_to RaisedCounter.TextItems object next self.old.db ≡ true }
        ensures { self.new.db ≡ raised_to RaisedCounter.TextItems object next self.old.db }
    {
        let next = next as u32;
        self.texts.set_next_item(object, next);
    }

    fn raise_conference_item(&mut self, object: u32, next: u64)
        requires { may_raise_to RaisedCounter.ConferenceItems object next self.old.db ≡ true }
        ensures { self.new.db ≡ raised_to RaisedCounter.ConferenceItems object next self.old.db }
    {
        let next = next as u32;
        self.conferences.set_next_item(object, next);
    }

    fn raise_sessions(&mut self, object: u32, next: u64)
        requires { may_raise_to RaisedCounter.Sessions object next self.old.db ≡ true }
        ensures { self.new.db ≡ raised_to RaisedCounter.Sessions object next self.old.db }
    {
        let next = next as u32;
        self.persons.set_sessions(object, next);
    }
}

/// Whether a number is not below where a counter is, and not above the one after its last.
fn is_between(least: u32, next: u64, last: u32) -> bool
    ensures { result ≡ raising.is_between least next (last + 1) }
{
    u64::from(least) <= next && next <= u64::from(last) + 1
}
