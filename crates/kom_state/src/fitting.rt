ghost use Rattle.std.specs.Prelude.{◌≡◌, is_some};
ghost use Rattle.kom_model.specs.Db.{conference_of, person_of};
ghost use Rattle.kom_model.specs.Effects.{fits, is_free, may_name, may_add_conference};
ghost use Rattle.kom_model.specs.Effects.{may_set, may_set_field, has_letterbox, has_room_to_join};
ghost use Rattle.kom_model.specs.Effects.{is_bare_conference, is_bare_person};
ghost use Rattle.kom_types.specs.tables.Conferences.{is_secret_protected};

mod item_effects;
mod text_effects;

use crate::stored_rows::StoredRows;
use kom_types::bits::{READ_PROTECTED, SECRET_CONFERENCE, is_letterbox};
use kom_types::limits::{LAST_CONFERENCE, LONGEST_NAME, LONGEST_USER_NAME, MOST_MEMBERSHIPS};
use kom_types::{ConfField, ConferenceRow, Effect};
use read_ranges::rise;
pub use text_effects::{is_recipient_tag, most_links};

impl StoredRows {
    /// Whether an effect fits: what it changes is there, what it adds is not, numbers were never
    /// used, and the limits hold.
    #[tactic(auto, unfolding(kom_model::specs::Effects::fits))]
    pub fn fits(&self, effect: &Effect) -> bool
        ensures { result ≡ fits effect.now self.now.db }
    {
        match effect {
            Effect::ConfAdded {
                number,
                name,
                kind,
                ..
            } => self.may_add_conference(*number, name.as_slice(), *kind),
            Effect::ConfGone { number } => {
                self.has_conference(*number) && self.is_bare_conference(*number)
            }
            Effect::ConfNamed { number, name } => {
                self.has_conference(*number) && self.may_name(*number, name.as_slice())
            }
            Effect::ConfField { number, field } => self.may_set_field(*number, *field),
            Effect::PersonAdded { number, .. } => {
                self.has_letterbox(*number) && !self.has_person(*number)
            }
            Effect::PersonGone { number } => {
                self.has_person(*number) && self.is_bare_person(*number)
            }
            Effect::PersonField { number, .. } => self.has_person(*number),
            Effect::Password { number, .. } => self.has_person(*number),
            Effect::LoggedIn { number, user, .. } => {
                self.has_person(*number) && user.len() <= LONGEST_USER_NAME
            }
            Effect::Counted { number, .. } => self.has_person(*number),
            Effect::MemberSet {
                person,
                conference,
                ..
            } => {
                self.has_person(*person)
                    && self.has_conference(*conference)
                    && self.has_room_to_join(*person, *conference)
            }
            Effect::MemberGone { person, conference } => self.is_member(*person, *conference),
            Effect::ReadSet {
                person,
                conference,
                ranges,
                ..
            } => self.is_member(*person, *conference) && rise(ranges.as_slice()),
            Effect::TextAdded { number, body, .. } => self.may_add_text(*number, body.as_slice()),
            Effect::TextGone { number } => self.has_text(*number) && self.is_bare(*number),
            Effect::RecipientAdded(given) => self.may_add_recipient(given),
            Effect::RecipientGone { text, conference } => {
                self.recipient(*text, *conference).is_some()
            }
            Effect::LinkAdded(given) => self.may_link(given),
            Effect::LinkGone {
                child,
                parent,
                footnote,
            } => self.link(*child, *parent, *footnote).is_some(),
            Effect::MarkSet { person, text, .. } => {
                self.has_person(*person) && self.has_text(*text) && self.may_mark(*person, *text)
            }
            Effect::MarkGone { person, text } => self.mark(*person, *text).is_some(),
            Effect::Created {
                person,
                local,
                text,
            } => self.may_create(*person, *local, *text),
            Effect::AuxAdded {
                on_text,
                object,
                item,
            } => self.may_add_item(*on_text, *object, item),
            Effect::AuxGone {
                on_text,
                object,
                number,
            } => self.has_item(*on_text, *object, *number),
        }
    }

    pub(crate) fn has_conference(&self, number: u32) -> bool
        ensures { result ≡ is_some (conference_of self.now.db number) }
    {
        self.conference(number).is_some()
    }

    pub(crate) fn has_person(&self, number: u32) -> bool
        ensures { result ≡ is_some (person_of self.now.db number) }
    {
        self.person(number).is_some()
    }

    /// Whether no conference but the one of this number has a name that clashes.
    fn is_free(&self, number: u32, name: &[u8]) -> bool
        ensures { result ≡ is_free self.now.db number name.now }
    {
        match self.names.taken(name) {
            None => true,
            Some(other) => other == number,
        }
    }

    fn may_name(&self, number: u32, name: &[u8]) -> bool
        ensures { result ≡ may_name self.now.db number name.now }
    {
        name.len() <= LONGEST_NAME as usize && self.is_free(number, name)
    }

    fn may_add_conference(&self, number: u32, name: &[u8], kind: u8) -> bool
        ensures { result ≡ may_add_conference self.now.db number name.now kind }
    {
        self.next_conference <= number
            && number <= LAST_CONFERENCE
            && !self.has_conference(number)
            && self.may_name(number, name)
            && is_secret_protected(kind)
    }

    /// Whether nothing is left that hangs on a conference.
    fn is_bare_conference(&self, number: u32) -> bool
        ensures { result ≡ is_bare_conference self.now.db number }
    {
        self.local_count(number) == 0
            && self.member_count(number) == 0
            && self.item_count(false, number) == 0
            && !self.has_person(number)
    }

    /// Whether nothing is left that hangs on a person.
    fn is_bare_person(&self, number: u32) -> bool
        ensures { result ≡ is_bare_person self.now.db number }
    {
        self.membership_count(number) == 0 && self.mark_count_of(number) == 0
    }

    fn may_set_field(&self, number: u32, field: ConfField) -> bool
        ensures { result ≡ may_set_field self.now.db number field }
    {
        match self.conference(number) {
            None => false,
            Some(row) => may_set(field, row),
        }
    }

    pub(crate) fn has_letterbox(&self, number: u32) -> bool
        ensures { result ≡ has_letterbox self.now.db number }
    {
        match self.conference(number) {
            None => false,
            Some(row) => is_letterbox(row.kind),
        }
    }

    fn has_room_to_join(&self, person: u32, conference: u32) -> bool
        ensures { result ≡ has_room_to_join self.now.db person conference }
    {
        self.is_member(person, conference) || self.membership_count(person) < MOST_MEMBERSHIPS
    }
}

/// Whether a conference may have its field set so.
fn may_set(field: ConfField, row: &ConferenceRow) -> bool
    ensures { result ≡ may_set field row.now }
{
    match field {
        ConfField::Kind(kind) => {
            is_secret_protected(kind) && is_letterbox(kind) == is_letterbox(row.kind)
        }
        _ => true,
    }
}

fn is_secret_protected(kind: u8) -> bool
    ensures { result ≡ is_secret_protected kind }
{
    kind & SECRET_CONFERENCE == 0 || kind & READ_PROTECTED != 0
}
