ghost use Rattle.std.specs.Prelude.{◌≡◌, true, List, [], ◌∷◌, IsTrue};
ghost use Rattle.kom_types.specs.declared.effects.Effect.{Effect as Change};
ghost use Rattle.kom_model.specs.Effects.{fits, after_effect, apply, apply_all, all_fit};
ghost use Rattle.kom_state.specs.Keepers.{append_pending};
ghost use Rattle.kom_state.specs.Room.{HasRoom, IsPossible, IsMade, is_of_person, set_of};

mod item_effects;
mod text_effects;

use crate::keeper::Keeper;
use crate::stored_rows::StoredRows;
use conferences::fresh_conference;
use kom_types::{
    Bytes, ConfField, Counter, Effect, EffectList, MembershipRow, Moment, PersonField, ReadRanges,
};
use persons::fresh_person;

impl StoredRows {
    /// Makes effects, of which each fits after those before it, in their order, and gives each to a
    /// keeper first; there is room for all, here and there. It takes no memory.
    pub fn apply_all<K: Keeper>(&mut self, effects: EffectList, keeper: &mut K)
        requires fit { IsTrue (all_fit effects self.old.db) }
        requires room { HasRoom self.old.room effects }
        requires kept_room { K.has_room keeper.old effects }
        ensures db { self.new.db ≡ apply_all effects self.old.db }
        ensures kept { K.pending keeper.new ≡ append_pending effects (K.pending keeper.old) }
        ensures rest { K.stays keeper.old keeper.new }
    {
        for effect in effects.into_vec() {
            keeper.keep(&effect);
            self.apply_effect(effect);
        }
    }

    /// Makes an effect, for which there is room, if it fits.
    pub(crate) fn apply(&mut self, effect: Effect)
        requires { HasRoom self.old.room (effect ∷ []) }
        ensures { self.new.db ≡ apply effect self.old.db }
    {
        if self.fits(&effect) {
            self.apply_effect(effect);
        }
    }

    /// Makes an effect that fits, for which there is room. It takes no memory.
    #[tactic(auto, unfolding(kom_model::specs::Effects::fits))]
    pub fn apply_effect(&mut self, effect: Effect)
        requires fits { fits effect self.old.db ≡ true }
        requires room { HasRoom self.old.room (effect ∷ []) }
        ensures db { self.new.db ≡ after_effect effect self.old.db }
        ensures room { (rest : List Change) → HasRoom self.old.room (effect ∷ rest)
            → HasRoom self.new.room rest }
    {
        match effect {
            Effect::ConfAdded {
                number,
                name,
                kind,
                at,
                creator,
                supervisor,
            } => self.add_conference(number, name, kind, at, creator, supervisor),
            Effect::ConfGone { number } => self.remove_conference(number),
            Effect::ConfNamed { number, name } => self.rename_conference(number, name),
            Effect::ConfField { number, field } => self.set_conference_field(number, field),
            Effect::MemberSet {
                person,
                conference,
                position,
                priority,
                added_by,
                added_at,
                kind,
            } => self.set_membership(MembershipRow {
                person,
                conference,
                position,
                priority,
                added_by,
                added_at,
                last_time_read: added_at,
                kind,
            }),
            Effect::MemberGone { person, conference } => self.remove_membership(person, conference),
            Effect::ReadSet {
                person,
                conference,
                at,
                ranges,
            } => self.set_read(person, conference, at, ranges),
            Effect::PersonGone { number } => self.remove_person(number),
            Effect::AuxAdded {
                on_text,
                object,
                item,
            } => self.add_item(on_text, object, item),
            Effect::AuxGone {
                on_text,
                object,
                number,
            } => self.remove_item(on_text, object, number),
            Effect::PersonAdded { .. }
            | Effect::PersonField { .. }
            | Effect::Password { .. }
            | Effect::LoggedIn { .. }
            | Effect::Counted { .. } => self.apply_to_person(effect),
            other => self.apply_to_texts(other),
        }
    }

    /// Makes an effect of a person's row.
    fn apply_to_person(&mut self, effect: Effect)
        requires possible { IsPossible effect self.old }
        requires of_person { is_of_person effect ≡ true }
        ensures { IsMade effect self.old self.new }
    {
        match effect {
            Effect::PersonAdded {
                number,
                privileges,
                flags,
                last_login,
            } => self.add_person(number, privileges, flags, last_login),
            Effect::PersonField { number, field } => self.set_person_field(number, field),
            Effect::Password { number, hash } => self.set_password(number, hash),
            Effect::LoggedIn { number, at, user } => self.log_in(number, at, user),
            Effect::Counted {
                number,
                counter,
                by,
            } => self.count(number, counter, by),
            _ => unreachable!(),
        }
    }

    fn add_conference(
        &mut self,
        number: u32,
        name: Bytes,
        kind: u8,
        at: Moment,
        creator: u32,
        supervisor: u32,
    )
        requires { IsPossible (Effect.ConfAdded number name kind at creator supervisor) self.old }
        ensures { IsMade (Effect.ConfAdded number name kind at creator supervisor)
            self.old self.new }
    {
        let row = fresh_conference(number, name, kind, at, creator, supervisor);
        self.names.put(number, row.name.as_slice()).unwrap();
        self.conferences.put(row).unwrap();
        self.next_conference = number + 1;
    }

    fn remove_conference(&mut self, number: u32)
        requires { IsPossible (Effect.ConfGone number) self.old }
        ensures { IsMade (Effect.ConfGone number) self.old self.new }
    {
        self.names.remove(number);
        self.conferences.remove(number);
    }

    fn rename_conference(&mut self, number: u32, name: Bytes)
        requires { IsPossible (Effect.ConfNamed number name) self.old }
        ensures { IsMade (Effect.ConfNamed number name) self.old self.new }
    {
        self.names.put(number, name.as_slice()).unwrap();
        self.conferences.rename(number, name);
    }

    fn set_conference_field(&mut self, number: u32, field: ConfField)
        requires { IsPossible (Effect.ConfField number field) self.old }
        ensures { IsMade (Effect.ConfField number field) self.old self.new }
    {
        self.conferences.set_field(number, field);
    }

    fn add_person(&mut self, number: u32, privileges: u16, flags: u8, last_login: Moment)
        requires { IsPossible (Effect.PersonAdded number privileges flags last_login) self.old }
        ensures { IsMade (Effect.PersonAdded number privileges flags last_login)
            self.old self.new }
    {
        let row = fresh_person(self.alloc, number, privileges, flags, last_login);
        self.persons.put(row).unwrap();
    }

    /// Takes a person out, with the numbers of the texts that it made.
    fn remove_person(&mut self, number: u32)
        requires { IsPossible (Effect.PersonGone number) self.old }
        ensures { IsMade (Effect.PersonGone number) self.old self.new }
    {
        self.persons.remove(number);
        self.texts.forget_created(number);
    }

    fn set_person_field(&mut self, number: u32, field: PersonField)
        requires { IsPossible (Effect.PersonField number field) self.old }
        ensures { IsMade (Effect.PersonField number field) self.old self.new }
    {
        self.persons.set_field(number, field);
    }

    fn set_password(&mut self, number: u32, hash: [u8; 32])
        requires { IsPossible (Effect.Password number hash) self.old }
        ensures { IsMade (Effect.Password number hash) self.old self.new }
    {
        self.persons.set_hash(number, hash);
    }

    fn log_in(&mut self, number: u32, at: Moment, user: Bytes)
        requires { IsPossible (Effect.LoggedIn number at user) self.old }
        ensures { IsMade (Effect.LoggedIn number at user) self.old self.new }
    {
        self.persons.log_in(number, at, user);
    }

    fn count(&mut self, number: u32, counter: Counter, by: u64)
        requires { IsPossible (Effect.Counted number counter by) self.old }
        ensures { IsMade (Effect.Counted number counter by) self.old self.new }
    {
        self.persons.count(number, counter, by);
    }

    fn set_membership(&mut self, row: MembershipRow)
        requires possible { IsPossible (set_of row) self.old }
        requires fresh { row.last_time_read ≡ row.added_at }
        ensures { IsMade (set_of row) self.old self.new }
    {
        self.memberships.set(row).unwrap();
    }

    fn remove_membership(&mut self, person: u32, conference: u32)
        requires { IsPossible (Effect.MemberGone person conference) self.old }
        ensures { IsMade (Effect.MemberGone person conference) self.old self.new }
    {
        self.memberships.remove(person, conference);
    }

    fn set_read(&mut self, person: u32, conference: u32, at: Moment, ranges: ReadRanges)
        requires { IsPossible (Effect.ReadSet person conference at ranges) self.old }
        ensures { IsMade (Effect.ReadSet person conference at ranges) self.old self.new }
    {
        self.memberships
            .set_read(person, conference, at, ranges.into_vec());
    }
}
