ghost use Rattle.std.specs.Prelude.{◌≡◌, ◌+◌, ◌≤◌, length, OnOk};
ghost use Rattle.kom_types.specs.declared.limits.TheConstants.{LAST_DRAWN};
ghost use Rattle.kom_model.specs.Db.{next_item_of};
ghost use Rattle.kom_model.specs.calls.AuxItems as AuxItems;
ghost use Rattle.kom_model.specs.calls.Guards as Guard;
ghost use Rattle.kom_model.specs.Viewers.{has_might as has_might_in};
ghost use Rattle.kom_model.specs.calls.Guards.{Guards};

use crate::stored_rows::StoredRows;
use kom_model::{Refused, Viewer};
use kom_types::bits::WHEEL_AND_ADMIN;
use kom_types::limits::LAST_CONFERENCE;
use kom_types::{AuxChange, LoginPassword, errors, password_hash};

impl StoredRows {
    /// Whether a person's privileges let its sessions be strong.
    pub fn has_might(&self, person: u32) -> bool
        ensures { result ≡ has_might_in self.now.db person }
    {
        match self.person(person) {
            None => false,
            Some(row) => row.privileges & WHEEL_AND_ADMIN != 0,
        }
    }

    /// The person is there.
    pub fn person_guard(&self, number: u32) -> Result<(), Refused>
        ensures { Guards (Guard.person_guard self.now.db number) result }
    {
        if number == 0 {
            refuse(errors::CONFERENCE_ZERO, 0)
        } else if self.person(number).is_none() {
            refuse(errors::UNDEFINED_PERSON, number)
        } else {
            Ok(())
        }
    }

    /// No conference but the one of this number, or 0, has a name that clashes.
    pub fn free_guard(&self, number: u32, name: &[u8]) -> Result<(), Refused>
        ensures { Guards (Guard.free_guard self.now.db number name.now) result }
    {
        match self.names.taken(name) {
            None => Ok(()),
            Some(other) => {
                if other == number {
                    Ok(())
                } else if self.has_letterbox(other) {
                    refuse(errors::PERSON_EXISTS, 0)
                } else {
                    refuse(errors::CONFERENCE_EXISTS, 0)
                }
            }
        }
    }

    /// A conference's number is left.
    #[tactic(auto, unfolding(kom_model::specs::Db::next_conference_of))]
    pub fn drawn_guard(&self) -> Result<(), Refused>
        ensures { Guards (Guard.drawn_guard self.now.db) result }
    {
        if self.next_conference <= LAST_CONFERENCE {
            Ok(())
        } else {
            refuse(errors::TEMPORARY_FAILURE, 0)
        }
    }

    /// A number is left for each aux-item that a change adds.
    pub fn numbers_guard(&self, on_text: bool, change: &AuxChange) -> Result<(), Refused>
        ensures refused { Guards
            (AuxItems.numbers_guard self.now.db on_text change.now) result }
        ensures left { OnOk result (next_item_of self.now.db on_text change.now.object
            + length change.now.add ≤ LAST_DRAWN + 1) }
    {
        let left = u32::MAX - self.next_item(on_text, change.object);
        if change.add.len() <= left as usize {
            Ok(())
        } else {
            refuse(errors::TEMPORARY_FAILURE, 0)
        }
    }

    /// The person has this password, or the caller's session is strong.
    pub fn password_guard(
        &self,
        caller: &Viewer,
        person: u32,
        password: &[u8],
    ) -> Result<(), Refused>
        ensures { Guards
            (Guard.password_guard self.now.db caller.now person password.now) result }
    {
        if caller.strong || self.agrees(person, password) {
            Ok(())
        } else {
            refuse(errors::INVALID_PASSWORD, person)
        }
    }

    /// The same of a login, whose password has its hash already.
    pub fn login_password_guard(
        &self,
        caller: &Viewer,
        person: u32,
        password: &LoginPassword,
    ) -> Result<(), Refused>
        ensures { Guards
            (Guard.password_guard self.now.db caller.now person password.now) result }
    {
        if caller.strong || self.agrees_at_login(person, password) {
            Ok(())
        } else {
            refuse(errors::INVALID_PASSWORD, person)
        }
    }

    /// Whether a person has this password.
    fn agrees(&self, person: u32, password: &[u8]) -> bool
        ensures { result ≡ Guard.agrees self.now.db person password.now }
    {
        match self.person(person) {
            None => false,
            Some(row) => row.hash == password_hash(person, password),
        }
    }

    fn agrees_at_login(&self, person: u32, password: &LoginPassword) -> bool
        ensures { result ≡ Guard.agrees self.now.db person password.now }
    {
        match self.person(person) {
            None => false,
            Some(row) => row.hash == password.hash_for(person),
        }
    }
}

fn refuse(code: u32, status: u32) -> Result<(), Refused>
    ensures { Guards (Guard.refusal code status) result }
{
    Err(Refused { code, status })
}
