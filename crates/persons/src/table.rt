ghost use Rattle.std.specs.Prelude.{◌≡◌, ◌+◌, ◌<◌, ◌≤◌, [], None, length, option_copied};
ghost use Rattle.std.specs.Prelude.{map, IsOk, IfOk, OnOk, OnErr};
ghost use Rattle.row_table.specs.Tables.{row_of, with_row, without_row, changed_row, IsByNumber};
ghost use Rattle.kom_types.specs.tables.Persons.{number_of_person, with_field, count_up};
ghost use Rattle.kom_types.specs.tables.Persons.{logged_in, with_hash, with_created_drawn};
ghost use Rattle.persons.specs.Numbers.{with_next_created, with_sessions};

use crate::changes::{LogIn, Rise, SetField, SetHash, SetNextCreated, SetSessions};
use crate::keyed::ByNumber;
use kom_types::{Bytes, Counter, Memory, Moment, PersonField, PersonRow};
use row_table::Table;
use std::alloc::Global;
use std::marker::Model;

/// The rows of the persons.
///
/// All but `reserve`, and a `put` that takes memory, are done in constant time.
#[derive(Drop)]
pub struct Persons {
    rows: Table<ByNumber>,
}

impl Model for Persons {
    ghost use Rattle.row_table.specs.Tables.{Tabled};
    ghost use Rattle.kom_types.specs.declared.persons.PersonRow.{PersonRow};

    ghost Value = { Tabled PersonRow };

    ghost view = { λ persons. persons.rows };
}

impl Persons {
    /// The table without a person. It takes no memory yet.
    pub fn new(alloc: Global) -> Persons
        ensures { result.rows ≡ [] }
    {
        Persons {
            rows: Table::new(alloc),
        }
    }

    /// How many persons there are.
    pub fn len(&self) -> usize
        ensures { result ≡ length self.now.rows }
    {
        self.rows.len()
    }

    /// The numbers of the persons, rising. The list has four bytes for each.
    pub fn numbers(&self) -> Result<Vec<u32>, Memory>
        ensures { IfOk result (λ numbers. numbers.items ≡ map number_of_person self.now.rows) }
    {
        Ok(self.rows.numbers()?)
    }

    /// The row of a person, if it is there.
    pub fn get(&self, number: u32) -> Option<&PersonRow>
        ensures row { option_copied result ≡ row_of number_of_person number self.now.rows }
        ensures rising { IsByNumber number_of_person self.now.rows }
    {
        self.rows.get(number)
    }

    /// Puts a row in, in place of the one of its number if there is one, which takes no memory.
    pub fn put(&mut self, row: PersonRow) -> Result<(), Memory>
        ensures ok { OnOk result (self.new.rows ≡ with_row number_of_person row self.old.rows) }
        ensures err { OnErr result (self.new.rows ≡ self.old.rows) }
        ensures absent { OnErr result (row_of number_of_person row.number self.old.rows ≡ None) }
        ensures succeeds { 0 < self.old.spare → IsOk result }
        ensures spare { self.old.spare ≤ self.new.spare + 1 }
    {
        self.rows.put(row)?;
        Ok(())
    }

    /// Takes the row of a person out, if it is there.
    pub fn remove(&mut self, number: u32) -> Option<PersonRow>
        ensures value { result ≡ row_of number_of_person number self.old.rows }
        ensures rows { self.new.rows ≡ without_row number_of_person number self.old.rows }
        ensures spare { self.old.spare ≤ self.new.spare }
    {
        self.rows.remove(number)
    }

    /// Makes room for so many more persons.
    pub fn reserve(&mut self, additional: usize) -> Result<(), Memory>
        ensures rows { self.new.rows ≡ self.old.rows }
        ensures ok { OnOk result (additional ≤ self.new.spare) }
        ensures err { OnErr result (self.old.spare < additional) }
        ensures spare { self.old.spare ≤ self.new.spare }
    {
        self.rows.reserve(additional)?;
        Ok(())
    }

    /// Sets a field of a person, if it is there. Takes no memory, as each change that follows.
    pub fn set_field(&mut self, number: u32, field: PersonField)
        ensures rows { self.new.rows
            ≡ changed_row number_of_person number (with_field field) self.old.rows }
        ensures spare { self.old.spare ≤ self.new.spare }
    {
        self.rows.change(number, SetField(field));
    }

    /// Raises a counter of a person, which stops at 4294967295.
    pub fn count(&mut self, number: u32, counter: Counter, by: u64)
        ensures rows { self.new.rows
            ≡ changed_row number_of_person number (count_up counter by) self.old.rows }
        ensures spare { self.old.spare ≤ self.new.spare }
    {
        self.rows.change(number, Rise { counter, by });
    }

    /// Notes that a text that a person made has got this number: the next one gets a greater.
    pub fn draw_created(&mut self, number: u32, local: u32)
        requires { local < 4294967295 }
        ensures rows { self.new.rows
            ≡ changed_row number_of_person number (with_created_drawn local) self.old.rows }
        ensures spare { self.old.spare ≤ self.new.spare }
    {
        self.rows.change(number, SetNextCreated(local + 1));
    }

    /// The next text that a person makes gets this number among those that it made.
    pub fn set_next_created(&mut self, number: u32, next: u32)
        ensures rows { self.new.rows
            ≡ changed_row number_of_person number (with_next_created next) self.old.rows }
        ensures spare { self.old.spare ≤ self.new.spare }
    {
        self.rows.change(number, SetNextCreated(next));
    }

    /// So many sessions of a person were counted.
    pub fn set_sessions(&mut self, number: u32, sessions: u32)
        ensures rows { self.new.rows
            ≡ changed_row number_of_person number (with_sessions sessions) self.old.rows }
        ensures spare { self.old.spare ≤ self.new.spare }
    {
        self.rows.change(number, SetSessions(sessions));
    }

    /// Notes that a person logs in at this moment, and the user name that was told.
    pub fn log_in(&mut self, number: u32, at: Moment, user: Bytes)
        ensures rows { self.new.rows
            ≡ changed_row number_of_person number (logged_in at user) self.old.rows }
        ensures spare { self.old.spare ≤ self.new.spare }
    {
        self.rows.change(number, LogIn { at, user });
    }

    /// Sets what is kept of a person's password, as `password_hash` gives it.
    pub fn set_hash(&mut self, number: u32, hash: [u8; 32])
        ensures rows { self.new.rows
            ≡ changed_row number_of_person number (with_hash hash) self.old.rows }
        ensures spare { self.old.spare ≤ self.new.spare }
    {
        self.rows.change(number, SetHash(hash));
    }
}
