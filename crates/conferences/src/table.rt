ghost use Rattle.std.specs.Prelude.{◌≡◌, ◌+◌, ◌<◌, ◌≤◌, [], None, length, option_copied};
ghost use Rattle.std.specs.Prelude.{map, filter};
ghost use Rattle.std.specs.Prelude.{IsOk, IfOk, OnOk, OnErr};
ghost use Rattle.row_table.specs.Tables.{row_of, with_row, without_row, changed_row, IsByNumber};
ghost use Rattle.kom_types.specs.tables.Conferences.{number_of_conference, with_field, with_name};
ghost use Rattle.kom_types.specs.tables.Conferences.{with_local_drawn, with_item_drawn};
ghost use Rattle.kom_types.specs.tables.Conferences.{is_secret_conference};
ghost use Rattle.conferences.specs.Numbers.{with_next_local, with_next_item};

use crate::changes::{Rename, SetField, SetNextItem, SetNextLocal};
use crate::keyed::ByNumber;
use crate::secret::SecretNumbers;
use kom_types::bits::is_secret_conference;
use kom_types::{Bytes, ConfField, ConferenceRow, Memory};
use row_table::Table;
use std::alloc::Global;
use std::marker::Model;

/// The rows of the conferences.
///
/// All but `reserve`, and a `put` that takes memory, are done in constant time, with one exception:
/// `put`, `remove` and a change of the type look a number up among the secret ones by halving, and
/// move those after it where it comes or goes.
#[derive(Drop)]
pub struct Conferences {
    rows: Table<ByNumber>,
    /// The secret ones, with room for all.
    secret: SecretNumbers,
}

impl Model for Conferences {
    ghost use Rattle.std.specs.Prelude.{◌-◌, min, length};
    ghost use Rattle.row_table.specs.Tables.{Tabled};
    ghost use Rattle.kom_types.specs.declared.conferences.ConferenceRow.{ConferenceRow};
    ghost use Rattle.conferences.specs.Secret.{IsListed};

    ghost Value = { Tabled ConferenceRow };

    ghost view = { λ conferences. record {
      rows = conferences.rows.rows;
      spare = min conferences.rows.spare (conferences.secret.room - length conferences.rows.rows);
    } };

    ghost invariant = { λ conferences. IsListed conferences.rows.rows conferences.secret };
}

impl Conferences {
    /// The table without a conference. It takes no memory yet.
    pub fn new(alloc: Global) -> Conferences
        ensures { result.rows ≡ [] }
    {
        Conferences {
            rows: Table::new(alloc),
            secret: SecretNumbers::new(alloc),
        }
    }

    /// How many conferences there are.
    pub fn len(&self) -> usize
        ensures { result ≡ length self.now.rows }
    {
        self.rows.len()
    }

    /// The numbers of the conferences, rising. The list has four bytes for each.
    pub fn numbers(&self) -> Result<Vec<u32>, Memory>
        ensures { IfOk result (λ numbers. numbers.items ≡ map number_of_conference self.now.rows) }
    {
        Ok(self.rows.numbers()?)
    }

    /// The row of a conference, if it is there.
    pub fn get(&self, number: u32) -> Option<&ConferenceRow>
        ensures row { option_copied result ≡ row_of number_of_conference number self.now.rows }
        ensures rising { IsByNumber number_of_conference self.now.rows }
    {
        self.rows.get(number)
    }

    /// The numbers of the secret conferences, rising.
    pub fn secret(&self) -> &[u32]
        ensures { result.now ≡ map number_of_conference
            (filter (λ row. is_secret_conference row.kind) self.now.rows) }
    {
        self.secret.as_slice()
    }

    /// Puts a row in, in place of the one of its number if there is one, which takes no memory.
    pub fn put(&mut self, row: ConferenceRow) -> Result<(), Memory>
        ensures ok { OnOk result (self.new.rows ≡ with_row number_of_conference row self.old.rows) }
        ensures err { OnErr result (self.new.rows ≡ self.old.rows) }
        ensures absent { OnErr result
            (row_of number_of_conference row.number self.old.rows ≡ None) }
        ensures succeeds { 0 < self.old.spare → IsOk result }
        ensures spare { self.old.spare ≤ self.new.spare + 1 }
    {
        let number = row.number;
        let is_secret = is_secret_conference(row.kind);
        let additional = usize::from(self.rows.get(number).is_none());
        self.secret.reserve(self.rows.len(), additional)?;
        self.rows.put(row)?;
        self.secret.set(number, is_secret);
        Ok(())
    }

    /// Takes the row of a conference out, if it is there.
    pub fn remove(&mut self, number: u32) -> Option<ConferenceRow>
        ensures value { result ≡ row_of number_of_conference number self.old.rows }
        ensures rows { self.new.rows ≡ without_row number_of_conference number self.old.rows }
        ensures spare { self.old.spare ≤ self.new.spare }
    {
        self.secret.set(number, false);
        self.rows.remove(number)
    }

    /// Makes room for so many more conferences.
    pub fn reserve(&mut self, additional: usize) -> Result<(), Memory>
        ensures rows { self.new.rows ≡ self.old.rows }
        ensures ok { OnOk result (additional ≤ self.new.spare) }
        ensures err { OnErr result (self.old.spare < additional) }
        ensures spare { self.old.spare ≤ self.new.spare }
    {
        self.secret.reserve(self.rows.len(), additional)?;
        self.rows.reserve(additional)?;
        Ok(())
    }

    /// Sets a field of a conference, if it is there. Takes no memory, as `rename`.
    pub fn set_field(&mut self, number: u32, field: ConfField)
        ensures rows { self.new.rows
            ≡ changed_row number_of_conference number (with_field field) self.old.rows }
        ensures spare { self.old.spare ≤ self.new.spare }
    {
        if self.rows.get(number).is_none() {
            return;
        }
        self.rows.change(number, SetField(field));
        if let ConfField::Kind(kind) = &field {
            self.secret.set(number, is_secret_conference(*kind));
        }
    }

    /// Notes that a text of a conference has got this local number: the next one gets a greater.
    pub fn draw_local(&mut self, number: u32, local: u32)
        requires { local < 4294967295 }
        ensures rows { self.new.rows
            ≡ changed_row number_of_conference number (with_local_drawn local) self.old.rows }
        ensures spare { self.old.spare ≤ self.new.spare }
    {
        self.rows.change(number, SetNextLocal(local + 1));
    }

    /// Notes that an aux-item of a conference has got this number: the next one gets a greater.
    pub fn draw_item(&mut self, number: u32, item: u32)
        requires { item < 4294967295 }
        ensures rows { self.new.rows
            ≡ changed_row number_of_conference number (with_item_drawn item) self.old.rows }
        ensures spare { self.old.spare ≤ self.new.spare }
    {
        self.rows.change(number, SetNextItem(item + 1));
    }

    /// The next text of a conference gets this local number.
    pub fn set_next_local(&mut self, number: u32, next: u32)
        ensures rows { self.new.rows
            ≡ changed_row number_of_conference number (with_next_local next) self.old.rows }
        ensures spare { self.old.spare ≤ self.new.spare }
    {
        self.rows.change(number, SetNextLocal(next));
    }

    /// The next aux-item of a conference gets this number.
    pub fn set_next_item(&mut self, number: u32, next: u32)
        ensures rows { self.new.rows
            ≡ changed_row number_of_conference number (with_next_item next) self.old.rows }
        ensures spare { self.old.spare ≤ self.new.spare }
    {
        self.rows.change(number, SetNextItem(next));
    }

    /// Gives a conference another name.
    pub fn rename(&mut self, number: u32, name: Bytes)
        ensures rows { self.new.rows
            ≡ changed_row number_of_conference number (with_name name) self.old.rows }
        ensures spare { self.old.spare ≤ self.new.spare }
    {
        self.rows.change(number, Rename(name));
    }
}
