ghost use Rattle.std.specs.Prelude.{◌≡◌, ◌+◌, ◌<◌, ◌≤◌, [], None, length, option_copied};
ghost use Rattle.std.specs.Prelude.{map, IsOk, IfOk, OnOk, OnErr};
ghost use Rattle.row_table.specs.Tables.{row_of, with_row, without_row, changed_row, IsByNumber};
ghost use Rattle.kom_types.specs.tables.Texts.{number_of_text, with_created_local};
ghost use Rattle.kom_types.specs.tables.Texts.{with_item_drawn};
ghost use Rattle.texts.specs.Keeping.{with_next_item};

use crate::changes::{SetCreatedLocal, SetNextItem};
use crate::keyed::ByNumber;
use kom_types::{Memory, TextRow};
use row_table::Table;
use std::alloc::Global;
use std::marker::Model;

/// The rows of the texts.
///
/// All but `reserve`, and a `put` that takes memory, are done in constant time.
#[derive(Drop)]
pub struct TextTable {
    rows: Table<ByNumber>,
}

impl Model for TextTable {
    ghost use Rattle.row_table.specs.Tables.{Tabled};
    ghost use Rattle.kom_types.specs.declared.texts.TextRow.{TextRow};

    ghost Value = { Tabled TextRow };

    ghost view = { λ texts. texts.rows };
}

impl TextTable {
    /// The table without a text. It takes no memory yet.
    pub fn new(alloc: Global) -> TextTable
        ensures { result.rows ≡ [] }
    {
        TextTable {
            rows: Table::new(alloc),
        }
    }

    /// How many texts there are.
    pub fn len(&self) -> usize
        ensures { result ≡ length self.now.rows }
    {
        self.rows.len()
    }

    /// The numbers of the texts, rising. The list has four bytes for each.
    pub fn numbers(&self) -> Result<Vec<u32>, Memory>
        ensures { IfOk result (λ numbers. numbers.items ≡ map number_of_text self.now.rows) }
    {
        Ok(self.rows.numbers()?)
    }

    /// The row of a text, if it is there.
    pub fn get(&self, number: u32) -> Option<&TextRow>
        ensures row { option_copied result ≡ row_of number_of_text number self.now.rows }
        ensures rising { IsByNumber number_of_text self.now.rows }
    {
        self.rows.get(number)
    }

    /// Puts a row in, in place of the one of its number if there is one, which takes no memory.
    pub fn put(&mut self, row: TextRow) -> Result<(), Memory>
        ensures ok { OnOk result (self.new.rows ≡ with_row number_of_text row self.old.rows) }
        ensures err { OnErr result (self.new.rows ≡ self.old.rows) }
        ensures absent { OnErr result (row_of number_of_text row.number self.old.rows ≡ None) }
        ensures succeeds { 0 < self.old.spare → IsOk result }
        ensures spare { self.old.spare ≤ self.new.spare + 1 }
    {
        self.rows.put(row)?;
        Ok(())
    }

    /// Takes the row of a text out, if it is there.
    pub fn remove(&mut self, number: u32) -> Option<TextRow>
        ensures value { result ≡ row_of number_of_text number self.old.rows }
        ensures rows { self.new.rows ≡ without_row number_of_text number self.old.rows }
        ensures spare { self.old.spare ≤ self.new.spare }
    {
        self.rows.remove(number)
    }

    /// Makes room for so many more texts.
    pub fn reserve(&mut self, additional: usize) -> Result<(), Memory>
        ensures rows { self.new.rows ≡ self.old.rows }
        ensures ok { OnOk result (additional ≤ self.new.spare) }
        ensures err { OnErr result (self.old.spare < additional) }
        ensures spare { self.old.spare ≤ self.new.spare }
    {
        self.rows.reserve(additional)?;
        Ok(())
    }

    /// Gives a text a number among those that its author made. Takes no memory.
    pub fn set_created_local(&mut self, number: u32, local: u32)
        ensures rows { self.new.rows
            ≡ changed_row number_of_text number (with_created_local local) self.old.rows }
        ensures spare { self.old.spare ≤ self.new.spare }
    {
        self.rows.change(number, SetCreatedLocal(local));
    }

    /// The next aux-item of a text gets this number. Takes no memory.
    pub fn set_next_item(&mut self, number: u32, next: u32)
        ensures rows { self.new.rows
            ≡ changed_row number_of_text number (with_next_item next) self.old.rows }
        ensures spare { self.old.spare ≤ self.new.spare }
    {
        self.rows.change(number, SetNextItem(next));
    }

    /// Notes that an aux-item of a text has got this number: the next one gets a greater. Takes no
    /// memory.
    pub fn draw_item(&mut self, number: u32, item: u32)
        requires { item < 4294967295 }
        ensures rows { self.new.rows
            ≡ changed_row number_of_text number (with_item_drawn item) self.old.rows }
        ensures spare { self.old.spare ≤ self.new.spare }
    {
        self.rows.change(number, SetNextItem(item + 1));
    }
}
