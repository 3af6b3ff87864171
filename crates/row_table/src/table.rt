ghost use Rattle.std.specs.Prelude.{◌≡◌, ◌+◌, ◌<◌, ◌≤◌, [], None, length, option_copied};
ghost use Rattle.std.specs.Prelude.{map, IsOk, IfOk, OnOk, OnErr};
ghost use Rattle.row_table.specs.Tables.{row_of, with_row, without_row, changed_row, IsByNumber};

use crate::keyed::{Change, Keyed};
use indexmap::IndexMap;
use std::alloc::{AllocError, Global};
use std::marker::Model;

/// Rows of one type, each found by its number.
///
/// All but `reserve`, and a `put` that takes memory, are done in constant time.
#[derive(Drop)]
pub struct Table<K: Keyed> {
    rows: IndexMap<u32, K::Row>,
}

impl<K: Keyed> Model for Table<K> {
    ghost use Rattle.row_table.specs.Tables.{Tabled};
    ghost use Rattle.row_table.specs.Keeping.{table_of, IsKept};

    ghost Value = { Tabled K.Row };

    ghost view = { λ t. table_of K.number_of t.rows };

    ghost invariant = { λ t. IsKept K.number_of t.rows };
}

impl<K: Keyed> Table<K> {
    /// The empty table. It takes no memory yet.
    pub fn new(alloc: Global) -> Table<K>
        ensures { result.rows ≡ [] }
    {
        Table {
            rows: IndexMap::new(alloc),
        }
    }

    pub fn len(&self) -> usize
        ensures len { result ≡ length self.now.rows }
        ensures rising { IsByNumber K.number_of self.now.rows }
    {
        self.rows.len()
    }

    /// The row of a number, if it is there.
    pub fn get(&self, number: u32) -> Option<&K::Row>
        ensures row { option_copied result ≡ row_of K.number_of number self.now.rows }
        ensures rising { IsByNumber K.number_of self.now.rows }
    {
        self.rows.get(&number)
    }

    /// The numbers of the rows, rising. The list has four bytes for each row.
    pub fn numbers(&self) -> Result<Vec<u32>, AllocError>
        ensures { IfOk result (λ numbers. numbers.items ≡ map K.number_of self.now.rows) }
    {
        let mut numbers: Vec<u32> = self.rows.keys().copied().collect(*self.rows.allocator())?;
        numbers.sort_unstable();
        numbers.dedup();
        Ok(numbers)
    }

    /// Puts a row in, in place of the one of its number if there is one, which takes no memory.
    pub fn put(&mut self, row: K::Row) -> Result<(), AllocError>
        ensures ok { OnOk result (self.new.rows ≡ with_row K.number_of row self.old.rows) }
        ensures err { OnErr result (self.new.rows ≡ self.old.rows) }
        ensures absent { OnErr result
            (row_of K.number_of (K.number_of row) self.old.rows ≡ None) }
        ensures succeeds { 0 < self.old.spare → IsOk result }
        ensures spare { self.old.spare ≤ self.new.spare + 1 }
    {
        let number = K::number_of(&row);
        self.rows.insert(number, row)?;
        Ok(())
    }

    /// Takes the row of a number out, if it is there.
    pub fn remove(&mut self, number: u32) -> Option<K::Row>
        ensures value { result ≡ row_of K.number_of number self.old.rows }
        ensures rows { self.new.rows ≡ without_row K.number_of number self.old.rows }
        ensures spare { self.old.spare ≤ self.new.spare }
    {
        self.rows.swap_remove(&number)
    }

    /// Changes the row of a number, if it is there, in its place. Takes no memory.
    pub fn change<C: Change<K>>(&mut self, number: u32, change: C)
        ensures rows { self.new.rows
            ≡ changed_row K.number_of number (C.changed change) self.old.rows }
        ensures spare { self.old.spare ≤ self.new.spare }
    {
        if let Some(row) = self.rows.get_mut(&number) {
            change.change(row);
        }
    }

    /// Makes room for so many more rows.
    pub fn reserve(&mut self, additional: usize) -> Result<(), AllocError>
        ensures rows { self.new.rows ≡ self.old.rows }
        ensures ok { OnOk result (additional ≤ self.new.spare) }
        ensures err { OnErr result (self.old.spare < additional) }
        ensures spare { self.old.spare ≤ self.new.spare }
    {
        self.rows.reserve(additional)
    }
}
