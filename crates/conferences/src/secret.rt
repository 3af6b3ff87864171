//! The numbers of the secret conferences, which are kept beside the rows.
ghost use Rattle.std.specs.Prelude.{◌≡◌, ◌+◌, ◌<◌, ◌≤◌, [], length, OnOk, OnErr};
ghost use Rattle.conferences.specs.Secret.{with_if};

use kom_types::Memory;
use std::alloc::Global;
use std::marker::Model;

/// Numbers of conferences, rising.
#[derive(Drop)]
pub(crate) struct SecretNumbers {
    numbers: Vec<u32>,
}

impl Model for SecretNumbers {
    ghost use Rattle.std.specs.Prelude.{vec_capacity};
    ghost use Rattle.conferences.specs.Secret.{Listed, IsRising};

    ghost Value = { Listed };

    ghost view = { λ secret. record {
      numbers = secret.numbers.items;
      room = vec_capacity secret.numbers;
    } };

    ghost invariant = { λ secret. IsRising secret.numbers.items };
}

impl SecretNumbers {
    /// No number. It takes no memory yet.
    pub(crate) fn new(alloc: Global) -> SecretNumbers
        ensures { result.numbers ≡ [] }
    {
        SecretNumbers {
            numbers: Vec::new(alloc),
        }
    }

    pub(crate) fn as_slice(&self) -> &[u32]
        ensures { result.now ≡ self.now.numbers }
    {
        self.numbers.as_slice()
    }

    /// Makes room for the numbers of so many conferences, and of so many more.
    pub(crate) fn reserve(&mut self, conferences: usize, additional: usize) -> Result<(), Memory>
        ensures numbers { self.new.numbers ≡ self.old.numbers }
        ensures ok { OnOk result (conferences + additional ≤ self.new.room) }
        ensures err { OnErr result (self.old.room < conferences + additional) }
        ensures room { self.old.room ≤ self.new.room }
    {
        let count = self.numbers.len();
        let room = conferences.checked_add(additional).ok_or(Memory)?;
        self.numbers.reserve(room.saturating_sub(count))?;
        Ok(())
    }

    /// Puts a number in its place, or takes it out. Takes no memory.
    pub(crate) fn set(&mut self, number: u32, is_in: bool)
        requires { length (with_if is_in number self.old.numbers) ≤ self.old.room }
        ensures numbers { self.new.numbers ≡ with_if is_in number self.old.numbers }
        ensures room { self.new.room ≡ self.old.room }
    {
        match self.numbers.binary_search(&number) {
            Ok(place) if !is_in => {
                self.numbers.remove(place);
            }
            Err(place) if is_in => self.numbers.insert(place, number).unwrap(),
            _ => {}
        }
    }
}
