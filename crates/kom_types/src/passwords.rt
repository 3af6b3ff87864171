ghost use Rattle.std.specs.Prelude.{◌≡◌};
ghost use Rattle.kom_types.specs.tables.Persons.{password_hash};

use crate::lists::Bytes;
use sha2::{Digest, Sha256};
use std::marker::Model;

/// What is kept of a person's password.
#[tactic(auto, unfolding(crate::specs::tables::Persons::password_hash))]
pub fn password_hash(person: u32, password: &[u8]) -> [u8; 32]
    ensures { result ≡ password_hash person password.now }
{
    let mut hasher = Sha256::new();
    hasher.update(person.to_be_bytes());
    hasher.update(password);
    hasher.finalize()
}

/// The password of a login, with what would be kept of it for a person. Contracts see its bytes.
#[derive(Drop)]
pub struct LoginPassword {
    bytes: Bytes,
    person: u32,
    hash: [u8; 32],
}

impl Model for LoginPassword {
    ghost use Rattle.std.specs.Prelude.{◌≡◌, List, ℕ};
    ghost use Rattle.kom_types.specs.tables.Persons.{password_hash};

    ghost Value = { List ℕ };

    ghost view = { λ password. password.bytes };

    ghost invariant = { λ password. password.hash ≡ password_hash password.person password.bytes };
}

impl PartialEq for LoginPassword {
    ghost use Rattle.std.specs.Prelude.{nat_eq};
    ghost use Rattle.std.specs.Cmp.{nat_eq_equiv, partial_equiv_from_equiv};
    ghost use Rattle.std.specs.Cmp.Lexicographic.{pointwise, lists_per};

    ghost eq = { pointwise nat_eq };

    ghost laws = { lists_per (partial_equiv_from_equiv nat_eq_equiv) };

    fn eq(&self, other: &LoginPassword) -> bool {
        self.as_slice() == other.as_slice()
    }
}

impl LoginPassword {
    /// These bytes, hashed for the person who is to be logged in.
    pub fn of(person: u32, bytes: Bytes) -> LoginPassword
        ensures { result ≡ bytes }
    {
        let hash = password_hash(person, bytes.as_slice());
        LoginPassword {
            bytes,
            person,
            hash,
        }
    }

    pub fn as_slice(&self) -> &[u8]
        ensures { result.now ≡ self.now }
    {
        self.bytes.as_slice()
    }

    /// What would be kept of it for a person. For the one that it was made for nothing is hashed.
    pub fn hash_for(&self, person: u32) -> [u8; 32]
        ensures { result ≡ password_hash person self.now }
    {
        if person == self.person {
            self.hash
        } else {
            password_hash(person, self.bytes.as_slice())
        }
    }
}
