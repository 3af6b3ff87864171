//! Which memberships may be hidden from somebody.
ghost use Rattle.std.specs.Prelude.{◌≡◌, ℕ, Bool, ◌&&◌, ◌==◌, nat_eq, map, take};
ghost use Rattle.std.specs.List.{count_by, list_any, IsDistinct};
ghost use Rattle.kom_types.specs.tables.Memberships.{is_secret_membership};
ghost use Rattle.kom_model.specs.Db.{memberships_of, members_of};
ghost use Rattle.kom_state.specs.Secrecy.{secret_numbers};

use crate::stored_rows::StoredRows;

impl StoredRows {
    /// The persons whose membership in a conference is secret, each once, in any order. Takes
    /// constant time.
    #[tactic(auto, unfolding(kom_model::specs::Db::members_of))]
    pub fn secret_members(&self, conference: u32) -> &[u32]
        ensures counted { (test : ℕ → Bool) → count_by test result.now ≡ count_by
            (λ row. is_secret_membership row.kind && test row.person)
            (members_of self.now.db conference) }
        ensures once { IsDistinct nat_eq
            (map (λ row. row.person) (members_of self.now.db conference)) }
    {
        self.memberships.secret_in_conference(conference)
    }

    /// The conferences in which a person's membership is secret, each once, in any order. Takes
    /// constant time.
    #[tactic(auto, unfolding(kom_model::specs::Db::memberships_of))]
    pub fn secret_memberships(&self, person: u32) -> &[u32]
        ensures { (test : ℕ → Bool) → count_by test result.now ≡ count_by
            (λ row. is_secret_membership row.kind && test row.conference)
            (memberships_of self.now.db person) }
    {
        self.memberships.secret_of_person(person)
    }

    /// The numbers of the secret conferences, rising. Takes constant time.
    pub fn secret_conferences(&self) -> &[u32]
        ensures { result.now ≡ secret_numbers self.now.db }
    {
        self.conferences.secret()
    }

    /// Whether a person is among so many who joined a conference first, in constant time.
    #[tactic(auto, unfolding(kom_model::specs::Db::members_of))]
    pub fn is_among_first(&self, person: u32, conference: u32, count: usize) -> bool
        ensures { result ≡ list_any (λ row. row.person == person)
            (take count (members_of self.now.db conference)) }
    {
        self.memberships.is_among_first(person, conference, count)
    }
}
