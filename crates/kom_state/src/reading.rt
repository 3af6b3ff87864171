ghost use Rattle.std.specs.Prelude.{◌≡◌, length, map, filter, slice_get, option_copied, is_some};
ghost use Rattle.std.specs.Prelude.{[], option_map, IfOk, IfSome, IsNone};
ghost use Rattle.row_table.specs.Tables.{IsByNumber};
ghost use Rattle.kom_types.specs.Names.{finds};
ghost use Rattle.kom_model.specs.Db.{conference_of, person_of, membership_of};
ghost use Rattle.kom_model.specs.Db.{memberships_of, members_of, conferences_of};
ghost use Rattle.kom_types.specs.tables.Conferences.{number_of_conference};
ghost use Rattle.kom_model.specs.Db.{read_of, memberships_at};
ghost use Rattle.kom_types.specs.tables.Memberships.{member_of, at_place};
ghost use Rattle.read_ranges.specs.Numbers.{ranges_of};
ghost use Rattle.kom_state.specs.Keeping.{AreBelow};
ghost use Rattle.kom_state.specs.Placed.{AreThere, AreInPlace, AreFound};
ghost use Rattle.kom_state.specs.Secrecy.{AreFoundBySecret};

mod counts;
mod item_rows;
mod secrecy;
mod text_rows;

use crate::stored_rows::StoredRows;
use kom_types::{ConferenceRow, Member, MembershipRow, Memory, Numbers, PersonRow};
use read_ranges::Ranges;

impl StoredRows {
    /// The conference of a number, in constant time.
    #[tactic(auto, unfolding(kom_model::specs::Db::conference_of))]
    pub fn conference(&self, number: u32) -> Option<&ConferenceRow>
        ensures { option_copied result ≡ conference_of self.now.db number }
    {
        self.conferences.get(number)
    }

    /// The person of a number, in constant time.
    #[tactic(auto, unfolding(kom_model::specs::Db::person_of))]
    pub fn person(&self, number: u32) -> Option<&PersonRow>
        ensures { option_copied result ≡ person_of self.now.db number }
    {
        self.persons.get(number)
    }

    /// The least number that the next conference may get.
    #[tactic(auto, unfolding(kom_model::specs::Db::conferences_of))]
    pub fn next_conference(&self) -> u32
        ensures number { result ≡ self.now.db.next_conference }
        ensures below { AreBelow result (conferences_of self.now.db) }
        ensures rising { IsByNumber number_of_conference (conferences_of self.now.db) }
    {
        self.next_conference
    }

    /// The membership of a person in a conference. The time grows with the person's memberships.
    #[tactic(auto, unfolding(kom_model::specs::Db::membership_of))]
    pub fn membership(&self, person: u32, conference: u32) -> Option<MembershipRow>
        ensures { result ≡ membership_of self.now.db person conference }
    {
        self.memberships.get(person, conference)
    }

    /// The membership of a person in a conference as if it stood first, in constant time.
    #[tactic(auto, unfolding(kom_model::specs::Db::membership_of))]
    pub fn unplaced_membership(&self, person: u32, conference: u32) -> Option<MembershipRow>
        ensures { result
            ≡ option_map (at_place 0) (membership_of self.now.db person conference) }
    {
        self.memberships.unplaced(person, conference)
    }

    /// Whether a person has a membership in a conference, in constant time.
    #[tactic(auto, unfolding(kom_model::specs::Db::membership_of))]
    pub fn is_member(&self, person: u32, conference: u32) -> bool
        ensures { result ≡ is_some (membership_of self.now.db person conference) }
    {
        self.memberships.contains(person, conference)
    }

    /// How many memberships a person has, in constant time.
    pub fn membership_count(&self, person: u32) -> usize
        ensures count { result ≡ length (memberships_of self.now.db person) }
        ensures there { AreThere self.now.db person }
        ensures in_place { AreInPlace self.now.db person }
        ensures found { AreFound self.now.db person }
        ensures by_secret { AreFoundBySecret self.now.db person }
    {
        self.memberships.count_of_person(person)
    }

    /// The membership of a person at a place, in constant time.
    #[tactic(auto, unfolding(kom_model::specs::Db::memberships_of))]
    pub fn nth_membership(&self, person: u32, place: usize) -> Option<MembershipRow>
        ensures { result ≡ slice_get (memberships_of self.now.db person) place }
    {
        self.memberships.nth_of_person(person, place)
    }

    /// The person and the conference of each membership in the conference of a number, or of the
    /// person of that number, in the order of joining. The time grows with their number, times its
    /// logarithm.
    #[tactic(auto, unfolding(kom_model::specs::Db::memberships_at))]
    pub fn membership_keys_at(&self, number: u32) -> Result<Vec<(u32, u32)>, Memory>
        ensures { IfOk result (λ keys. keys.items
            ≡ map (λ row. (row.person, row.conference)) (memberships_at self.now.db number)) }
    {
        self.memberships.keys_at(number)
    }

    /// How many members a conference has, in constant time.
    #[tactic(auto, unfolding(kom_model::specs::Db::members_of))]
    pub fn member_count(&self, conference: u32) -> usize
        ensures { result ≡ length (members_of self.now.db conference) }
    {
        self.memberships.count_of_conference(conference)
    }

    /// The member at a place among those of a conference, in the order of joining, in constant
    /// time.
    #[tactic(auto, unfolding(kom_model::specs::Db::members_of))]
    pub fn nth_member(&self, conference: u32, place: usize) -> Option<Member>
        ensures { result
            ≡ option_map member_of (slice_get (members_of self.now.db conference) place) }
    {
        self.memberships.nth_member(conference, place)
    }

    /// What a person has read of a conference, if it is a member, in constant time.
    #[tactic(auto, unfolding(kom_model::specs::Db::membership_of, kom_model::specs::Db::read_of))]
    pub fn read(&self, person: u32, conference: u32) -> Option<&Ranges>
        ensures there { is_some result ≡ is_some (membership_of self.now.db person conference) }
        ensures ranges { IfSome result
            (λ read. ranges_of read.now.numbers ≡ read_of self.now.db person conference) }
        ensures none { IsNone result → read_of self.now.db person conference ≡ [] }
    {
        self.memberships.read(person, conference)
    }

    /// The numbers of the conferences whose names a pattern finds, rising.
    #[tactic(auto, unfolding(kom_model::specs::Db::conferences_of))]
    pub fn find_conferences(&self, pattern: &[u8]) -> Result<Numbers, Memory>
        ensures found { IfOk result (λ numbers. numbers ≡ map number_of_conference
            (filter (λ row. finds pattern.now row.name) (conferences_of self.now.db))) }
        ensures rising { IsByNumber number_of_conference (conferences_of self.now.db) }
    {
        self.names.find(pattern)
    }
}
