//! The memberships of a person, and the members of a conference, one after the other.
ghost use Rattle.std.specs.Prelude.{◌≡◌, drop, map};
ghost use Rattle.kom_model.specs.Db.{memberships_of, members_of};
ghost use Rattle.kom_types.specs.tables.Memberships.{member_of};

use crate::stored_rows::StoredRows;
use kom_types::{Member, MembershipRow};
use std::marker::Model;

/// The memberships of a person from a place on, by their places.
#[derive(Drop)]
pub struct MembershipWalk<'a> {
    rows: &'a StoredRows,
    person: u32,
    place: usize,
}

impl<'a> Model for MembershipWalk<'a> {
    ghost use Rattle.std.specs.Prelude.{List, drop};
    ghost use Rattle.kom_types.specs.declared.memberships.MembershipRow.{MembershipRow};
    ghost use Rattle.kom_model.specs.Db.{memberships_of};

    ghost Value = { List MembershipRow };

    ghost view = { λ walk. drop walk.place (memberships_of walk.rows.now.db walk.person) };
}

impl<'a> Iterator for MembershipWalk<'a> {
    type Item = MembershipRow;

    ghost use Rattle.std.specs.Iterator.{YieldsFirst, item_count};

    ghost next_gives = { YieldsFirst (λ s. s) };

    ghost remaining = { item_count (λ s. s) };

    fn next(&mut self) -> Option<MembershipRow> {
        if self.place >= self.rows.membership_count(self.person) {
            return None;
        }
        let row = self.rows.nth_membership(self.person, self.place)?;
        self.place += 1;
        Some(row)
    }
}

/// The members of a conference from a place on, in the order of joining.
#[derive(Drop)]
pub struct MemberWalk<'a> {
    rows: &'a StoredRows,
    conference: u32,
    place: usize,
}

impl<'a> Model for MemberWalk<'a> {
    ghost use Rattle.std.specs.Prelude.{List, drop, map};
    ghost use Rattle.kom_types.specs.declared.memberships.Member.{Member};
    ghost use Rattle.kom_model.specs.Db.{members_of};
    ghost use Rattle.kom_types.specs.tables.Memberships.{member_of};

    ghost Value = { List Member };

    ghost view = { λ walk.
        map member_of (drop walk.place (members_of walk.rows.now.db walk.conference)) };
}

impl<'a> Iterator for MemberWalk<'a> {
    type Item = Member;

    ghost use Rattle.std.specs.Iterator.{YieldsFirst, item_count};

    ghost next_gives = { YieldsFirst (λ s. s) };

    ghost remaining = { item_count (λ s. s) };

    fn next(&mut self) -> Option<Member> {
        if self.place >= self.rows.member_count(self.conference) {
            return None;
        }
        let member = self.rows.nth_member(self.conference, self.place)?;
        self.place += 1;
        Some(member)
    }
}

impl StoredRows {
    /// The memberships of a person, by their places.
    pub fn memberships(&self, person: u32) -> MembershipWalk<'_>
        ensures { result ≡ memberships_of self.now.db person }
    {
        MembershipWalk {
            rows: self,
            person,
            place: 0,
        }
    }

    /// The memberships of a person from a place on, by their places.
    pub fn memberships_from(&self, person: u32, place: usize) -> MembershipWalk<'_>
        ensures { result ≡ drop place (memberships_of self.now.db person) }
    {
        MembershipWalk {
            rows: self,
            person,
            place,
        }
    }

    /// The members of a conference, in the order of joining.
    pub fn members(&self, conference: u32) -> MemberWalk<'_>
        ensures { result ≡ map member_of (members_of self.now.db conference) }
    {
        MemberWalk {
            rows: self,
            conference,
            place: 0,
        }
    }

    /// The members of a conference from a place on, in the order of joining.
    pub fn members_from(&self, conference: u32, place: usize) -> MemberWalk<'_>
        ensures { result ≡ map member_of (drop place (members_of self.now.db conference)) }
    {
        MemberWalk {
            rows: self,
            conference,
            place,
        }
    }
}
