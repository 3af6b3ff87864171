ghost use Rattle.std.specs.Prelude.{◌≡◌, ◌<◌, ◌+◌, ◌==◌, [], None, length, take, slice_get};
ghost use Rattle.std.specs.Prelude.{option_map};
ghost use Rattle.std.specs.Prelude.{nat_eq, is_some, IsNone, IsSome, IfSome, IsOk, OnOk, OnErr};
ghost use Rattle.std.specs.List.{IsDistinct, list_any};
ghost use Rattle.kom_types.specs.tables.Memberships.{membership_of, members_of, memberships_of};
ghost use Rattle.kom_types.specs.tables.Memberships.{count_of, with_membership, without_membership};
ghost use Rattle.memberships.specs.Table.{room_of_person, room_of_conference};
ghost use Rattle.memberships.specs.Table.{HasRoom, KeepsRoom, UsesRoom, IsOrderly};
ghost use Rattle.kom_types.specs.tables.Memberships.{member_of};
ghost use Rattle.read_ranges.specs.ListFault.{IsFaultless};
ghost use Rattle.read_ranges.specs.Merged.{merge_all};
ghost use Rattle.read_ranges.specs.Numbers.{ranges_of};
ghost use Rattle.read_ranges.specs.Reads.{read_of, with_reader, without_reader};
ghost use Rattle.read_ranges.specs.Reads.{with_read, read_at};

mod keys;
mod places;
mod secrets;

use crate::kept::Kept;
use crate::table::secrets::{is_secret, relist};
use indexmap::IndexMap;
use kom_types::{Member, MembershipRow, Memory, Moment, ReadRange};
use read_ranges::Ranges;
use row_slots::Lists;
use std::alloc::Global;
use std::marker::Model;

/// The memberships of persons in conferences, in the order of joining, each with its position among
/// those of its person and with what was read in it.
pub struct Memberships {
    /// What is kept of each membership, by its person and its conference.
    entries: IndexMap<(u32, u32), Kept>,
    /// The conferences of each person, by position.
    conferences: Lists,
    /// The persons in each conference, in the order of joining.
    persons: Lists,
    /// The conferences in which each person's membership is secret.
    secret_conferences: Lists,
    /// The persons whose membership in each conference is secret.
    secret_persons: Lists,
    next_turn: u64,
}

// A call of its own, so that whoever lets the table go has one step to prove and not one for each
// part.
impl Drop for Memberships {
    fn drop(self) {
        let Memberships {
            entries,
            conferences,
            persons,
            secret_conferences,
            secret_persons,
            next_turn: _,
        } = self;
        drop((entries, conferences, persons));
        drop((secret_conferences, secret_persons));
    }
}

impl Model for Memberships {
    ghost use Rattle.std.specs.Prelude.{◌-◌, min};
    ghost use Rattle.indexmap.specs.IndexMap.{spare};
    ghost use Rattle.memberships.specs.Entries.{rows_of, reads_of};
    ghost use Rattle.memberships.specs.Keeping.{IsTable};
    ghost use Rattle.row_slots.specs.Lists.{list_of};
    ghost use Rattle.memberships.specs.Secrets.{AreSecrets, rooms_of_both};
    ghost use Rattle.memberships.specs.Table.{Table};

    ghost Value = { Table };

    ghost view = { λ a. record {
      rows = rows_of (list_of a.conferences) a.entries.entries;
      reads = reads_of a.entries.entries;
      spare = min (spare a.entries) (18446744073709551615 - a.next_turn);
      person_rooms = rooms_of_both a.conferences a.secret_conferences;
      conference_rooms = rooms_of_both a.persons a.secret_persons;
    } };

    ghost invariant = { λ a. IsTable a.entries.entries a.next_turn
        (list_of a.conferences) (list_of a.persons)
        × AreSecrets (rows_of (list_of a.conferences) a.entries.entries)
        (list_of a.secret_conferences) (list_of a.secret_persons) };
}

impl Memberships {
    /// No memberships. Takes no memory.
    pub fn new(alloc: Global) -> Memberships
        ensures rows { result.rows ≡ [] }
        ensures reads { result.reads ≡ [] }
    {
        Memberships {
            entries: IndexMap::new(alloc),
            conferences: Lists::new(alloc),
            persons: Lists::new(alloc),
            secret_conferences: Lists::new(alloc),
            secret_persons: Lists::new(alloc),
            next_turn: 0,
        }
    }

    /// Gives back memory of memberships that are gone: it looks at so many persons and as many
    /// conferences. The room for more memberships may go.
    pub fn sweep(&mut self, steps: usize)
        ensures rows { self.new.rows ≡ self.old.rows }
        ensures reads { self.new.reads ≡ self.old.reads }
    {
        self.conferences.sweep(steps);
        self.persons.sweep(steps);
        self.secret_conferences.sweep(steps);
        self.secret_persons.sweep(steps);
    }

    /// The membership of a person in a conference. The time grows with the person's memberships.
    pub fn get(&self, person: u32, conference: u32) -> Option<MembershipRow>
        ensures { result ≡ membership_of person conference self.now.rows }
    {
        let kept = self.entries.get(&(person, conference))?;
        let place = self.conferences.position_of(person, conference)?;
        let list = self.conferences.list(person);
        Some(kept.show(person, conference, short_place(list, place)))
    }

    /// The eight bits of the type of the membership of a person in a conference, in constant time.
    pub fn kind_of(&self, person: u32, conference: u32) -> Option<u8>
        ensures { result
            ≡ option_map (λ row. row.kind) (membership_of person conference self.now.rows) }
    {
        let kept = self.entries.get(&(person, conference))?;
        Some(kept.kind)
    }

    /// Whether a person is in a conference, in constant time.
    pub fn contains(&self, person: u32, conference: u32) -> bool
        ensures { result ≡ is_some (membership_of person conference self.now.rows) }
    {
        self.entries.contains_key(&(person, conference))
    }

    /// How many conferences a person is in, in constant time.
    pub fn count_of_person(&self, person: u32) -> usize
        ensures count { result ≡ count_of person self.now.rows }
        ensures orderly { IsOrderly self.now.rows }
    {
        self.conferences.list(person).len()
    }

    /// How many persons are in a conference, in constant time.
    pub fn count_of_conference(&self, conference: u32) -> usize
        ensures { result ≡ length (members_of conference self.now.rows) }
    {
        self.persons.list(conference).len()
    }

    /// The membership of a person at a place among the person's memberships by their positions, in
    /// constant time.
    pub fn nth_of_person(&self, person: u32, place: usize) -> Option<MembershipRow>
        ensures { result ≡ slice_get (memberships_of person self.now.rows) place }
    {
        let list = self.conferences.list(person);
        let conference = *list.get(place)?;
        let kept = self.entries.get(&(person, conference))?;
        Some(kept.show(person, conference, short_place(list, place)))
    }

    /// The member at a place among those in a conference in the order of joining, in constant time.
    pub fn nth_member(&self, conference: u32, place: usize) -> Option<Member>
        ensures { result
            ≡ option_map member_of (slice_get (members_of conference self.now.rows) place) }
    {
        let person = *self.persons.list(conference).get(place)?;
        let kept = self.entries.get(&(person, conference))?;
        Some(kept.member(person))
    }

    /// Whether a person is among so many who joined a conference first, in constant time.
    pub fn is_among_first(&self, person: u32, conference: u32, count: usize) -> bool
        ensures { result ≡ list_any (λ row. row.person == person)
            (take count (members_of conference self.now.rows)) }
    {
        let Some(kept) = self.entries.get(&(person, conference)) else {
            return false;
        };
        let Some(next) = self.persons.list(conference).get(count) else {
            return true;
        };
        match self.entries.get(&(*next, conference)) {
            None => unreachable!(),
            Some(other) => kept.turn < other.turn,
        }
    }

    /// What a person has read of a conference, in constant time.
    pub fn read(&self, person: u32, conference: u32) -> Option<&Ranges>
        ensures there { is_some result
            ≡ is_some (membership_of person conference self.now.rows) }
        ensures ranges { IfSome result
            (λ read. ranges_of read.now.numbers ≡ read_of person conference self.now.reads) }
        ensures none { IsNone result → read_of person conference self.now.reads ≡ [] }
    {
        Some(&self.entries.get(&(person, conference))?.read)
    }

    /// Sets a membership. A new one joins after the others, and nothing is read in it. One that is
    /// there moves to its new position, and keeps its turn in the order of joining, what was read
    /// in it and when that was set.
    pub fn set(&mut self, row: MembershipRow) -> Result<(), Memory>
        ensures ok { OnOk result (self.new.rows ≡ with_membership row self.old.rows) }
        ensures reads { OnOk result
            (self.new.reads ≡ with_reader row.person row.conference self.old.reads) }
        ensures err { OnErr result (self.new.rows ≡ self.old.rows) }
        ensures err_reads { OnErr result (self.new.reads ≡ self.old.reads) }
        ensures succeeds { 0 < self.old.spare → 0 < room_of_person self.old row.person
            → 0 < room_of_conference self.old row.conference → IsOk result }
        ensures room { UsesRoom self.old self.new row.person row.conference }
        ensures err_room { OnErr result (KeepsRoom self.old self.new) }
    {
        self.reserve(row.person, row.conference, 1)?;
        if self.contains(row.person, row.conference) {
            self.set_again(&row);
        } else {
            self.join(&row);
        }
        Ok(())
    }

    /// Adds a membership after the others. Takes no memory.
    fn join(&mut self, row: &MembershipRow)
        requires absent { membership_of row.now.person row.now.conference self.old.rows ≡ None }
        requires room { HasRoom self.old row.now.person row.now.conference 1 }
        ensures rows { self.new.rows ≡ with_membership row.now self.old.rows }
        ensures reads { self.new.reads
            ≡ with_reader row.now.person row.now.conference self.old.reads }
        ensures room { UsesRoom self.old self.new row.now.person row.now.conference }
    {
        let (person, conference) = (row.person, row.conference);
        let read = Ranges::new(*self.entries.allocator());
        let kept = Kept::of(row, self.next_turn, read);
        let _none = self.entries.insert((person, conference), kept).unwrap();
        self.next_turn += 1;
        self.conferences
            .insert(person, row.position as usize, conference);
        self.persons.push(conference, person);
        let is = is_secret(row.kind);
        relist(&mut self.secret_conferences, person, conference, false, is);
        relist(&mut self.secret_persons, conference, person, false, is);
    }

    /// Sets a membership that is there. Takes no memory.
    fn set_again(&mut self, row: &MembershipRow)
        requires there { IsSome
            (membership_of row.now.person row.now.conference self.old.rows) }
        requires room { HasRoom self.old row.now.person row.now.conference 1 }
        ensures rows { self.new.rows ≡ with_membership row.now self.old.rows }
        ensures reads { self.new.reads
            ≡ with_reader row.now.person row.now.conference self.old.reads }
        ensures room { UsesRoom self.old self.new row.now.person row.now.conference }
    {
        let (person, conference) = (row.person, row.conference);
        let kept = self.entries.get_mut(&(person, conference)).unwrap();
        let was = is_secret(kept.kind);
        kept.renew(row);
        self.conferences.remove(person, conference);
        self.conferences
            .insert(person, row.position as usize, conference);
        let is = is_secret(row.kind);
        relist(&mut self.secret_conferences, person, conference, was, is);
        relist(&mut self.secret_persons, conference, person, was, is);
    }

    /// Sets what a person has read of a conference, which was told at a moment. Ranges that touch
    /// become one. Nothing changes where there is no such membership. Takes no memory.
    pub fn set_read(&mut self, person: u32, conference: u32, at: Moment, ranges: Vec<ReadRange>)
        requires { IsFaultless ranges.items }
        ensures rows { self.new.rows ≡ read_at person conference at self.old.rows }
        ensures reads { self.new.reads
            ≡ with_read person conference (merge_all ranges.items) self.old.reads }
        ensures room { KeepsRoom self.old self.new }
    {
        let Some(kept) = self.entries.get_mut(&(person, conference)) else {
            return;
        };
        kept.set_read(at, Ranges::from_list(ranges));
    }

    /// Takes the membership of a person in a conference out, and says whether it was there.
    pub fn remove(&mut self, person: u32, conference: u32) -> bool
        ensures there { result ≡ is_some (membership_of person conference self.old.rows) }
        ensures rows { self.new.rows ≡ without_membership person conference self.old.rows }
        ensures reads { self.new.reads ≡ without_reader person conference self.old.reads }
        ensures room { KeepsRoom self.old self.new }
    {
        let Some(kept) = self.entries.swap_remove(&(person, conference)) else {
            return false;
        };
        self.conferences.remove(person, conference);
        self.persons.remove(conference, person);
        let was = is_secret(kept.kind);
        relist(&mut self.secret_conferences, person, conference, was, false);
        relist(&mut self.secret_persons, conference, person, was, false);
        true
    }

    /// Makes room for so many more memberships, of a person and in a conference.
    pub fn reserve(&mut self, person: u32, conference: u32, additional: usize) -> Result<(), Memory>
        ensures rows { self.new.rows ≡ self.old.rows }
        ensures reads { self.new.reads ≡ self.old.reads }
        ensures ok { OnOk result (HasRoom self.new person conference additional) }
        ensures succeeds { HasRoom self.old person conference additional → IsOk result }
        ensures room { KeepsRoom self.old self.new }
    {
        if additional as u64 > u64::MAX - self.next_turn {
            return Err(Memory);
        }
        self.entries.reserve(additional)?;
        self.conferences.reserve(person, additional)?;
        self.persons.reserve(conference, additional)?;
        self.secret_conferences.reserve(person, additional)?;
        self.secret_persons.reserve(conference, additional)?;
        Ok(())
    }
}

/// A place in a list of different numbers, of which there are no more than values of a `u32`.
fn short_place(list: &[u32], place: usize) -> u32
    requires different { IsDistinct nat_eq list.now }
    requires within { place < length list.now }
    ensures { result ≡ place }
{
    place as u32
}
