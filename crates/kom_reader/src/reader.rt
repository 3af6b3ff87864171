ghost use Rattle.std.specs.Prelude.{◌≡◌, ◌++◌, ◌∷◌, [], length, OnOk};
ghost use Rattle.kom_reader.specs.Reading.{read_next, nothing, is_unread, is_member};
ghost use Rattle.kom_reader.specs.Reading.{count_in, without_text, without_recipient};
ghost use Rattle.kom_reader.specs.Reading.{with_place, with_row, without_conference};
ghost use Rattle.kom_reader.specs.Steps.{next_step};

use crate::finding::{first_in, first_place, first_unread, has_row, is_unread};
use crate::keeping::{drop_place, drop_recipient, drop_rows, drop_text, enter_place};
use crate::recipients::answers_of;
use crate::rows::{Place, Row};
use crate::steps::Step;
use kom_types::{Memory, MiscInfo};
use std::alloc::Global;
use std::marker::Model;

/// What a person has not read, and where the person reads.
pub struct Reader {
    rows: Vec<Row>,
    // By rank.
    places: Vec<Place>,
    // The texts of the branch, the next one first.
    branch: Vec<u32>,
    working: u32,
    last: u32,
}

impl Model for Reader {
    ghost use Rattle.kom_reader.specs.Reading.{Reading};

    ghost Value = { Reading };

    ghost view = { λ r. record {
      rows = r.rows.items;
      places = r.places.items;
      branch = r.branch.items;
      working = r.working;
      last = r.last;
    } };
}

impl Drop for Reader {
    fn drop(self) {
        let Reader {
            rows,
            places,
            branch,
            working: _,
            last: _,
        } = self;
        drop((rows, places));
        drop(branch);
    }
}

impl Reader {
    /// Nothing is unread, and there is no membership.
    pub fn new(alloc: Global) -> Reader
        ensures { result ≡ nothing }
    {
        Reader {
            rows: Vec::new(alloc),
            places: Vec::new(alloc),
            branch: Vec::new(alloc),
            working: 0,
            last: 0,
        }
    }

    /// The conference in which the person reads, or 0.
    pub fn working(&self) -> u32
        ensures { result ≡ self.now.working }
    {
        self.working
    }

    /// The text that was shown last, or 0.
    pub fn last(&self) -> u32
        ensures { result ≡ self.now.last }
    {
        self.last
    }

    /// The memberships by rank.
    pub fn places(&self) -> &[Place]
        ensures { result.now ≡ self.now.places }
    {
        self.places.as_slice()
    }

    pub fn is_member(&self, conference: u32) -> bool
        ensures { result ≡ is_member conference self.now.places }
    {
        self.places
            .iter()
            .any(|place| place.conference == conference)
    }

    pub fn is_unread(&self, text: u32) -> bool
        ensures { result ≡ is_unread text self.now.rows }
    {
        is_unread(text, self.rows.as_slice())
    }

    /// How many texts are unread in a conference.
    pub fn count_in(&self, conference: u32) -> usize
        ensures { result ≡ count_in conference self.now.rows }
    {
        self.rows
            .iter()
            .filter(|row| row.conference == conference)
            .count()
    }

    /// How many rows are unread.
    pub fn count(&self) -> usize
        ensures { result ≡ length self.now.rows }
    {
        self.rows.len()
    }

    /// What comes next.
    pub fn next_step(&self) -> Step
        ensures { result ≡ next_step self.now }
    {
        let rows = self.rows.as_slice();
        if let Some(text) = first_unread(self.branch.as_slice(), rows) {
            return Step::Branch(text);
        }
        if let Some(row) = first_in(self.working, rows) {
            return Step::Text(row.text);
        }
        match first_place(self.places.as_slice(), rows) {
            Some(place) => Step::Go(place.conference),
            None => Step::Wait,
        }
    }

    /// Takes up a membership, in the place of one of the same conference.
    pub fn enter(&mut self, place: Place) -> Result<(), Memory>
        ensures { OnOk result (self.new
            ≡ record self.old { places = with_place place self.old.places }) }
    {
        enter_place(&mut self.places, place)
    }

    /// Drops a membership with what is unread in it.
    pub fn leave(&mut self, conference: u32)
        ensures { self.new ≡ without_conference conference self.old }
    {
        drop_place(&mut self.places, conference);
        drop_rows(&mut self.rows, conference);
        if self.working == conference {
            self.working = 0;
        }
    }

    /// Adds a row, unless there is one of that conference and local number.
    pub fn add(&mut self, row: Row) -> Result<(), Memory>
        ensures { OnOk result (self.new
            ≡ record self.old { rows = with_row row self.old.rows }) }
    {
        if has_row(row, self.rows.as_slice()) {
            return Ok(());
        }
        self.rows.push(row)?;
        Ok(())
    }

    /// Adds a row of which the caller knows that it is not there.
    pub fn learn(&mut self, row: Row) -> Result<(), Memory>
        ensures { OnOk result (self.new
            ≡ record self.old { rows = self.old.rows ++ row ∷ [] }) }
    {
        self.rows.push(row)?;
        Ok(())
    }

    /// Takes away a text in all conferences.
    pub fn take_text(&mut self, text: u32)
        ensures { self.new ≡ record self.old { rows = without_text text self.old.rows } }
    {
        drop_text(&mut self.rows, text);
    }

    /// Takes away a text in one conference.
    pub fn take_recipient(&mut self, text: u32, conference: u32)
        ensures { self.new
            ≡ record self.old { rows = without_recipient text conference self.old.rows } }
    {
        drop_recipient(&mut self.rows, text, conference);
    }

    /// A text was shown as the one that comes next: what answers it comes before the others of its
    /// branch.
    pub fn read(&mut self, text: u32, links: &[MiscInfo]) -> Result<(), Memory>
        ensures { OnOk result (self.new ≡ read_next text links.now self.old) }
    {
        let alloc = *self.branch.allocator();
        let mut branch = answers_of(alloc, links)?;
        branch.extend_from_slice(self.branch.as_slice())?;
        self.branch = branch;
        self.take_text(text);
        self.last = text;
        Ok(())
    }

    /// A text was shown, and nothing is read by that.
    pub fn look_at(&mut self, text: u32)
        ensures { self.new ≡ record self.old { last = text } }
    {
        self.last = text;
    }

    /// Reads in another conference from now on: the branch ends, and what is unread of it comes
    /// with its conference.
    pub fn go(&mut self, conference: u32)
        ensures { self.new ≡ record self.old { working = conference; branch = [] } }
    {
        self.working = conference;
        self.branch.clear();
    }
}
