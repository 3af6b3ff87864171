ghost use Rattle.std.specs.Prelude.{◌≡◌, ◌≤◌, ◌<◌, ◌==◌, [], None, length, filter, find, map};
ghost use Rattle.std.specs.Prelude.{slice_get, is_some, IsSome, IsOk, IfOk, OnOk, OnErr};
ghost use Rattle.std.specs.Prelude.{filter_map, if◌then◌else◌};
ghost use Rattle.kom_types.specs.tables.Texts.{mark_of, marks_of, marks_on, shown_mark};
ghost use Rattle.kom_types.specs.tables.Texts.{with_mark, without_mark};
ghost use Rattle.marks.specs.Keeping.{is_person_at, mark_at};
ghost use Rattle.marks.specs.Marked.{room_of_person, room_on, HasRoom, KeepsRoom, UsesRoom};

use kom_types::{Mark, MarkRow, Marks, Memory};
use row_slots::{Lists, SlotWalk, Slots};
use std::alloc::Global;
use std::marker::Model;

/// The marks of persons on texts, in the order of setting.
pub struct MarkTable {
    rows: Slots<MarkRow>,
    /// The places of the marks of each person.
    of_person: Lists,
    /// The places of the marks on each text.
    on_text: Lists,
    /// Where the lists of marks that are shown take their memory from.
    alloc: Global,
}

// A call of its own, so that whoever lets the marks go has one step to prove and not one for each
// part.
impl Drop for MarkTable {
    fn drop(self) {
        let MarkTable {
            rows,
            of_person,
            on_text,
            alloc: _,
        } = self;
        drop((rows, of_person, on_text));
    }
}

impl Model for MarkTable {
    ghost use Rattle.row_slots.specs.Lists.{list_of, rooms_of};
    ghost use Rattle.row_slots.specs.Slots.{rows_in};
    ghost use Rattle.marks.specs.Keeping.{IsKept};
    ghost use Rattle.marks.specs.Marked.{Marked};

    ghost Value = { Marked };

    ghost view = { λ a. record {
      marks = rows_in a.rows.slots;
      spare = a.rows.spare;
      persons = rooms_of a.of_person;
      texts = rooms_of a.on_text;
    } };

    ghost invariant = { λ a. IsKept a.rows.slots (list_of a.of_person) (list_of a.on_text) };
}

impl MarkTable {
    /// No marks. Takes no memory.
    pub fn new(alloc: Global) -> MarkTable
        ensures { result.marks ≡ [] }
    {
        MarkTable {
            rows: Slots::new(alloc),
            of_person: Lists::new(alloc),
            on_text: Lists::new(alloc),
            alloc,
        }
    }

    /// The mark of a person on a text. The time grows with the marks on the text.
    pub fn get(&self, person: u32, text: u32) -> Option<MarkRow>
        ensures { result ≡ mark_of person text self.now.marks }
    {
        let place = place_of(&self.rows, self.on_text.list(text), person)?;
        self.rows.get(place).copied()
    }

    /// All marks, in the order of setting.
    pub fn rows(&self) -> SlotWalk<'_, MarkRow>
        ensures { result ≡ self.now.marks }
    {
        self.rows.rows()
    }

    /// How many marks a person has, in constant time.
    pub fn count_of_person(&self, person: u32) -> usize
        ensures count { result ≡ length (filter (λ row. row.person == person) self.now.marks) }
        ensures shown { result ≡ length (marks_of person self.now.marks) }
    {
        self.of_person.list(person).len()
    }

    /// How many marks are on a text, in constant time.
    pub fn count_on(&self, text: u32) -> usize
        ensures { result ≡ length (marks_on text self.now.marks) }
    {
        self.on_text.list(text).len()
    }

    /// The mark at a place among those on a text, in the order of setting, in constant time.
    pub fn nth_on(&self, text: u32, place: usize) -> Option<MarkRow>
        ensures { result ≡ slice_get (marks_on text self.now.marks) place }
    {
        let place = *self.on_text.list(text).get(place)?;
        self.rows.get(place).copied()
    }

    /// The marks of a person, by rising text.
    pub fn marks_of(&self, person: u32) -> Result<Marks, Memory>
        ensures { IfOk result (λ marks. marks
            ≡ map shown_mark (marks_of person self.now.marks)) }
    {
        let mut marks = shown_at(&self.rows, self.of_person.list(person), self.alloc)?;
        marks.sort_by_key(|mark| mark.text)?;
        Ok(Marks::of(marks))
    }

    /// Sets a mark after the others, or in place of the one of its person on its text.
    pub fn set(&mut self, row: MarkRow) -> Result<(), Memory>
        ensures ok { OnOk result (self.new.marks ≡ with_mark row self.old.marks) }
        ensures err { OnErr result (self.new.marks ≡ self.old.marks) }
        ensures succeeds { HasRoom self.old row.person row.text → IsOk result }
        ensures room { UsesRoom self.old self.new row.person row.text }
        ensures err_room { OnErr result (KeepsRoom self.old self.new) }

        // It takes no memory for a mark that is there, and no room is used.
        ensures again { IsSome (mark_of row.person row.text self.old.marks)
            → IsOk result × KeepsRoom self.old self.new }
    {
        if !self.change(row) {
            self.add(row)?;
        }
        Ok(())
    }

    /// Puts a mark in place of the one of its person on its text, and returns whether one is there.
    /// Takes no memory.
    fn change(&mut self, row: MarkRow) -> bool
        ensures there { result ≡ is_some (mark_of row.person row.text self.old.marks) }
        ensures marks { self.new.marks
            ≡ (if result then with_mark row self.old.marks else self.old.marks) }
        ensures room { KeepsRoom self.old self.new }
    {
        let places = self.on_text.list(row.text);
        let Some(place) = place_of(&self.rows, places, row.person) else {
            return false;
        };
        self.rows.set(place, row);
        true
    }

    /// Sets a mark that is not there, after the others.
    fn add(&mut self, row: MarkRow) -> Result<(), Memory>
        requires { mark_of row.person row.text self.old.marks ≡ None }
        ensures ok { OnOk result (self.new.marks ≡ with_mark row self.old.marks) }
        ensures err { OnErr result (self.new.marks ≡ self.old.marks) }
        ensures succeeds { HasRoom self.old row.person row.text → IsOk result }
        ensures room { UsesRoom self.old self.new row.person row.text }
        ensures err_room { OnErr result (KeepsRoom self.old self.new) }
    {
        self.reserve(1)?;
        self.reserve_of_person(row.person, 1)?;
        self.reserve_on(row.text, 1)?;
        self.put(row);
        Ok(())
    }

    /// Sets a mark that is not there, after the others. Takes no memory.
    fn put(&mut self, row: MarkRow)
        requires absent { mark_of row.person row.text self.old.marks ≡ None }
        requires room { HasRoom self.old row.person row.text }
        ensures marks { self.new.marks ≡ with_mark row self.old.marks }
        ensures room { UsesRoom self.old self.new row.person row.text }
    {
        let place = self.rows.push(row).unwrap();
        self.of_person.push(row.person, place);
        self.on_text.push(row.text, place);
    }

    /// Takes a mark out, and returns whether it was there. The time grows with the marks of the
    /// person, and those on the text.
    pub fn remove(&mut self, person: u32, text: u32) -> bool
        ensures there { result ≡ is_some (mark_of person text self.old.marks) }
        ensures marks { self.new.marks ≡ without_mark person text self.old.marks }
        ensures room { KeepsRoom self.old self.new }
    {
        let Some(place) = place_of(&self.rows, self.on_text.list(text), person) else {
            return false;
        };
        let _mark = self.rows.take(place);
        self.of_person.remove(person, place);
        self.on_text.remove(text, place);
        true
    }

    /// Makes room for so many more marks in all.
    pub fn reserve(&mut self, additional: usize) -> Result<(), Memory>
        ensures marks { self.new.marks ≡ self.old.marks }
        ensures ok { OnOk result (additional ≤ self.new.spare) }
        ensures err { OnErr result (self.old.spare < additional) }
        ensures room { KeepsRoom self.old self.new }
    {
        self.rows.reserve(additional)?;
        Ok(())
    }

    /// Makes room for so many more marks of a person in its list.
    pub fn reserve_of_person(&mut self, person: u32, additional: usize) -> Result<(), Memory>
        ensures marks { self.new.marks ≡ self.old.marks }
        ensures ok { OnOk result (additional ≤ room_of_person self.new person) }
        ensures err { OnErr result (room_of_person self.old person < additional) }
        ensures room { KeepsRoom self.old self.new }
    {
        self.of_person.reserve(person, additional)?;
        Ok(())
    }

    /// Makes room for so many more marks on a text in its list.
    pub fn reserve_on(&mut self, text: u32, additional: usize) -> Result<(), Memory>
        ensures marks { self.new.marks ≡ self.old.marks }
        ensures ok { OnOk result (additional ≤ room_on self.new text) }
        ensures err { OnErr result (room_on self.old text < additional) }
        ensures room { KeepsRoom self.old self.new }
    {
        self.on_text.reserve(text, additional)?;
        Ok(())
    }

    /// Gives back memory of marks that are gone: it looks at so many persons and as many texts. The
    /// room for more marks may go.
    pub fn sweep(&mut self, steps: usize)
        ensures { self.new.marks ≡ self.old.marks }
    {
        self.rows.settle();
        self.of_person.sweep(steps);
        self.on_text.sweep(steps);
    }
}

/// The place of the mark of a person, among those at some places.
fn place_of(rows: &Slots<MarkRow>, places: &[u32], person: u32) -> Option<u32>
    ensures { result ≡ find (is_person_at rows.now.slots person) places.now }
{
    places.iter().copied().find(
        |place| matches!(rows.get(*place), Some(row) if row.person == person),
    )
}

/// The marks at some places, as they are shown.
fn shown_at(rows: &Slots<MarkRow>, places: &[u32], alloc: Global) -> Result<Vec<Mark>, Memory>
    ensures { IfOk result (λ marks. marks.items ≡ filter_map (mark_at rows.now.slots) places.now) }
{
    let marks = places
        .iter()
        .filter_map(|place| shown_in(rows, *place))
        .collect(alloc)?;
    Ok(marks)
}

/// The mark at a place, as it is shown.
fn shown_in(rows: &Slots<MarkRow>, place: u32) -> Option<Mark>
    ensures { result ≡ mark_at rows.now.slots place }
{
    let row = rows.get(place)?;
    Some(Mark {
        text: row.text,
        kind: row.kind,
    })
}
