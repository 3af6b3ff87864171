ghost use Rattle.std.specs.Prelude.{◌≡◌, ◌≤◌, ◌<◌, ◌==◌, [], ◌∷◌, ◌++◌, Some, None, OnOk, length};
ghost use Rattle.std.specs.Prelude.{map, if◌then◌else◌};
ghost use Rattle.row_table.specs.Tables.{row_of, with_row, without_row, changed_row};
ghost use Rattle.kom_types.specs.tables.Texts.{number_of_text, fresh_text, with_created_local};
ghost use Rattle.kom_types.specs.declared.limits.TheConstants.{LONGEST_BODY};
ghost use Rattle.kom_types.specs.tables.Texts.{recipient_of, without_recipient, link_of};
ghost use Rattle.kom_types.specs.tables.Texts.{without_link, with_mark, without_mark, locals_of};
ghost use Rattle.kom_types.specs.tables.Texts.{created_by, with_item_drawn};
ghost use Rattle.local_maps.specs.Pairs.{AllBelow, least_of};
ghost use Rattle.texts.specs.Keeping.{IsUnnumbered, with_next_item};
ghost use Rattle.texts.specs.Needs.{HasRoom, KeepsRoom, UsesRoom, room_for, text_needs};
ghost use Rattle.texts.specs.Needs.{recipient_needs, link_needs, mark_needs, created_needs};

use crate::needs::Need;
use crate::row::fresh_text;
use crate::table::TextTable;
use kom_types::{Bytes, MarkRow, Memory, Moment, Recipient, TextLink};
use local_maps::LocalMaps;
use marks::MarkTable;
use misc_links::{Links, Recipients};
use std::alloc::Global;
use std::marker::Model;

/// The texts, their recipients, links and marks, and the local numbers by which they are found.
pub struct Texts {
    pub(crate) texts: TextTable,
    pub(crate) recipients: Recipients,
    pub(crate) links: Links,
    pub(crate) marks: MarkTable,
    /// The texts of each conference by their local numbers.
    pub(crate) locals: LocalMaps,
    /// The texts of each author by their numbers among them.
    pub(crate) created: LocalMaps,
}

// A call of its own, so that whoever lets the texts go has one step to prove and not one for each
// part.
impl Drop for Texts {
    fn drop(self) {
        let Texts {
            texts,
            recipients,
            links,
            marks,
            locals,
            created,
        } = self;
        drop((texts, recipients, links));
        drop((marks, locals, created));
    }
}

impl Model for Texts {
    ghost use Rattle.texts.specs.Stored.{Stored};
    ghost use Rattle.texts.specs.Keeping.{IsKept};

    ghost Value = { Stored };

    ghost view = { λ t. record {
      rows = record {
        texts = t.texts.rows;
        recipients = t.recipients.recipients;
        links = t.links.links;
        marks = t.marks.marks;
      };
      room = record {
        texts = t.texts.spare;
        recipients = t.recipients;
        links = t.links;
        marks = t.marks;
        locals = t.locals;
        created = t.created;
      };
    } };

    ghost invariant = { λ t. IsKept t.texts.rows t.recipients.recipients t.locals t.created };
}

impl Texts {
    /// No texts. It takes no memory.
    pub fn new(alloc: Global) -> Texts
        ensures { result.rows ≡ record { texts = []; recipients = []; links = []; marks = [] } }
    {
        Texts {
            texts: TextTable::new(alloc),
            recipients: Recipients::new(alloc),
            links: Links::new(alloc),
            marks: MarkTable::new(alloc),
            locals: LocalMaps::new(alloc),
            created: LocalMaps::new(alloc),
        }
    }

    /// Adds a text. It takes no memory, as each change that follows.
    pub fn add(&mut self, number: u32, author: u32, at: Moment, body: Bytes)
        requires size { length body ≤ LONGEST_BODY }
        requires absent { row_of number_of_text number self.old.rows.texts ≡ None }
        requires room { HasRoom self.old.room text_needs }
        ensures rows { self.new.rows ≡ record self.old.rows {
          texts = with_row number_of_text (fresh_text number author at body) self.old.rows.texts;
        } }
        ensures room { UsesRoom self.old.room self.new.room text_needs }
    {
        let row = fresh_text(number, author, at, body);
        self.texts.put(row).unwrap();
    }

    /// Takes a text out, with its number among those of its author.
    pub fn remove(&mut self, number: u32)
        ensures rows { self.new.rows ≡ record self.old.rows {
          texts = without_row number_of_text number self.old.rows.texts;
        } }
        ensures room { KeepsRoom self.old.room self.new.room }
    {
        if let Some(row) = self.texts.remove(number) {
            if row.created_local > 0 {
                self.created.remove(row.author, row.created_local);
            }
        }
    }

    /// Adds a recipient, whose local number is above all that its conference has.
    pub fn add_recipient(&mut self, given: Recipient)
        requires absent { recipient_of given.text given.conference self.old.rows.recipients ≡ None }
        requires above { AllBelow given.local
            (locals_of given.conference self.old.rows.recipients) }
        requires room { HasRoom self.old.room (recipient_needs given) }
        ensures rows { self.new.rows ≡ record self.old.rows {
          recipients = self.old.rows.recipients ++ given ∷ [];
        } }
        ensures room { UsesRoom self.old.room self.new.room (recipient_needs given) }
    {
        self.locals
            .append(given.conference, given.local, given.text)
            .unwrap();
        self.recipients.add(given);
    }

    /// Takes a recipient out, with its local number. The time grows with the recipients of the
    /// text.
    pub fn remove_recipient(&mut self, text: u32, conference: u32)
        ensures rows { self.new.rows ≡ record self.old.rows {
          recipients = without_recipient text conference self.old.rows.recipients;
        } }
        ensures room { KeepsRoom self.old.room self.new.room }
    {
        if let Some(row) = self.recipients.remove(text, conference) {
            self.locals.remove(conference, row.local);
        }
    }

    /// Adds a link.
    pub fn add_link(&mut self, given: TextLink)
        requires absent { link_of given.child given.parent given.footnote self.old.rows.links
            ≡ None }
        requires room { HasRoom self.old.room (link_needs given) }
        ensures rows { self.new.rows ≡ record self.old.rows {
          links = self.old.rows.links ++ given ∷ [];
        } }
        ensures room { UsesRoom self.old.room self.new.room (link_needs given) }
    {
        self.links.add(given);
    }

    /// Takes a link out. The time grows with the links of its kind from the one text and into the
    /// other.
    pub fn remove_link(&mut self, child: u32, parent: u32, footnote: bool)
        ensures rows { self.new.rows ≡ record self.old.rows {
          links = without_link child parent footnote self.old.rows.links;
        } }
        ensures room { KeepsRoom self.old.room self.new.room }
    {
        self.links.remove(child, parent, footnote);
    }

    /// Sets a person's mark on a text.
    pub fn set_mark(&mut self, given: MarkRow)
        requires room { HasRoom self.old.room (mark_needs given) }
        ensures rows { self.new.rows ≡ record self.old.rows {
          marks = with_mark given self.old.rows.marks;
        } }
        ensures room { UsesRoom self.old.room self.new.room (mark_needs given) }
    {
        self.marks.set(given).unwrap();
    }

    /// Takes a person's mark on a text out.
    pub fn remove_mark(&mut self, person: u32, text: u32)
        ensures rows { self.new.rows ≡ record self.old.rows {
          marks = without_mark person text self.old.rows.marks;
        } }
        ensures room { KeepsRoom self.old.room self.new.room }
    {
        self.marks.remove(person, text);
    }

    /// Gives a text that is there its number among those of its author, above all that the author
    /// has.
    pub fn number_created(&mut self, person: u32, local: u32, text: u32)
        requires unnumbered { IsUnnumbered person text self.old.rows.texts }
        requires positive { 0 < local }
        requires above { AllBelow local (created_by person self.old.rows.texts) }
        requires room { HasRoom self.old.room (created_needs person) }
        ensures rows { self.new.rows ≡ record self.old.rows {
          texts = changed_row number_of_text text (with_created_local local) self.old.rows.texts;
        } }
        ensures room { UsesRoom self.old.room self.new.room (created_needs person) }
    {
        self.created.append(person, local, text).unwrap();
        self.texts.set_created_local(text, local);
    }

    /// Notes that an aux-item of a text has got this number: the next one gets a greater. It takes
    /// no memory.
    pub fn draw_item(&mut self, number: u32, item: u32)
        requires { item < 4294967295 }
        ensures rows { self.new.rows ≡ record self.old.rows {
          texts = changed_row number_of_text number (with_item_drawn item) self.old.rows.texts;
        } }
        ensures room { KeepsRoom self.old.room self.new.room }
    {
        self.texts.draw_item(number, item);
    }

    /// The next aux-item of a text gets this number. It takes no memory.
    pub fn set_next_item(&mut self, number: u32, next: u32)
        ensures rows { self.new.rows ≡ record self.old.rows {
          texts = changed_row number_of_text number (with_next_item next) self.old.rows.texts;
        } }
        ensures room { KeepsRoom self.old.room self.new.room }
    {
        self.texts.set_next_item(number, next);
    }

    /// Takes away the number that each text of a person has among those that the person made. It
    /// takes no memory, and the time grows with the number of these texts, times a logarithm.
    pub fn forget_created(&mut self, person: u32)
        ensures rows { self.new.rows ≡ record self.old.rows {
          texts = map (λ row. if row.author == person then with_created_local 0 row else row)
              self.old.rows.texts;
        } }
        ensures room { KeepsRoom self.old.room self.new.room }
    {
        while let Some(local) = self.first_created(person) {
            self.forget_number(person, local);
        }
    }

    /// Takes the least number away among those of the texts that a person made.
    fn forget_number(&mut self, person: u32, local: u32)
        requires { least_of (created_by person self.old.rows.texts) ≡ Some local }
        ensures rows { self.new.rows ≡ record self.old.rows { texts = self.new.rows.texts } }
        ensures rest { map (λ row. if row.author == person then with_created_local 0 row else row)
            self.new.rows.texts
            ≡ map (λ row. if row.author == person then with_created_local 0 row else row)
            self.old.rows.texts }
        ensures fewer { length (created_by person self.new.rows.texts)
            < length (created_by person self.old.rows.texts) }
        ensures room { KeepsRoom self.old.room self.new.room }
    {
        let text = self.created.remove(person, local).unwrap();
        self.texts.set_created_local(text, 0);
    }

    /// Makes room for so many more rows that need this.
    pub fn reserve(&mut self, need: Need, additional: usize) -> Result<(), Memory>
        ensures rows { self.new.rows ≡ self.old.rows }
        ensures ok { OnOk result (additional ≤ room_for self.new.room need) }
        ensures room { KeepsRoom self.old.room self.new.room }
    {
        match need {
            Need::Text => self.texts.reserve(additional),
            Need::Recipient => self.recipients.reserve(additional),
            Need::RecipientOf(text) => self.recipients.reserve_of(text, additional),
            Need::Local(conference) => self.locals.reserve(conference, additional),
            Need::Link => self.links.reserve(additional),
            Need::LinkFrom(text, footnote) => self.links.reserve_from(text, footnote, additional),
            Need::LinkInto(text, footnote) => self.links.reserve_into(text, footnote, additional),
            Need::Mark => self.marks.reserve(additional),
            Need::MarkOf(person) => self.marks.reserve_of_person(person, additional),
            Need::MarkOn(text) => self.marks.reserve_on(text, additional),
            Need::Created(person) => self.created.reserve(person, additional),
        }
    }

    /// Gives back memory of what hung on texts and is gone: in each table it looks at so many keys.
    /// The room for more rows may go.
    pub fn sweep(&mut self, steps: usize)
        ensures { self.new.rows ≡ self.old.rows }
    {
        self.recipients.sweep(steps);
        self.links.sweep(steps);
        self.marks.sweep(steps);
        self.locals.sweep(steps);
        self.created.sweep(steps);
    }
}
