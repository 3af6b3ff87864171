ghost use Rattle.std.specs.Prelude.{◌≡◌, ◌≤◌, ◌<◌, [], ◌∷◌, ◌++◌, None, length, find, slice_get};
ghost use Rattle.std.specs.Prelude.{option_copied, OnOk, OnErr};
ghost use Rattle.kom_types.specs.tables.Texts.{recipient_of, recipients_of, without_recipient};
ghost use Rattle.misc_links.specs.Received.{room_of_text, AreOnce, HasRoom, KeepsRoom, UsesRoom};
ghost use Rattle.misc_links.specs.Receiving.{is_conference_at};

use kom_types::{Memory, Recipient};
use row_slots::{DenseLists, SlotWalk, Slots};
use std::alloc::Global;
use std::marker::Model;

/// The recipients of texts, in the order of adding.
pub struct Recipients {
    rows: Slots<Recipient>,
    /// The places of the recipients of each text.
    by_text: DenseLists,
}

// A call of its own, so that whoever lets the recipients go has one step to prove and not one for
// each part.
impl Drop for Recipients {
    fn drop(self) {
        let Recipients { rows, by_text } = self;
        drop((rows, by_text));
    }
}

impl Model for Recipients {
    ghost use Rattle.row_slots.specs.DenseLists.{dense_list, dense_rooms};
    ghost use Rattle.row_slots.specs.Slots.{rows_in};
    ghost use Rattle.misc_links.specs.Received.{Received};
    ghost use Rattle.misc_links.specs.Receiving.{IsKept};

    ghost Value = { Received };

    ghost view = { λ a. record {
      recipients = rows_in a.rows.slots;
      spare = a.rows.spare;
      texts = dense_rooms a.by_text;
    } };

    ghost invariant = { λ a. IsKept a.rows.slots (dense_list a.by_text) };
}

impl Recipients {
    /// No recipients. Takes no memory.
    pub fn new(alloc: Global) -> Recipients
        ensures { result.recipients ≡ [] }
    {
        Recipients {
            rows: Slots::new(alloc),
            by_text: DenseLists::new(alloc),
        }
    }

    /// The conference as a recipient of a text. The time grows with the text's recipients.
    pub fn get(&self, text: u32, conference: u32) -> Option<&Recipient>
        ensures { option_copied result ≡ recipient_of text conference self.now.recipients }
    {
        let place = place_of(&self.rows, self.by_text.list(text), conference)?;
        self.rows.get(place)
    }

    /// All recipients, in the order of adding.
    pub fn rows(&self) -> SlotWalk<'_, Recipient>
        ensures { result ≡ self.now.recipients }
    {
        self.rows.rows()
    }

    /// How many recipients a text has, in constant time.
    pub fn count_of(&self, text: u32) -> usize
        ensures { result ≡ length (recipients_of text self.now.recipients) }
    {
        self.by_text.list(text).len()
    }

    /// The recipient at a place among those of a text, in the order of adding, in constant time.
    pub fn nth_of(&self, text: u32, place: usize) -> Option<&Recipient>
        ensures { option_copied result ≡ slice_get (recipients_of text self.now.recipients) place }
    {
        let place = *self.by_text.list(text).get(place)?;
        self.rows.get(place)
    }

    /// Adds a recipient after the others. Takes no memory.
    pub fn add(&mut self, recipient: Recipient)
        requires absent { recipient_of recipient.text recipient.conference self.old.recipients
            ≡ None }
        requires room { HasRoom self.old recipient.text }
        ensures recipients { self.new.recipients ≡ self.old.recipients ++ recipient ∷ [] }
        ensures room { UsesRoom self.old self.new recipient.text }
    {
        let text = recipient.text;
        let place = self.rows.push(recipient).unwrap();
        self.by_text.push(text, place);
    }

    /// Takes a recipient out of those of a text, if it is one. The time grows with the text's
    /// recipients.
    pub fn remove(&mut self, text: u32, conference: u32) -> Option<Recipient>
        ensures recipient { result ≡ recipient_of text conference self.old.recipients }
        ensures recipients { self.new.recipients
            ≡ without_recipient text conference self.old.recipients }
        ensures once { AreOnce self.old.recipients }
        ensures room { KeepsRoom self.old self.new }
    {
        let place = place_of(&self.rows, self.by_text.list(text), conference)?;
        let recipient = self.rows.take(place);
        self.by_text.remove(text, place);
        recipient
    }

    /// Makes room for so many more recipients in all.
    pub fn reserve(&mut self, additional: usize) -> Result<(), Memory>
        ensures recipients { self.new.recipients ≡ self.old.recipients }
        ensures ok { OnOk result (additional ≤ self.new.spare) }
        ensures err { OnErr result (self.old.spare < additional) }
        ensures room { KeepsRoom self.old self.new }
    {
        self.rows.reserve(additional)?;
        Ok(())
    }

    /// Makes room for so many more recipients of a text in its list.
    pub fn reserve_of(&mut self, text: u32, additional: usize) -> Result<(), Memory>
        ensures recipients { self.new.recipients ≡ self.old.recipients }
        ensures ok { OnOk result (additional ≤ room_of_text self.new text) }
        ensures err { OnErr result (room_of_text self.old text < additional) }
        ensures room { KeepsRoom self.old self.new }
    {
        self.by_text.reserve(text, additional)?;
        Ok(())
    }

    /// Gives back memory of recipients that are gone: it looks at so many texts. The room for more
    /// recipients may go.
    pub fn sweep(&mut self, steps: usize)
        ensures { self.new.recipients ≡ self.old.recipients }
    {
        self.rows.settle();
        self.by_text.sweep(steps);
    }
}

/// The place of a conference as a recipient, among those at some places.
fn place_of(rows: &Slots<Recipient>, places: &[u32], conference: u32) -> Option<u32>
    ensures { result ≡ find (is_conference_at rows.now.slots conference) places.now }
{
    places.iter().copied().find(
        |place| matches!(rows.get(*place), Some(row) if row.conference == conference),
    )
}
