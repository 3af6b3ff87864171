ghost use Rattle.std.specs.Prelude.{◌≡◌, ◌==◌, ◌&&◌, false, None, ℕ, ◌<◌, ◌^◌, OnOk, [], Some};
ghost use Rattle.std.specs.Prelude.{if◌then◌else◌};
ghost use Rattle.std.specs.Prelude.{nat_eq, true, ◌+◌, ◌-◌, ◌*◌, ◌≤◌, min, IfSome, IfNone};
ghost use Rattle.std.specs.List.{list_any, list_all};
ghost use Rattle.indexmap.specs.IndexMap.{get};
ghost use Rattle.indexmap.specs.IndexSet.{contains};
ghost use Rattle.kom_types.specs.ByteKind.{is_digit};
ghost use Rattle.kom_sweep.specs.Due.{conference_names, person_names, days_of, is_faq, number_in};
ghost use Rattle.kom_sweep.specs.Names.{Knows, Learns, lets_go_at, names_number};

use crate::ages::Ages;
use crate::rule::Days;
use indexmap::{IndexMap, IndexSet};
use kom_types::{AuxRow, Conference, Memory, Person, aux_tags};
use std::alloc::Global;

/// What is kept of what conferences tell.
#[derive(Drop)]
pub(crate) struct Names {
    /// For how many days each keeps its texts.
    pub days: IndexMap<u32, Days>,
    /// The texts that conferences, letterboxes and persons name.
    pub named: IndexSet<u32>,
    /// Whether each was told.
    pub whole: bool,
}

impl Names {
    pub(crate) fn new(alloc: Global) -> Names
        ensures { Knows [] true result }
    {
        Names {
            days: IndexMap::new(alloc),
            named: IndexSet::new(alloc),
            whole: true,
        }
    }

    /// Whether a conference lets a text of this age go, by what is known of the ages of its
    /// comments and footnotes.
    pub(crate) fn let_go(&self, conference: u32, age: u64, ages: Ages) -> bool
        ensures { result ≡ lets_go_at self.now age ages conference }
    {
        match self.days.get(&conference) {
            None => false,
            Some(days) => days.let_go(age, ages),
        }
    }

    /// Whether a text is named.
    pub(crate) fn has(&self, text: u32) -> bool
        ensures { result ≡ contains nat_eq self.now.named text }
    {
        self.named.contains(&text)
    }

    /// Notes what a conference tells.
    pub(crate) fn note_conference(
        &mut self,
        number: u32,
        conference: &Conference,
    ) -> Result<(), Memory>
        ensures { OnOk result (Learns
            (λ one. if number == one then Some (days_of conference.now) else None)
            (λ text. conference_names text (Some conference.now)) self.old.whole
            self.old self.new) }
    {
        self.note_days(number, Days::of(conference))?;
        self.note_text(conference.presentation)?;
        self.note_text(conference.motd)?;
        self.note_faqs(conference.aux_items.as_slice())?;
        Ok(())
    }

    /// Notes what a person tells.
    pub(crate) fn note_person(&mut self, person: &Person) -> Result<(), Memory>
        ensures { OnOk result (Learns (λ one. None)
            (λ text. person_names text (Some person.now)) self.old.whole self.old self.new) }
    {
        self.note_text(person.user_area)?;
        Ok(())
    }

    /// Notes the days of a conference.
    fn note_days(&mut self, number: u32, days: Days) -> Result<(), Memory>
        ensures { OnOk result (Learns (λ one. if number == one then Some days else None)
            (λ text. false) self.old.whole self.old self.new) }
    {
        self.days.insert(number, days)?;
        Ok(())
    }

    /// Notes that a text is named.
    fn note_text(&mut self, text: u32) -> Result<(), Memory>
        ensures { OnOk result (Learns (λ one. None) (λ one. text == one) self.old.whole
            self.old self.new) }
    {
        self.named.insert(text)?;
        Ok(())
    }

    /// Notes the texts that faq-text items name.
    fn note_faqs(&mut self, items: &[AuxRow]) -> Result<(), Memory>
        ensures { OnOk result (Learns (λ one. None) (λ text. list_any (is_faq text) items.now)
            self.old.whole self.old self.new) }
    {
        for item in items.iter() {
            self.note_faq(item)?;
        }
        Ok(())
    }

    /// Notes the text that an item names, if it is a faq-text.
    fn note_faq(&mut self, item: &AuxRow) -> Result<(), Memory>
        ensures { OnOk result (Learns (λ one. None) (λ text. is_faq text item.now) self.old.whole
            self.old self.new) }
    {
        let Some(text) = faq_in(item) else {
            return Ok(());
        };
        self.note_text(text)?;
        Ok(())
    }
}

/// The text that an item names, if it is a faq-text.
fn faq_in(item: &AuxRow) -> Option<u32>
    ensures { (text : ℕ) → text < 2 ^ 32 → is_faq text item.now ≡ names_number result text }
{
    if item.tag == aux_tags::FAQ_TEXT {
        number_of(item.content.as_slice())
    } else {
        None
    }
}

/// One more than the greatest number that a text may have.
const MOST: u64 = 1 << 32;

/// The number of a text that digits spell, if they are that.
fn number_of(content: &[u8]) -> Option<u32>
    ensures { (text : ℕ) → text < 2 ^ 32
        → (list_all is_digit content.now && (number_in content.now == text))
        ≡ names_number result text }
{
    let mut number: u64 = 0;
    for byte in content.iter() {
        if !is_digit(*byte) {
            return None;
        }
        number = with_digit(number, *byte);
    }
    known(number)
}

fn is_digit(byte: u8) -> bool
    ensures { result ≡ is_digit byte }
{
    byte.is_ascii_digit()
}

/// With one digit more, up to one more than the greatest number of a text.
fn with_digit(number: u64, digit: u8) -> u64
    requires number { number ≤ 2 ^ 32 }
    requires digit { is_digit digit ≡ true }
    ensures { result ≡ min (number * 10 + (digit - 48)) (2 ^ 32) }
{
    (number * 10 + u64::from(digit - b'0')).min(MOST)
}

/// A number, if a text may have it.
fn known(number: u64) -> Option<u32>
    ensures some { IfSome result (λ one. (one ≡ number) × (number < 2 ^ 32)) }
    ensures none { IfNone result (2 ^ 32 ≤ number) }
{
    if number < MOST {
        Some(number as u32)
    } else {
        None
    }
}
