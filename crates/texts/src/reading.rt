ghost use Rattle.std.specs.Prelude.{◌≡◌, ◌^◌, length, map, slice_get, option_copied, IfOk};
ghost use Rattle.row_table.specs.Tables.{row_of, IsByNumber};
ghost use Rattle.kom_types.specs.Mappings.{mapping_up, mapping_down};
ghost use Rattle.kom_types.specs.tables.Texts.{number_of_text, recipient_of, recipients_of};
ghost use Rattle.kom_types.specs.tables.Texts.{link_of, links_from, links_into, locals_of};
ghost use Rattle.kom_types.specs.tables.Texts.{created_by, mark_of, marks_of, marks_on};
ghost use Rattle.kom_types.specs.tables.Texts.{shown_mark};
ghost use Rattle.local_maps.specs.Pairs.{least_of, AllBelow, IsRising};
ghost use Rattle.misc_links.specs.Linked.{links_of_text};
ghost use Rattle.texts.specs.Keeping.{IsFrom};

use crate::texts::Texts;
use kom_types::{Mapping, MarkRow, Marks, Memory, Recipient, TextLink, TextRow};
use local_maps::PairsFrom;
use row_slots::SlotWalk;

impl Texts {
    /// How many texts there are.
    pub fn text_count(&self) -> usize
        ensures { result ≡ length self.now.rows.texts }
    {
        self.texts.len()
    }

    /// The numbers of the texts, rising. The list has four bytes for each text.
    pub fn text_numbers(&self) -> Result<Vec<u32>, Memory>
        ensures { IfOk result (λ numbers. numbers.items ≡ map number_of_text self.now.rows.texts) }
    {
        self.texts.numbers()
    }

    /// The row of a text, in constant time.
    pub fn text(&self, number: u32) -> Option<&TextRow>
        ensures row { option_copied result ≡ row_of number_of_text number self.now.rows.texts }
        ensures rising { IsByNumber number_of_text self.now.rows.texts }
    {
        self.texts.get(number)
    }

    /// What makes a conference a recipient of a text. The time grows with the text's recipients.
    pub fn recipient(&self, text: u32, conference: u32) -> Option<&Recipient>
        ensures { option_copied result ≡ recipient_of text conference self.now.rows.recipients }
    {
        self.recipients.get(text, conference)
    }

    /// All recipients, in the order of adding.
    pub fn all_recipients(&self) -> SlotWalk<'_, Recipient>
        ensures { result ≡ self.now.rows.recipients }
    {
        self.recipients.rows()
    }

    /// All links, in the order of adding.
    pub fn all_links(&self) -> SlotWalk<'_, TextLink>
        ensures { result ≡ self.now.rows.links }
    {
        self.links.rows()
    }

    /// All marks, in the order of setting.
    pub fn all_marks(&self) -> SlotWalk<'_, MarkRow>
        ensures { result ≡ self.now.rows.marks }
    {
        self.marks.rows()
    }

    /// How many recipients a text has, in constant time.
    pub fn recipient_count(&self, text: u32) -> usize
        ensures { result ≡ length (recipients_of text self.now.rows.recipients) }
    {
        self.recipients.count_of(text)
    }

    /// The recipient of a text at a place, in the order of adding, in constant time.
    pub fn nth_recipient(&self, text: u32, place: usize) -> Option<&Recipient>
        ensures { option_copied result
            ≡ slice_get (recipients_of text self.now.rows.recipients) place }
    {
        self.recipients.nth_of(text, place)
    }

    /// The link of a comment, or a footnote, to a text. The time grows with the links from it.
    pub fn link(&self, child: u32, parent: u32, footnote: bool) -> Option<&TextLink>
        ensures { option_copied result ≡ link_of child parent footnote self.now.rows.links }
    {
        self.links.get(child, parent, footnote)
    }

    /// To how many texts a text is a comment, or a footnote, in constant time.
    pub fn count_from(&self, text: u32, footnote: bool) -> usize
        ensures { result ≡ length (links_from text footnote self.now.rows.links) }
    {
        self.links.count_from(text, footnote)
    }

    /// How many comments, or footnotes, a text has, in constant time.
    pub fn count_into(&self, text: u32, footnote: bool) -> usize
        ensures { result ≡ length (links_into text footnote self.now.rows.links) }
    {
        self.links.count_into(text, footnote)
    }

    /// The link at a place among those of a text to others, in the order of adding, in constant
    /// time.
    pub fn nth_from(&self, text: u32, footnote: bool, place: usize) -> Option<&TextLink>
        ensures { option_copied result
            ≡ slice_get (links_from text footnote self.now.rows.links) place }
    {
        self.links.nth_from(text, footnote, place)
    }

    /// The link at a place among those of the comments, or the footnotes, to a text, in the order
    /// of adding, in constant time.
    pub fn nth_into(&self, text: u32, footnote: bool, place: usize) -> Option<&TextLink>
        ensures { option_copied result
            ≡ slice_get (links_into text footnote self.now.rows.links) place }
    {
        self.links.nth_into(text, footnote, place)
    }

    /// The links from a text and into it, in the order of adding. The time grows with their number,
    /// times its logarithm.
    pub fn links_of(&self, text: u32) -> Result<Vec<TextLink>, Memory>
        ensures { IfOk result (λ links. links.items ≡ links_of_text text self.now.rows.links) }
    {
        self.links.of_text(text)
    }

    /// A person's mark on a text.
    pub fn mark(&self, person: u32, text: u32) -> Option<MarkRow>
        ensures { result ≡ mark_of person text self.now.rows.marks }
    {
        self.marks.get(person, text)
    }

    /// How many marks a person has, in constant time.
    pub fn mark_count_of(&self, person: u32) -> usize
        ensures { result ≡ length (marks_of person self.now.rows.marks) }
    {
        self.marks.count_of_person(person)
    }

    /// The marks of a person, by rising text.
    pub fn marks_of(&self, person: u32) -> Result<Marks, Memory>
        ensures { IfOk result
            (λ marks. marks ≡ map shown_mark (marks_of person self.now.rows.marks)) }
    {
        self.marks.marks_of(person)
    }

    /// How many marks there are on a text, in constant time.
    pub fn mark_count_on(&self, text: u32) -> usize
        ensures { result ≡ length (marks_on text self.now.rows.marks) }
    {
        self.marks.count_on(text)
    }

    /// The mark at a place among those on a text, in the order of setting, in constant time.
    pub fn nth_mark_on(&self, text: u32, place: usize) -> Option<MarkRow>
        ensures { result ≡ slice_get (marks_on text self.now.rows.marks) place }
    {
        self.marks.nth_on(text, place)
    }

    /// The least local number of a conference that has a text.
    pub fn first_local(&self, conference: u32) -> Option<u32>
        ensures { result ≡ least_of (locals_of conference self.now.rows.recipients) }
    {
        let map = self.locals.map_of(conference)?;
        map.first()
    }

    /// A part of the texts of a conference upwards. `next` is its next local number. (Protocol A,
    /// "local-to-global".)
    pub fn locals_up(
        &self,
        conference: u32,
        next: u32,
        first: u32,
        count: u32,
    ) -> Result<Mapping, Memory>
        ensures { IfOk result (λ mapping. mapping
            ≡ mapping_up (locals_of conference self.now.rows.recipients) next first count) }
    {
        self.locals.up(conference, next, first, count)
    }

    /// A part of the texts of a conference downwards. (Protocol A, "local-to-global-reverse".)
    pub fn locals_down(
        &self,
        conference: u32,
        next: u32,
        ceiling: u32,
        count: u32,
    ) -> Result<Mapping, Memory>
        ensures { IfOk result (λ mapping. mapping
            ≡ mapping_down (locals_of conference self.now.rows.recipients) next ceiling count) }
    {
        self.locals.down(conference, next, ceiling, count)
    }

    /// How many texts a conference has, in constant time.
    pub fn local_count(&self, conference: u32) -> usize
        ensures { result ≡ length (locals_of conference self.now.rows.recipients) }
    {
        self.locals.len_of(conference)
    }

    /// The texts of a conference from a local number on, rising; none if none are kept.
    pub fn locals_from(&self, conference: u32, first: u32) -> Option<PairsFrom<'_>>
        ensures pairs { IsFrom result first (locals_of conference self.now.rows.recipients) }
        ensures rising { IsRising (locals_of conference self.now.rows.recipients) }
        ensures fits { AllBelow (2 ^ 32) (locals_of conference self.now.rows.recipients) }
    {
        let map = self.locals.map_of(conference)?;
        Some(map.pairs_from(first))
    }

    /// The least number among the texts that a person made that still has a text.
    pub fn first_created(&self, person: u32) -> Option<u32>
        ensures { result ≡ least_of (created_by person self.now.rows.texts) }
    {
        let map = self.created.map_of(person)?;
        map.first()
    }

    /// The texts that a person made from a number among them on, rising; none if none are kept.
    pub fn created_from(&self, person: u32, first: u32) -> Option<PairsFrom<'_>>
        ensures pairs { IsFrom result first (created_by person self.now.rows.texts) }
        ensures rising { IsRising (created_by person self.now.rows.texts) }
        ensures fits { AllBelow (2 ^ 32) (created_by person self.now.rows.texts) }
    {
        let map = self.created.map_of(person)?;
        Some(map.pairs_from(first))
    }
}
