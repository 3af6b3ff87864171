//! How texts, and what hangs on them, are read.
ghost use Rattle.std.specs.Prelude.{◌≡◌, ◌^◌, length, map, slice_get, option_copied, IfOk};
ghost use Rattle.kom_types.specs.Mappings.{mapping_up, mapping_down};
ghost use Rattle.row_table.specs.Tables.{IsByNumber};
ghost use Rattle.kom_types.specs.tables.Texts.{shown_mark, number_of_text};
ghost use Rattle.kom_model.specs.Db.{text_of, texts_of, next_text_of, recipient_of, recipients_of};
ghost use Rattle.kom_model.specs.Db.{link_of, links_from, links_into, links_of, locals_of};
ghost use Rattle.kom_model.specs.Db.{created_by};
ghost use Rattle.kom_model.specs.Db.{next_local_of, next_created_of, mark_of, marks_of, marks_on};
ghost use Rattle.kom_model.specs.Db.{first_local_of, first_created_of};
ghost use Rattle.local_maps.specs.Pairs.{AllBelow, IsRising};
ghost use Rattle.texts.specs.Keeping.{IsFrom};
ghost use Rattle.kom_state.specs.Keeping.{AreTextsBelow};

use crate::stored_rows::StoredRows;
use kom_types::{Mapping, MarkRow, Marks, Memory, Recipient, TextLink, TextRow};
use local_maps::PairsFrom;

impl StoredRows {
    /// The text of a number, in constant time.
    #[tactic(auto, unfolding(kom_model::specs::Db::text_of))]
    pub fn text(&self, number: u32) -> Option<&TextRow>
        ensures { option_copied result ≡ text_of self.now.db number }
    {
        self.texts.text(number)
    }

    /// The least number that the next text may get.
    #[tactic(auto, unfolding(kom_model::specs::Db::next_text_of, kom_model::specs::Db::texts_of))]
    pub fn next_text(&self) -> u32
        ensures number { result ≡ next_text_of self.now.db }
        ensures below { AreTextsBelow result (texts_of self.now.db) }
        ensures rising { IsByNumber number_of_text (texts_of self.now.db) }
    {
        self.next_text
    }

    /// What makes a conference a recipient of a text. The time grows with the text's recipients.
    #[tactic(auto, unfolding(kom_model::specs::Db::recipient_of))]
    pub fn recipient(&self, text: u32, conference: u32) -> Option<&Recipient>
        ensures { option_copied result ≡ recipient_of self.now.db text conference }
    {
        self.texts.recipient(text, conference)
    }

    /// How many recipients a text has, in constant time.
    #[tactic(auto, unfolding(kom_model::specs::Db::recipients_of))]
    pub fn recipient_count(&self, text: u32) -> usize
        ensures { result ≡ length (recipients_of self.now.db text) }
    {
        self.texts.recipient_count(text)
    }

    /// The recipient of a text at a place, in the order of adding, in constant time.
    #[tactic(auto, unfolding(kom_model::specs::Db::recipients_of))]
    pub fn nth_recipient(&self, text: u32, place: usize) -> Option<&Recipient>
        ensures { option_copied result ≡ slice_get (recipients_of self.now.db text) place }
    {
        self.texts.nth_recipient(text, place)
    }

    /// The link of a comment, or a footnote, to a text. The time grows with the links from it.
    #[tactic(auto, unfolding(kom_model::specs::Db::link_of))]
    pub fn link(&self, child: u32, parent: u32, footnote: bool) -> Option<&TextLink>
        ensures { option_copied result ≡ link_of self.now.db child parent footnote }
    {
        self.texts.link(child, parent, footnote)
    }

    /// To how many texts a text is a comment, or a footnote, in constant time.
    #[tactic(auto, unfolding(kom_model::specs::Db::links_from))]
    pub fn count_from(&self, text: u32, footnote: bool) -> usize
        ensures { result ≡ length (links_from self.now.db text footnote) }
    {
        self.texts.count_from(text, footnote)
    }

    /// How many comments, or footnotes, a text has, in constant time.
    #[tactic(auto, unfolding(kom_model::specs::Db::links_into))]
    pub fn count_into(&self, text: u32, footnote: bool) -> usize
        ensures { result ≡ length (links_into self.now.db text footnote) }
    {
        self.texts.count_into(text, footnote)
    }

    /// The link at a place among those of a text to others, in the order of adding, in constant
    /// time.
    #[tactic(auto, unfolding(kom_model::specs::Db::links_from))]
    pub fn nth_from(&self, text: u32, footnote: bool, place: usize) -> Option<&TextLink>
        ensures { option_copied result ≡ slice_get (links_from self.now.db text footnote) place }
    {
        self.texts.nth_from(text, footnote, place)
    }

    /// The link at a place among those of the comments, or the footnotes, to a text, in the order
    /// of adding, in constant time.
    #[tactic(auto, unfolding(kom_model::specs::Db::links_into))]
    pub fn nth_into(&self, text: u32, footnote: bool, place: usize) -> Option<&TextLink>
        ensures { option_copied result ≡ slice_get (links_into self.now.db text footnote) place }
    {
        self.texts.nth_into(text, footnote, place)
    }

    /// The links from a text and into it, in the order of adding. The time grows with their number,
    /// times its logarithm.
    #[tactic(auto, unfolding(kom_model::specs::Db::links_of))]
    pub fn links_of(&self, text: u32) -> Result<Vec<TextLink>, Memory>
        ensures { IfOk result (λ links. links.items ≡ links_of self.now.db text) }
    {
        self.texts.links_of(text)
    }

    /// A person's mark on a text.
    #[tactic(auto, unfolding(kom_model::specs::Db::mark_of))]
    pub fn mark(&self, person: u32, text: u32) -> Option<MarkRow>
        ensures { result ≡ mark_of self.now.db person text }
    {
        self.texts.mark(person, text)
    }

    /// How many marks a person has, in constant time.
    #[tactic(auto, unfolding(kom_model::specs::Db::marks_of))]
    pub fn mark_count_of(&self, person: u32) -> usize
        ensures { result ≡ length (marks_of self.now.db person) }
    {
        self.texts.mark_count_of(person)
    }

    /// The marks of a person, by rising text.
    #[tactic(auto, unfolding(kom_model::specs::Db::marks_of))]
    pub fn marks_of(&self, person: u32) -> Result<Marks, Memory>
        ensures { IfOk result (λ marks. marks ≡ map shown_mark (marks_of self.now.db person)) }
    {
        self.texts.marks_of(person)
    }

    /// How many marks there are on a text, in constant time.
    #[tactic(auto, unfolding(kom_model::specs::Db::marks_on))]
    pub fn mark_count_on(&self, text: u32) -> usize
        ensures { result ≡ length (marks_on self.now.db text) }
    {
        self.texts.mark_count_on(text)
    }

    /// The mark at a place among those on a text, in the order of setting, in constant time.
    #[tactic(auto, unfolding(kom_model::specs::Db::marks_on))]
    pub fn nth_mark_on(&self, text: u32, place: usize) -> Option<MarkRow>
        ensures { result ≡ slice_get (marks_on self.now.db text) place }
    {
        self.texts.nth_mark_on(text, place)
    }

    /// The number that the next text of a conference gets in it, or 1 if there is no such one.
    #[tactic(auto, unfolding(kom_model::specs::Db::next_local_of))]
    pub fn next_local(&self, conference: u32) -> u32
        ensures { result ≡ next_local_of self.now.db conference }
    {
        match self.conference(conference) {
            None => 1,
            Some(row) => row.next_local,
        }
    }

    /// The number that the next text of a person gets among those that it made, or 1 if there is no
    /// such one.
    #[tactic(auto, unfolding(kom_model::specs::Db::next_created_of))]
    pub fn next_created(&self, person: u32) -> u32
        ensures { result ≡ next_created_of self.now.db person }
    {
        match self.person(person) {
            None => 1,
            Some(row) => row.next_created,
        }
    }

    /// The least local number of a conference that has a text, or the next one if none has.
    #[tactic(auto, unfolding(kom_model::specs::Db::first_local_of, kom_model::specs::Db::locals_of))]
    pub fn first_local(&self, conference: u32) -> u32
        ensures { result ≡ first_local_of self.now.db conference }
    {
        match self.texts.first_local(conference) {
            Some(local) => local,
            None => self.next_local(conference),
        }
    }

    /// A part of the texts of a conference upwards. (Protocol A, "local-to-global".)
    #[tactic(auto, unfolding(kom_model::specs::Db::locals_of))]
    pub fn locals_up(&self, conference: u32, first: u32, count: u32) -> Result<Mapping, Memory>
        ensures { IfOk result (λ mapping. mapping ≡ mapping_up (locals_of self.now.db conference)
            (next_local_of self.now.db conference) first count) }
    {
        let next = self.next_local(conference);
        self.texts.locals_up(conference, next, first, count)
    }

    /// A part of the texts of a conference downwards. (Protocol A, "local-to-global-reverse".)
    #[tactic(auto, unfolding(kom_model::specs::Db::locals_of))]
    pub fn locals_down(&self, conference: u32, ceiling: u32, count: u32) -> Result<Mapping, Memory>
        ensures { IfOk result (λ mapping. mapping ≡ mapping_down (locals_of self.now.db conference)
            (next_local_of self.now.db conference) ceiling count) }
    {
        let next = self.next_local(conference);
        self.texts.locals_down(conference, next, ceiling, count)
    }

    /// How many texts a conference has, in constant time.
    #[tactic(auto, unfolding(kom_model::specs::Db::locals_of))]
    pub fn local_count(&self, conference: u32) -> usize
        ensures { result ≡ length (locals_of self.now.db conference) }
    {
        self.texts.local_count(conference)
    }

    /// The texts of a conference from a local number on, rising; none if none are kept.
    #[tactic(auto, unfolding(kom_model::specs::Db::locals_of))]
    pub fn locals_from(&self, conference: u32, first: u32) -> Option<PairsFrom<'_>>
        ensures pairs { IsFrom result first (locals_of self.now.db conference) }
        ensures rising { IsRising (locals_of self.now.db conference) }
        ensures fits { AllBelow (2 ^ 32) (locals_of self.now.db conference) }
    {
        self.texts.locals_from(conference, first)
    }

    /// The least number among the texts that a person made that still has a text, or the next one
    /// if none has.
    #[tactic(auto, unfolding(kom_model::specs::Db::first_created_of, kom_model::specs::Db::created_by))]
    pub fn first_created(&self, person: u32) -> u32
        ensures { result ≡ first_created_of self.now.db person }
    {
        match self.texts.first_created(person) {
            Some(local) => local,
            None => self.next_created(person),
        }
    }

    /// The texts that a person made from a number among them on, rising; none if none are kept.
    #[tactic(auto, unfolding(kom_model::specs::Db::created_by))]
    pub fn created_from(&self, person: u32, first: u32) -> Option<PairsFrom<'_>>
        ensures pairs { IsFrom result first (created_by self.now.db person) }
        ensures rising { IsRising (created_by self.now.db person) }
        ensures fits { AllBelow (2 ^ 32) (created_by self.now.db person) }
    {
        self.texts.created_from(person, first)
    }
}
