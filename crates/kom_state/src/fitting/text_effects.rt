//! Whether the effects on texts fit.
ghost use Rattle.std.specs.Prelude.{◌≡◌, is_some};
ghost use Rattle.kom_model.specs.Db.{text_of};
ghost use Rattle.kom_model.specs.Effects.{may_add_text, is_bare, may_draw, is_recipient_tag};
ghost use Rattle.kom_model.specs.Effects.{may_add_recipient, most_links, may_link, may_mark};
ghost use Rattle.kom_model.specs.Effects.{may_number, may_create};

use crate::stored_rows::StoredRows;
use kom_types::limits::{
    LAST_DRAWN, LONGEST_BODY, MOST_COMMENTS, MOST_FOOTNOTES, MOST_MARKS, MOST_RECIPIENTS,
};
use kom_types::{Recipient, TextLink, TextRow};

impl StoredRows {
    pub(crate) fn has_text(&self, number: u32) -> bool
        ensures { result ≡ is_some (text_of self.now.db number) }
    {
        self.text(number).is_some()
    }

    #[tactic(auto, unfolding(kom_model::specs::Db::next_text_of))]
    pub(crate) fn may_add_text(&self, number: u32, body: &[u8]) -> bool
        ensures { result ≡ may_add_text self.now.db number body.now }
    {
        self.next_text <= number
            && number <= LAST_DRAWN
            && !self.has_text(number)
            && body.len() <= LONGEST_BODY as usize
    }

    /// Whether nothing is left that hangs on a text.
    pub(crate) fn is_bare(&self, text: u32) -> bool
        ensures { result ≡ is_bare self.now.db text }
    {
        self.recipient_count(text) == 0
            && self.count_from(text, false) == 0
            && self.count_from(text, true) == 0
            && self.count_into(text, false) == 0
            && self.count_into(text, true) == 0
            && self.mark_count_on(text) == 0
            && self.item_count(true, text) == 0
    }

    fn may_draw(&self, conference: u32, local: u32) -> bool
        ensures { result ≡ may_draw self.now.db conference local }
    {
        self.next_local(conference) <= local && local <= LAST_DRAWN
    }

    pub(crate) fn may_add_recipient(&self, given: &Recipient) -> bool
        ensures { result ≡ may_add_recipient self.now.db given.now }
    {
        self.has_text(given.text)
            && self.has_conference(given.conference)
            && self.recipient(given.text, given.conference).is_none()
            && is_recipient_tag(u32::from(given.tag))
            && self.may_draw(given.conference, given.local)
            && self.recipient_count(given.text) < MOST_RECIPIENTS
    }

    pub(crate) fn may_link(&self, given: &TextLink) -> bool
        ensures { result ≡ may_link self.now.db given.now }
    {
        self.has_text(given.child)
            && self.has_text(given.parent)
            && self
                .link(given.child, given.parent, given.footnote)
                .is_none()
            && self.count_from(given.child, given.footnote) < most_links(given.footnote)
            && self.count_into(given.parent, given.footnote) < most_links(given.footnote)
    }

    pub(crate) fn may_mark(&self, person: u32, text: u32) -> bool
        ensures { result ≡ may_mark self.now.db person text }
    {
        self.mark(person, text).is_some() || self.mark_count_of(person) < MOST_MARKS
    }

    pub(crate) fn may_create(&self, person: u32, local: u32, text: u32) -> bool
        ensures { result ≡ may_create self.now.db person local text }
    {
        match self.text(text) {
            None => false,
            Some(row) => self.has_person(person) && self.may_number(person, local, row),
        }
    }

    fn may_number(&self, person: u32, local: u32, row: &TextRow) -> bool
        ensures { result ≡ may_number self.now.db person local row.now }
    {
        row.author == person
            && row.created_local == 0
            && self.next_created(person) <= local
            && local <= LAST_DRAWN
    }
}

/// Whether a tag is that of a recipient, of one of a copy, or of one that is shown to few.
pub fn is_recipient_tag(tag: u32) -> bool
    ensures { result ≡ is_recipient_tag tag }
{
    tag == 0 || tag == 1 || tag == 15
}

/// How many comments, or footnotes, there are at most in or out of a text.
pub fn most_links(footnote: bool) -> usize
    ensures { result ≡ most_links footnote }
{
    if footnote {
        MOST_FOOTNOTES
    } else {
        MOST_COMMENTS
    }
}
