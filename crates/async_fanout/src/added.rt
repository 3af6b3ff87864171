//! The texts that effects make, as rows.
ghost use Rattle.std.specs.Prelude.{◌≡◌, option_copied, option_map};
ghost use Rattle.kom_model.specs.ToWhom.{text_added, recipient_added, link_added, item_added};
ghost use Rattle.async_fanout.specs.Added.{is_text, is_recipient_of, is_from, is_into, is_item};

use kom_model::Rows;
use kom_state::StoredRows;
use kom_types::{AuxRow, ConferenceHead, Effect, Recipient, TextLink};

/// The stored rows with the texts that effects make as the only texts. Nothing is copied.
#[derive(Clone, Copy)]
pub(crate) struct Added<'a> {
    pub(crate) rows: &'a StoredRows,
    pub(crate) effects: &'a [Effect],
}

impl<'a> Rows for Added<'a> {
    ghost use Rattle.kom_model.specs.ToWhom.{only_added};

    ghost db = { λ added. only_added added.effects.now added.rows.now.db };

    #[tactic(auto, unfolding(kom_model::specs::Db::conference_head_of, kom_model::specs::Db::conference_of))]
    fn conference(&self, number: u32) -> Option<ConferenceHead> {
        Rows::conference(self.rows, number)
    }

    #[tactic(auto, unfolding(kom_model::specs::Db::membership_kind_of, kom_model::specs::Db::membership_of))]
    fn membership_kind(&self, person: u32, conference: u32) -> Option<u8> {
        self.rows.membership_kind(person, conference)
    }

    #[tactic(auto, unfolding(kom_model::specs::Db::person_flags_of, kom_model::specs::Db::person_of))]
    fn flags(&self, person: u32) -> Option<u8> {
        self.rows.flags(person)
    }

    #[tactic(auto, unfolding(kom_model::specs::Db::text_author_of, kom_model::specs::Db::text_of))]
    fn author(&self, text: u32) -> Option<u32> {
        let effect = self
            .effects
            .iter()
            .filter(|effect| is_text(effect, text))
            .nth(0)?;
        author_in(effect)
    }

    #[tactic(auto, unfolding(kom_model::specs::Db::recipients_of))]
    fn recipient_count(&self, text: u32) -> usize {
        self.effects
            .iter()
            .filter(|effect| is_recipient_of(effect, text))
            .count()
    }

    #[tactic(auto, unfolding(kom_model::specs::Db::recipients_of))]
    fn recipient(&self, text: u32, place: usize) -> Option<Recipient> {
        let effect = self
            .effects
            .iter()
            .filter(|effect| is_recipient_of(effect, text))
            .nth(place)?;
        recipient_in(effect)
    }

    #[tactic(auto, unfolding(kom_model::specs::Db::links_from))]
    fn count_from(&self, text: u32, footnote: bool) -> usize {
        self.effects
            .iter()
            .filter(|effect| is_from(effect, text, footnote))
            .count()
    }

    #[tactic(auto, unfolding(kom_model::specs::Db::links_from))]
    fn link_from(&self, text: u32, footnote: bool, place: usize) -> Option<TextLink> {
        let effect = self
            .effects
            .iter()
            .filter(|effect| is_from(effect, text, footnote))
            .nth(place)?;
        link_in(effect)
    }

    #[tactic(auto, unfolding(kom_model::specs::Db::links_into))]
    fn count_into(&self, text: u32, footnote: bool) -> usize {
        self.effects
            .iter()
            .filter(|effect| is_into(effect, text, footnote))
            .count()
    }

    #[tactic(auto, unfolding(kom_model::specs::Db::links_into))]
    fn link_into(&self, text: u32, footnote: bool, place: usize) -> Option<TextLink> {
        let effect = self
            .effects
            .iter()
            .filter(|effect| is_into(effect, text, footnote))
            .nth(place)?;
        link_in(effect)
    }

    #[tactic(auto, unfolding(kom_model::specs::Db::items_of))]
    fn item_count(&self, on_text: bool, object: u32) -> usize {
        self.effects
            .iter()
            .filter(|effect| is_item(effect, on_text, object))
            .count()
    }

    #[tactic(auto, unfolding(kom_model::specs::Db::items_of))]
    fn item(&self, on_text: bool, object: u32, place: usize) -> Option<&AuxRow> {
        let effect = self
            .effects
            .iter()
            .filter(|effect| is_item(effect, on_text, object))
            .nth(place)?;
        item_in(effect)
    }

    #[tactic(auto, unfolding(kom_model::specs::Db::marks_on))]
    fn mark_count(&self, _text: u32) -> usize {
        0
    }
}

/// The effect makes the text of a number.
fn is_text(effect: &Effect, text: u32) -> bool
    ensures { result ≡ is_text text effect.now }
{
    match effect {
        Effect::TextAdded { number, .. } => *number == text,
        _ => false,
    }
}

fn author_in(effect: &Effect) -> Option<u32>
    ensures { result ≡ option_map (λ row. row.author) (text_added effect.now) }
{
    match effect {
        Effect::TextAdded { author, .. } => Some(*author),
        _ => None,
    }
}

/// The effect adds a recipient of a text.
fn is_recipient_of(effect: &Effect, text: u32) -> bool
    ensures { result ≡ is_recipient_of text effect.now }
{
    match effect {
        Effect::RecipientAdded(row) => row.text == text,
        _ => false,
    }
}

fn recipient_in(effect: &Effect) -> Option<Recipient>
    ensures { result ≡ recipient_added effect.now }
{
    match effect {
        Effect::RecipientAdded(row) => Some(*row),
        _ => None,
    }
}

/// The effect adds a link from a text: that of a comment, or of a footnote.
fn is_from(effect: &Effect, text: u32, footnote: bool) -> bool
    ensures { result ≡ is_from text footnote effect.now }
{
    match effect {
        Effect::LinkAdded(row) => row.child == text && row.footnote == footnote,
        _ => false,
    }
}

/// The effect adds a link into a text.
fn is_into(effect: &Effect, text: u32, footnote: bool) -> bool
    ensures { result ≡ is_into text footnote effect.now }
{
    match effect {
        Effect::LinkAdded(row) => row.parent == text && row.footnote == footnote,
        _ => false,
    }
}

fn link_in(effect: &Effect) -> Option<TextLink>
    ensures { result ≡ link_added effect.now }
{
    match effect {
        Effect::LinkAdded(row) => Some(*row),
        _ => None,
    }
}

/// The effect adds an aux-item of a text, or of a conference.
fn is_item(effect: &Effect, on_text: bool, object: u32) -> bool
    ensures { result ≡ is_item on_text object effect.now }
{
    match effect {
        Effect::AuxAdded {
            on_text: of_text,
            object: number,
            ..
        } => *of_text == on_text && *number == object,
        _ => false,
    }
}

pub(crate) fn item_in(effect: &Effect) -> Option<&AuxRow>
    ensures { option_copied result ≡ option_map (λ row. row.item) (item_added effect.now) }
{
    match effect {
        Effect::AuxAdded { item, .. } => Some(item),
        _ => None,
    }
}
