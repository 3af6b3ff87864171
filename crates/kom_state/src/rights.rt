use crate::stored_rows::StoredRows;
use kom_model::Rows;
use kom_types::{AuxRow, ConferenceHead, Recipient, TextLink};

impl Rows for StoredRows {
    ghost db = { λ state. state.db };

    #[tactic(auto, unfolding(kom_model::specs::Db::conference_head_of))]
    fn conference(&self, number: u32) -> Option<ConferenceHead> {
        let row = StoredRows::conference(self, number)?;
        Some(ConferenceHead {
            kind: row.kind,
            supervisor: row.supervisor,
            submitters: row.submitters,
        })
    }

    #[tactic(auto, unfolding(kom_model::specs::Db::membership_kind_of, kom_model::specs::Db::membership_of))]
    fn membership_kind(&self, person: u32, conference: u32) -> Option<u8> {
        self.memberships.kind_of(person, conference)
    }

    #[tactic(auto, unfolding(kom_model::specs::Db::person_flags_of))]
    fn flags(&self, person: u32) -> Option<u8> {
        let row = self.person(person)?;
        Some(row.flags)
    }

    #[tactic(auto, unfolding(kom_model::specs::Db::text_author_of))]
    fn author(&self, text: u32) -> Option<u32> {
        let row = self.text(text)?;
        Some(row.author)
    }

    fn recipient_count(&self, text: u32) -> usize {
        StoredRows::recipient_count(self, text)
    }

    fn recipient(&self, text: u32, place: usize) -> Option<Recipient> {
        self.nth_recipient(text, place).copied()
    }

    fn count_from(&self, text: u32, footnote: bool) -> usize {
        StoredRows::count_from(self, text, footnote)
    }

    fn link_from(&self, text: u32, footnote: bool, place: usize) -> Option<TextLink> {
        self.nth_from(text, footnote, place).copied()
    }

    fn count_into(&self, text: u32, footnote: bool) -> usize {
        StoredRows::count_into(self, text, footnote)
    }

    fn link_into(&self, text: u32, footnote: bool, place: usize) -> Option<TextLink> {
        self.nth_into(text, footnote, place).copied()
    }

    fn item_count(&self, on_text: bool, object: u32) -> usize {
        StoredRows::item_count(self, on_text, object)
    }

    fn item(&self, on_text: bool, object: u32, place: usize) -> Option<&AuxRow> {
        self.nth_item(on_text, object, place)
    }

    fn mark_count(&self, text: u32) -> usize {
        self.mark_count_on(text)
    }
}
