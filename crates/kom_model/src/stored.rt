ghost use Rattle.std.specs.Prelude.{◌≡◌, length, slice_get, option_copied};
ghost use Rattle.kom_model.specs.Db.{Db, conference_head_of, membership_kind_of, text_author_of};
ghost use Rattle.kom_model.specs.Db.{person_flags_of, recipients_of, links_from};
ghost use Rattle.kom_model.specs.Db.{links_into, items_of, marks_on};

use kom_types::{AuxRow, ConferenceHead, Recipient, TextLink};

/// How the rights of persons read the stored rows. `None` comes exactly if there is no such row.
pub trait Rows {
    ghost db: { Self → Db };

    /// What of a conference the rights hang on.
    fn conference(&self, number: u32) -> Option<ConferenceHead>
        ensures { result ≡ conference_head_of (db self.now) number };

    /// The eight bits of the type of a person's membership in a conference.
    fn membership_kind(&self, person: u32, conference: u32) -> Option<u8>
        ensures { result ≡ membership_kind_of (db self.now) person conference };

    /// The eight bits of a person's flags.
    fn flags(&self, person: u32) -> Option<u8>
        ensures { result ≡ person_flags_of (db self.now) person };

    /// Who made a text: 0 if it is anonymous.
    fn author(&self, text: u32) -> Option<u32>
        ensures { result ≡ text_author_of (db self.now) text };

    /// How many recipients a text has.
    fn recipient_count(&self, text: u32) -> usize
        ensures { result ≡ length (recipients_of (db self.now) text) };

    /// The recipient of a text at a place among its recipients, in the order of adding.
    fn recipient(&self, text: u32, place: usize) -> Option<Recipient>
        ensures { result ≡ slice_get (recipients_of (db self.now) text) place };

    /// To how many texts a text is a comment, or a footnote.
    fn count_from(&self, text: u32, footnote: bool) -> usize
        ensures { result ≡ length (links_from (db self.now) text footnote) };

    /// The link at a place among those of a text to others, in the order of adding.
    fn link_from(&self, text: u32, footnote: bool, place: usize) -> Option<TextLink>
        ensures { result ≡ slice_get (links_from (db self.now) text footnote) place };

    /// How many comments, or footnotes, a text has.
    fn count_into(&self, text: u32, footnote: bool) -> usize
        ensures { result ≡ length (links_into (db self.now) text footnote) };

    /// The link at a place among those of the comments, or the footnotes, to a text, in the order
    /// of adding.
    fn link_into(&self, text: u32, footnote: bool, place: usize) -> Option<TextLink>
        ensures { result ≡ slice_get (links_into (db self.now) text footnote) place };

    /// How many aux-items a text, or a conference, has.
    fn item_count(&self, on_text: bool, object: u32) -> usize
        ensures { result ≡ length (items_of (db self.now) on_text object) };

    /// The aux-item at a place among those of a text, or a conference, in the order of adding.
    fn item(&self, on_text: bool, object: u32, place: usize) -> Option<&AuxRow>
        ensures { option_copied result ≡ slice_get (items_of (db self.now) on_text object) place };

    /// How many marks there are on a text.
    fn mark_count(&self, text: u32) -> usize
        ensures { result ≡ length (marks_on (db self.now) text) };
}
