ghost use Rattle.std.specs.Prelude.{◌≡◌, length};

use crate::stored_rows::StoredRows;

impl StoredRows {
    /// How many conferences there are.
    pub fn conference_count(&self) -> usize
        ensures { result ≡ length self.now.db.conferences }
    {
        self.conferences.len()
    }

    /// How many persons there are.
    pub fn person_count(&self) -> usize
        ensures { result ≡ length self.now.db.persons }
    {
        self.persons.len()
    }

    /// How many texts there are.
    pub fn text_count(&self) -> usize
        ensures { result ≡ length self.now.db.texts }
    {
        self.texts.text_count()
    }
}
