ghost use Rattle.std.specs.Prelude.{◌≡◌};

use super::ServerState;
use kom_state::StoredRows;

impl ServerState {
    /// The stored rows.
    pub(crate) fn rows(&self) -> &StoredRows
        ensures { result.now.db ≡ self.now.db }
    {
        &self.rows
    }
}
