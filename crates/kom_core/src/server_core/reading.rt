ghost use Rattle.std.specs.Prelude.{◌≡◌};

use super::Core;
use kom_state::StoredRows;

impl Core {
    /// The stored rows.
    pub fn rows(&self) -> &StoredRows
        ensures { result.now.db ≡ self.now.state.db }
    {
        self.server.rows()
    }
}
