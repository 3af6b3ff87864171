// The rows that a snapshot makes.
ghost use Rattle.std.specs.Prelude.{◌≡◌, false, Ok, Err};
ghost use Rattle.kom_model.specs.Db.{empty_db};

use crate::making::{BodyMaker, Stop, make_effect};
use crate::rows::MadeRows;
use effect_codec::{NotRaised, read_raised};
use std::alloc::Global;

// How many bytes a raised counter has.
const RAISED_LEN: usize = 14;

/// The rows that the parts of a snapshot make, and whether a counter was among these: no effect
/// comes after one.
#[derive(Drop)]
pub(crate) struct SnapshotMaker {
    pub rows: MadeRows,
    pub counting: bool,
}

impl SnapshotMaker {
    /// No rows. It takes no memory.
    pub(crate) fn new(alloc: Global) -> SnapshotMaker
        ensures rows { result.rows.db ≡ empty_db }
        ensures counting { result.counting ≡ false }
    {
        SnapshotMaker {
            rows: MadeRows::empty(alloc),
            counting: false,
        }
    }
}

impl BodyMaker for SnapshotMaker {
    ghost use Rattle.kom_journal.specs.Snapshots.{MakesSnapshot, IsNoRest};

    ghost makes = { λ old new bytes rest.
        MakesSnapshot old.counting old.rows.db new.counting new.rows.db bytes rest };

    ghost refuses = { λ maker bytes. IsNoRest maker.counting maker.rows.db bytes };

    ghost none = { λ one bytes last. (λ rest. rest, λ rest. rest) };

    ghost in_turn = { λ one two three a b c first second last. (
      λ rest. (first last).0 ((second last).0 rest),
      λ whole. (second last).1 ((first last).1 whole),
    ) };

    ghost later = { λ one two a b first none last whole. none last ((first last).1 whole) };

    fn make_next(&mut self, alloc: Global, bytes: &[u8]) -> Result<Option<usize>, Stop> {
        match read_raised(bytes) {
            Ok(Some(given)) => {
                if !self.rows.may_raise(given) {
                    return Err(Stop::Unfit);
                }
                self.rows.raise(given);
                self.counting = true;
                Ok(Some(RAISED_LEN))
            }
            Ok(None) => Ok(None),
            Err(NotRaised) => {
                if self.counting {
                    return Err(Stop::Unfit);
                }
                make_effect(alloc, &mut self.rows, bytes)
            }
        }
    }
}
