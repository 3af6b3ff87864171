// A journal as what keeps the effects that are made.

use crate::journal::Journal;
use kom_disk::Disk;
use kom_state::Keeper;
use kom_types::{Effect, Memory};

impl<D: Disk> Keeper for Journal<D> {
    ghost use Rattle.std.specs.Prelude.{◌≤◌, Some, length};
    ghost use Rattle.kom_journal.specs.Files.{body_of};
    ghost use Rattle.kom_journal.specs.Journals.{StaysAs};
    ghost use Rattle.kom_journal.specs.Staying.{less_room, itself, in_turn};

    ghost pending = { λ journal. Some journal.pending };

    ghost has_room = { λ journal effects. length (body_of effects) ≤ journal.spare };

    ghost stays = { λ old new. StaysAs old new };

    ghost leaves_room = { λ journal effect more room. less_room effect more journal.spare room };

    ghost itself_stays = { λ journal. itself journal };

    ghost stays_on = { λ first second third before after. in_turn first second third before after };

    fn reserve(&mut self, effects: &[Effect]) -> Result<(), Memory> {
        self.reserve_bytes(effects)
    }

    fn keep(&mut self, effect: &Effect) {
        self.add(effect);
    }
}
