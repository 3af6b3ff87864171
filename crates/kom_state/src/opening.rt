ghost use Rattle.std.specs.Prelude.{◌≡◌, [], take, IfOk};
ghost use Rattle.kom_model.specs.Initial.{initial, initial_effects as effects_at_first};
ghost use Rattle.kom_model.specs.Initial.{initial_conference as conference_at_first};
ghost use Rattle.kom_model.specs.Effects.{apply, apply_all};

use crate::stored_rows::StoredRows;
use kom_types::bits::{ALL_PRIVILEGES, LETTERBOX_TYPE, TYPE_FOR_ALL};
use kom_types::{Bytes, Effect, EffectList, Memory, Moment, Sequence, password_hash};
use std::alloc::Global;
use std::slice;

/// The number of the person that a new server has, and of its letterbox.
const ADMINISTRATOR: u32 = 5;

impl StoredRows {
    /// The rows of a new server, whose administrator has this password.
    #[tactic(auto, unfolding(kom_model::specs::Initial::initial))]
    pub fn initial(alloc: Global, password: &[u8], moment: Moment) -> Result<StoredRows, Memory>
        ensures { IfOk result (λ state. state.db ≡ initial password.now moment) }
    {
        let effects = initial_effects(alloc, password, moment)?;
        let mut state = StoredRows::empty(alloc);
        match state.make_all(effects) {
            Ok(()) => Ok(state),
            Err(memory) => Err(memory),
        }
    }

    /// Makes those of the effects that fit, in their order.
    fn make_all(&mut self, effects: EffectList) -> Result<(), Memory>
        ensures { IfOk result (λ done. self.new.db ≡ apply_all effects self.old.db) }
    {
        for effect in effects.into_vec() {
            self.make(effect)?;
        }
        Ok(())
    }

    /// Makes an effect if it fits.
    fn make(&mut self, effect: Effect) -> Result<(), Memory>
        ensures { IfOk result (λ done. self.new.db ≡ apply effect self.old.db) }
    {
        self.reserve(slice::from_ref(&effect))?;
        self.apply(effect);
        Ok(())
    }
}

/// The effects that make the rows of a new server: four conferences for all, and a person with
/// every privilege, with a letterbox and this password.
pub fn initial_effects(alloc: Global, password: &[u8], moment: Moment) -> Result<EffectList, Memory>
    ensures { IfOk result (λ effects. effects ≡ effects_at_first password.now moment) }
{
    let mut effects = initial_conferences(alloc, moment)?;
    effects.push(Effect::PersonAdded {
        number: ADMINISTRATOR,
        privileges: ALL_PRIVILEGES,
        flags: 0,
        last_login: moment,
    })?;
    effects.push(Effect::Password {
        number: ADMINISTRATOR,
        hash: password_hash(ADMINISTRATOR, password),
    })?;
    effects.push(Effect::MemberSet {
        person: ADMINISTRATOR,
        conference: ADMINISTRATOR,
        position: 0,
        priority: u8::MAX,
        added_by: ADMINISTRATOR,
        added_at: moment,
        kind: 0,
    })?;
    Ok(effects)
}

/// The first five of these effects, which make the conferences: no password is among them.
fn initial_conferences(alloc: Global, moment: Moment) -> Result<EffectList, Memory>
    ensures { IfOk result (λ effects. effects ≡ take 5 (effects_at_first [] moment)) }
{
    let rows: [(u32, &[u8], u8); 5] = [
        (1, b"Presentations of conferences", TYPE_FOR_ALL),
        (2, b"Presentations of persons", TYPE_FOR_ALL),
        (3, b"Messages of the day", TYPE_FOR_ALL),
        (4, b"News", TYPE_FOR_ALL),
        (ADMINISTRATOR, b"Administrator", LETTERBOX_TYPE),
    ];
    let mut effects = Sequence::new(alloc);
    for (number, name, kind) in rows {
        effects.push(initial_conference(alloc, moment, number, name, kind)?)?;
    }
    Ok(effects)
}

/// A conference of the administrator's, of this type.
fn initial_conference(
    alloc: Global,
    moment: Moment,
    number: u32,
    name: &[u8],
    kind: u8,
) -> Result<Effect, Memory>
    ensures { IfOk result (λ effect. effect
        ≡ conference_at_first moment number name.now kind) }
{
    Ok(Effect::ConfAdded {
        number,
        name: Bytes::copy_of(alloc, name)?,
        kind,
        at: moment,
        creator: ADMINISTRATOR,
        supervisor: ADMINISTRATOR,
    })
}
