use crate::effects::Effect;
use crate::replies::Reply;
use crate::sequence::Sequence;
use crate::session_changes::SessionChange;

/// Effects in the order in which they are made.
pub type EffectList = Sequence<Effect>;

/// Changes of sessions in the order in which they are made.
pub type ChangeList = Sequence<SessionChange>;

/// What a call comes to: what its caller is answered, what becomes of the stored rows, and what of
/// the sessions.
#[derive(Drop)]
pub struct Decision {
    pub reply: Reply,
    pub effects: EffectList,
    pub changes: ChangeList,
}
