ghost use Rattle.std.specs.Prelude.{◌≡◌, ℕ, List, Option, [], ◌∷◌, ◌++◌, map, filter_map};
ghost use Rattle.std.specs.Prelude.{IfOk, IfErr, option_map, true};
ghost use Rattle.kom_types.specs.declared.replies.Reply.{Reply as Body};
ghost use Rattle.kom_links.specs.Records.{IsOpen};
ghost use Rattle.kom_sweep.specs.Told.{Told, only_asks};
ghost use Rattle.kom_sweep.specs.Replies.{stat_in};
ghost use Rattle.kom_sweep.specs.Acting.{sight, Goes, Breaks};
ghost use Rattle.kom_sweep.specs.Due.{child_in, age};
ghost use Rattle.kom_sweep.specs.Walks.{told_child};
ghost use Rattle.kom_sweep.specs.Ages.{TellsOf, with_age, is_above};

use crate::ends::Cut;
use crate::replies::stat_in;
use crate::rule::{age, child_in};
use crate::talk::Talk;
use kom_links::{Clock, Desk};
use kom_types::{Call, MiscInfo, Moment, Reply};

/// What is known of the comments and footnotes to a text: whether all were told, and how many days
/// the youngest of those has that were.
#[derive(Clone, Copy, Debug)]
pub(crate) struct Ages {
    pub are_told: bool,
    pub youngest: Option<u64>,
}

impl Ages {
    /// Whether all that were told are older than so many days.
    pub(crate) fn are_above(&self, days: u32) -> bool
        ensures { result ≡ is_above days self.now.youngest }
    {
        match self.youngest {
            None => true,
            Some(youngest) => u64::from(days) < youngest,
        }
    }

    /// With one more, if it was told.
    fn with(self, age: Option<u64>) -> Ages
        ensures { result ≡ with_age self age }
    {
        match (age, self.youngest) {
            (None, youngest) => Ages {
                are_told: false,
                youngest,
            },
            (Some(age), Some(youngest)) if youngest <= age => self,
            (Some(age), _) => Ages {
                are_told: self.are_told,
                youngest: Some(age),
            },
        }
    }
}

/// Asks about each comment and footnote among these.
pub(crate) fn ask_ages<K: Desk, C: Clock>(
    talk: &mut Talk,
    desk: &mut K,
    clock: &mut C,
    session: u32,
    infos: &[MiscInfo],
    moment: Moment,
) -> Result<Ages, Cut>
    requires { IsOpen session (K.view desk.old).mine }
    ensures ok { IfOk result (λ ages. (children : List (ℕ × Option Body))
        × (map (λ child. child.0) children ≡ filter_map child_in infos.now)
        × Goes session (sight (K.view desk.old) (C.gave clock.old) talk.old.next)
        (sight (K.view desk.new) (C.gave clock.new) talk.new.next) (map told_child children)
        × TellsOf moment children ages) }
    ensures err { IfErr result (λ cut. (calls : List Told) × (only_asks calls ≡ true)
        × Breaks session (sight (K.view desk.old) (C.gave clock.old) talk.old.next)
        (sight (K.view desk.new) (C.gave clock.new) talk.new.next) calls cut) }
    ensures open { IsOpen session (K.view desk.new).mine }
    ensures on { K.goes_on desk.old desk.new }
{
    let mut ages = Ages {
        are_told: true,
        youngest: None,
    };
    for info in infos.iter() {
        ages = ask_age(talk, desk, clock, session, *info, (moment, ages))?;
    }
    Ok(ages)
}

/// Asks about a text, if it is a comment or a footnote, beside those of which the ages are known.
fn ask_age<K: Desk, C: Clock>(
    talk: &mut Talk,
    desk: &mut K,
    clock: &mut C,
    session: u32,
    info: MiscInfo,
    known: (Moment, Ages),
) -> Result<Ages, Cut>
    requires { IsOpen session (K.view desk.old).mine }
    ensures ok { IfOk result (λ ages. (children : List (ℕ × Option Body))
        × (map (λ child. child.0) children ≡ filter_map child_in (info ∷ []))
        × Goes session (sight (K.view desk.old) (C.gave clock.old) talk.old.next)
        (sight (K.view desk.new) (C.gave clock.new) talk.new.next) (map told_child children)
        × ((before : List (ℕ × Option Body)) → TellsOf known.0 before known.1
        → TellsOf known.0 (before ++ children) ages)) }
    ensures err { IfErr result (λ cut. (calls : List Told) × (only_asks calls ≡ true)
        × Breaks session (sight (K.view desk.old) (C.gave clock.old) talk.old.next)
        (sight (K.view desk.new) (C.gave clock.new) talk.new.next) calls cut) }
    ensures open { IsOpen session (K.view desk.new).mine }
    ensures on { K.goes_on desk.old desk.new }
{
    let (moment, ages) = known;
    let Some(text) = child_in(info) else {
        return Ok(ages);
    };
    let reply = talk.ask(desk, clock, session, Call::GetTextStat { text })?;
    Ok(ages.with(age_in(reply, moment)))
}

/// How many days a text has at a moment, if it was told.
fn age_in(reply: Option<Reply>, moment: Moment) -> Option<u64>
    ensures { result ≡ option_map (λ stat. age moment stat) (stat_in reply) }
{
    match stat_in(reply) {
        None => None,
        Some(stat) => Some(age(moment, stat.get())),
    }
}
