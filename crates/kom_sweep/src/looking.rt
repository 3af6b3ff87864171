//! The walk over the texts.
ghost use Rattle.std.specs.Prelude.{◌≡◌, List, [], length, IfOk, IfErr, is_some, filter_map, true};
ghost use Rattle.std.specs.List.{list_all, list_any};
ghost use Rattle.kom_links.specs.Records.{IsOpen};
ghost use Rattle.kom_sweep.specs.Told.{Told, only_asks};
ghost use Rattle.kom_sweep.specs.Replies.{stat_in};
ghost use Rattle.kom_sweep.specs.Acting.{sight, Goes, Breaks};
ghost use Rattle.kom_sweep.specs.Due.{Walk, Room, Look, is_whole, is_due_by, recipient_in};
ghost use Rattle.kom_sweep.specs.Walks.{IsTextWalk, IsLook, told_texts, told_look, due_in};
ghost use Rattle.kom_sweep.specs.Names.{Knows, all_let_go_at, is_due_at, lets_go_at};

use crate::ages::{Ages, ask_ages};
use crate::ends::Cut;
use crate::names::Names;
use crate::replies::{next_in, stat_in};
use crate::rule::{WITHOUT_RECIPIENTS, age, is_held, recipient_in};
use crate::talk::Talk;
use kom_links::{Clock, Desk};
use kom_types::{Call, Memory, MiscInfo, Moment, TextStat};
use std::alloc::Global;

/// By what a text is judged: the moment, and what is kept of what conferences tell.
#[derive(Clone, Copy)]
pub(crate) struct Judge<'n> {
    pub alloc: Global,
    pub moment: Moment,
    pub names: &'n Names,
}

/// The texts that are due, rising, and how many texts there are.
#[derive(Drop)]
pub(crate) struct Found {
    pub due: Vec<u32>,
    pub count: u64,
}

/// Walks over all texts.
pub(crate) fn find_due<K: Desk, C: Clock>(
    talk: &mut Talk,
    desk: &mut K,
    clock: &mut C,
    session: u32,
    judge: &Judge,
) -> Result<Found, Cut>
    requires { IsOpen session (K.view desk.old).mine }
    ensures ok { IfOk result (λ found. (texts : Walk Look) × IsTextWalk texts
        × Goes session (sight (K.view desk.old) (C.gave clock.old) talk.old.next)
        (sight (K.view desk.new) (C.gave clock.new) talk.new.next) (told_texts texts)
        × (found.count ≡ length texts.steps)
        × ((rooms : Walk Room) → Knows rooms.steps (is_whole rooms) judge.now.names.now
        → found.due.items ≡ due_in judge.now.moment rooms texts.steps)) }
    ensures err { IfErr result (λ cut. (calls : List Told) × (only_asks calls ≡ true)
        × Breaks session (sight (K.view desk.old) (C.gave clock.old) talk.old.next)
        (sight (K.view desk.new) (C.gave clock.new) talk.new.next) calls cut) }
    ensures open { IsOpen session (K.view desk.new).mine }
    ensures on { K.goes_on desk.old desk.new }
{
    let mut found = Found {
        due: Vec::new(judge.alloc),
        count: 0,
    };
    let mut at = 0;
    'texts: loop {
        let call = Call::FindNextTextNo { start: at };
        let next = next_in(talk.ask(desk, clock, session, call)?, at);
        let Some(text) = next.number else {
            return Ok(found);
        };
        let is_due = look(talk, desk, clock, session, judge, text)?;
        found.note(text, is_due)?;
        at = text;
    }
}

impl Found {
    ghost use Rattle.std.specs.Prelude.{◌+◌, ◌<◌, ◌^◌, ◌++◌, ◌∷◌, OnOk, if◌then◌else◌};

    /// Notes a text.
    fn note(&mut self, text: u32, is_due: bool) -> Result<(), Memory>
        requires { self.old.count < 2 ^ 32 }
        ensures due { OnOk result (self.new.due.items
            ≡ self.old.due.items ++ (if is_due then text ∷ [] else [])) }
        ensures count { OnOk result (self.new.count ≡ self.old.count + 1) }
    {
        self.count += 1;
        if is_due {
            self.due.push(text)?;
        }
        Ok(())
    }
}

/// Looks at a text, and tells whether it is due.
fn look<K: Desk, C: Clock>(
    talk: &mut Talk,
    desk: &mut K,
    clock: &mut C,
    session: u32,
    judge: &Judge,
    text: u32,
) -> Result<bool, Cut>
    requires { IsOpen session (K.view desk.old).mine }
    ensures ok { IfOk result (λ due. (look : Look) × IsLook look
        × Goes session (sight (K.view desk.old) (C.gave clock.old) talk.old.next)
        (sight (K.view desk.new) (C.gave clock.new) talk.new.next) (told_look text look)
        × ((rooms : Walk Room) → Knows rooms.steps (is_whole rooms) judge.now.names.now
        → due ≡ is_due_by judge.now.moment rooms text (stat_in look.stat) look.children)) }
    ensures err { IfErr result (λ cut. (calls : List Told) × (only_asks calls ≡ true)
        × Breaks session (sight (K.view desk.old) (C.gave clock.old) talk.old.next)
        (sight (K.view desk.new) (C.gave clock.new) talk.new.next) calls cut) }
    ensures open { IsOpen session (K.view desk.new).mine }
    ensures on { K.goes_on desk.old desk.new }
{
    let call = Call::GetTextStat { text };
    let Some(stat) = stat_in(talk.ask(desk, clock, session, call)?) else {
        return Ok(false);
    };
    let told = stat.get();
    let infos = told.misc_infos.as_slice();
    let ages = ask_ages(talk, desk, clock, session, infos, judge.moment)?;
    Ok(judge.is_due(text, told, ages))
}

impl Judge<'_> {
    /// Whether a text is due, by what is known of the ages of its comments and footnotes.
    fn is_due(&self, text: u32, stat: &TextStat, ages: Ages) -> bool
        ensures { result ≡ is_due_at self.now.names.now self.now.moment text stat.now ages }
    {
        self.names.whole
            && stat.marks == 0
            && !is_held(stat.aux_items.as_slice())
            && ages.are_told
            && !self.names.has(text)
            && all_let_go(
                self.names,
                stat.misc_infos.as_slice(),
                age(self.moment, stat),
                ages,
            )
    }
}

/// Whether all recipients let a text of this age go.
fn all_let_go(names: &Names, infos: &[MiscInfo], age: u64, ages: Ages) -> bool
    ensures { result ≡ all_let_go_at names.now infos.now age ages }
{
    if has_recipient(infos) {
        each_lets_go(names, infos, age, ages)
    } else {
        WITHOUT_RECIPIENTS.let_go(age, ages)
    }
}

fn has_recipient(infos: &[MiscInfo]) -> bool
    ensures { result ≡ list_any (λ info. is_some (recipient_in info)) infos.now }
{
    infos.iter().any(|info| recipient_in(*info).is_some())
}

/// Whether each recipient does.
fn each_lets_go(names: &Names, infos: &[MiscInfo], age: u64, ages: Ages) -> bool
    ensures { result ≡ list_all (lets_go_at names.now age ages)
        (filter_map recipient_in infos.now) }
{
    infos
        .iter()
        .filter_map(|info| recipient_in(*info))
        .all(|conference| names.let_go(conference, age, ages))
}
