ghost use Rattle.std.specs.Prelude.{◌≡◌, ℕ, ◌+◌, ◌<◌, ◌^◌, if◌then◌else◌, false, List, ◌++◌, map};
ghost use Rattle.std.specs.Prelude.{Option, IfOk, IfErr};
ghost use Rattle.kom_types.specs.declared.calls.Call.TheVariants as call;
ghost use Rattle.kom_types.specs.declared.replies.Reply.{Reply as Body};
ghost use Rattle.kom_links.specs.Records.{IsOpen};
ghost use Rattle.kom_sweep.specs.Told.{Told};
ghost use Rattle.kom_sweep.specs.Acting.{sight, Goes, Breaks};
ghost use Rattle.kom_sweep.specs.Walks.{told_deletions};
ghost use Rattle.kom_sweep.specs.Sweeps.{IsSweep, IsBrokenOff, HasAsked, swept_in, LogsIn, Works};

use crate::ends::{Cut, SweepEnd};
use crate::looking::{Judge, find_due};
use crate::replies::{forget, is_refused, refusal_of};
use crate::talk::Talk;
use crate::visiting::ask_names;
use kom_links::{Clock, Desk};
use kom_types::{Boxed, Bytes, Call, LoginPassword, Memory, Moment, NotMade};
use std::alloc::Global;

/// Deletes the texts of a desk that nobody keeps any more, by one session of a person who may use
/// all rights. The texts are judged by the moment at which it begins.
pub fn sweep<K: Desk, C: Clock>(
    alloc: Global,
    desk: &mut K,
    clock: &mut C,
    person: u32,
    password: &[u8],
) -> SweepEnd
    ensures sweeps { IsSweep person password.now (C.first clock.old)
        (sight (K.view desk.old) (C.gave clock.old) 1) (K.view desk.new) (C.gave clock.new)
        result }
    ensures on { K.goes_on desk.old desk.new }
{
    let moment = clock.now();
    match desk.connect(moment, b"sweep", b"memory") {
        Err(fault) => SweepEnd::at(fault),
        Ok(session) => {
            let outcome = work(alloc, desk, clock, session, moment, person, password);
            let closed = desk.close(clock.now(), session);
            SweepEnd::then(outcome, closed)
        }
    }
}

/// All calls of a session.
fn work<K: Desk, C: Clock>(
    alloc: Global,
    desk: &mut K,
    clock: &mut C,
    session: u32,
    moment: Moment,
    person: u32,
    password: &[u8],
) -> Result<SweepEnd, Cut>
    requires { IsOpen session (K.view desk.old).mine }
    ensures ok { IfOk result (λ ending. (calls : List Told) × (next : ℕ)
        × Goes session (sight (K.view desk.old) (C.gave clock.old) 1)
        (sight (K.view desk.new) (C.gave clock.new) next) calls
        × Works moment person password.now calls ending) }
    ensures err { IfErr result (λ cut. (calls : List Told) × (next : ℕ)
        × IsBrokenOff moment person password.now calls
        × Breaks session (sight (K.view desk.old) (C.gave clock.old) 1)
        (sight (K.view desk.new) (C.gave clock.new) next) calls cut) }
    ensures open { IsOpen session (K.view desk.new).mine }
    ensures on { K.goes_on desk.old desk.new }
{
    let mut talk = Talk::new();
    if let Some((code, status)) = log_in(
        alloc, &mut talk, desk, clock, session, person, password,
    )? {
        return Ok(SweepEnd::Refused(code, status));
    }
    let names = ask_names(alloc, &mut talk, desk, clock, session)?;
    let judge = Judge {
        alloc,
        moment,
        names: &names,
    };
    let found = find_due(&mut talk, desk, clock, session, &judge)?;
    let swept = delete_all(&mut talk, desk, clock, session, found.due.as_slice())?;
    let kept = found.count.saturating_sub(swept);
    let logout = talk.ask(desk, clock, session, Call::Logout)?;
    forget(logout);
    Ok(SweepEnd::Done { swept, kept })
}

/// Logs a person in, which then uses all its rights. Returns with what it was refused.
fn log_in<K: Desk, C: Clock>(
    alloc: Global,
    talk: &mut Talk,
    desk: &mut K,
    clock: &mut C,
    session: u32,
    person: u32,
    password: &[u8],
) -> Result<Option<(u32, u32)>, Cut>
    requires { IsOpen session (K.view desk.old).mine }
    ensures ok { IfOk result (λ refusal. (calls : List Told)
        × Goes session (sight (K.view desk.old) (C.gave clock.old) talk.old.next)
        (sight (K.view desk.new) (C.gave clock.new) talk.new.next) calls
        × LogsIn person password.now calls refusal) }
    ensures err { IfErr result (λ cut. (calls : List Told)
        × HasAsked person password.now calls
        × Breaks session (sight (K.view desk.old) (C.gave clock.old) talk.old.next)
        (sight (K.view desk.new) (C.gave clock.new) talk.new.next) calls cut) }
    ensures open { IsOpen session (K.view desk.new).mine }
    ensures on { K.goes_on desk.old desk.new }
{
    let call = login_call(alloc, person, password)?;
    let login = talk.ask(desk, clock, session, call)?;
    if let Some(refusal) = refusal_of(login) {
        return Ok(Some(refusal));
    }
    let rights = talk.ask(desk, clock, session, Call::Enable { level: 255 })?;
    forget(rights);
    let stable = talk.ask(desk, clock, session, Call::SyncKom)?;
    Ok(refusal_of(stable))
}

/// The call that logs a person in, visibly.
fn login_call(alloc: Global, person: u32, password: &[u8]) -> Result<Call, Memory>
    ensures { IfOk result (λ made. made ≡ call.Login person password.now false) }
{
    let password = LoginPassword::of(person, Bytes::copy_of(alloc, password)?);
    Ok(Call::Login {
        person,
        password: Boxed::new(alloc, password)?,
        invisible: false,
    })
}

/// Deletes texts, in order, and returns how many deletions were not refused.
fn delete_all<K: Desk, C: Clock>(
    talk: &mut Talk,
    desk: &mut K,
    clock: &mut C,
    session: u32,
    due: &[u32],
) -> Result<u64, Cut>
    requires { IsOpen session (K.view desk.old).mine }
    ensures ok { IfOk result (λ swept. (gone : List (ℕ × Option Body))
        × (map (λ one. one.0) gone ≡ due.now) × (swept ≡ swept_in gone)
        × Goes session (sight (K.view desk.old) (C.gave clock.old) talk.old.next)
        (sight (K.view desk.new) (C.gave clock.new) talk.new.next) (told_deletions gone)) }
    ensures err { IfErr result (λ cut. (gone : List (ℕ × Option Body)) × (rest : List ℕ)
        × (map (λ one. one.0) gone ++ rest ≡ due.now)
        × Breaks session (sight (K.view desk.old) (C.gave clock.old) talk.old.next)
        (sight (K.view desk.new) (C.gave clock.new) talk.new.next) (told_deletions gone) cut) }
    ensures open { IsOpen session (K.view desk.new).mine }
    ensures on { K.goes_on desk.old desk.new }
{
    let mut swept: u64 = 0;
    for text in due.iter() {
        let call = Call::DeleteText { text: *text };
        let refused = is_refused(talk.ask(desk, clock, session, call)?);
        swept = counted(swept, refused);
    }
    Ok(swept)
}

/// One deletion more, unless it was refused.
fn counted(swept: u64, refused: bool) -> u64
    requires { swept + 1 < 2 ^ 64 }
    ensures { result ≡ swept + (if refused then 0 else 1) }
{
    if refused { swept } else { swept + 1 }
}
