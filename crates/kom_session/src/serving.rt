ghost use Rattle.std.specs.Prelude.{◌≡◌, ◌≢◌, ◌<◌, ◌≤◌, ◌+◌, ℕ, List, length, Option, IfSome};
ghost use Rattle.std.specs.Prelude.{IsTrue};
ghost use Rattle.std.specs.List.{AllByRecursion};
ghost use Rattle.kom_links.specs.declared.link.Took.TheVariants as took;
ghost use Rattle.kom_links.specs.Outside.{LinkView, Writes};
ghost use Rattle.kom_links.specs.Answers.{first_fault_of, asks_in};
ghost use Rattle.kom_links.specs.Records.{has_connect};
ghost use Rattle.kom_links.specs.Talk.{IsTalk, AreTimed};
ghost use Rattle.kom_session.specs.Ends.{HasCause, TellsFault, IsOwn, IsUntouched, HasCarried};
ghost use Rattle.kom_session.specs.Ends.{given_to};
ghost use Rattle.kom_session.specs.Known.{Seen, sight, state, known_by, to_write, LeavesOthers};
ghost use Rattle.kom_session.specs.Kept.{IsKept, Goes, MayRead, MayAct, MayAsk, MayFlush, MayDrain};
ghost use Rattle.kom_session.specs.Kept.{IsDone, IsOn, IsAskedFor};
ghost use Rattle.kom_session.specs.declared.machine.Wants.TheVariants as wants;
ghost use Rattle.kom_session.specs.Left.{waits_in, IfSending, IsSentAll};
ghost use Rattle.kom_session.specs.Serving.{Adds, steps_in};
ghost use Rattle.kom_session.specs.Waits.{NoneWaits};

use crate::machine::{Machine, Wants};
use kom_links::{Clock, Desk, Got, Link, Served, Took, has_risen};
use std::alloc::Global;
use std::sync::Wait;

/// How many bytes are read at a time, at most.
const PIECE: usize = 8_192;

/// Serves a client's link from its greeting to its end.
pub fn serve_link<R: Wait, K: Desk, L: Link, C: Clock>(
    rt: &R,
    alloc: Global,
    desk: &mut K,
    link: &mut L,
    clock: &mut C,
) -> Served
    requires untouched { IsUntouched (L.view link.old) }

    // The records that were added to the desk's own are those of the served session, and flushes;
    // each has a reading of the clock of its own. The link is in talk with them, by the bytes that
    // were read and put.
    ensures talk { Adds (K.view desk.old) (K.view desk.new) (λ added answers.
        AllByRecursion (IsOwn result.session) added
        × AreTimed (C.gave clock.old) (C.gave clock.new) added
        × (input output : List ℕ) × HasCarried (L.view link.new) input output
        × TellsFault (L.view link.old).faults (L.view link.new).faults
        (first_fault_of result.session answers) input result.end
        × IsTalk (L.view link.old).host input output (L.view link.new).ended added result.session
        (given_to result.session ((K.view desk.new).gave_to result.session)) result.end
        (K.view desk.new).lock_full) }

    // A session that is returned is one that these records connected.
    ensures session { Adds (K.view desk.old) (K.view desk.new) (λ added answers.
        result.session ≢ 0 → IsTrue (has_connect result.session added)) }

    // Nothing waited unanswered while the link was read, and for each read that found nothing the
    // desk was asked whether it is stopped.
    ensures waits { Adds (K.view desk.old) (K.view desk.new) (λ added answers.
        IfSome (L.view link.new).reads (λ looks. NoneWaits (steps_in (sight (K.view desk.new)
        (L.view link.new) (C.gave clock.new)) result.session added) looks
        × (waits_in looks ≤ asks_in answers))) }

    // The cause of the end: of the desk's faults the first that concerns the session.
    ensures cause { Adds (K.view desk.old) (K.view desk.new) (λ added answers.
        HasCause (L.view link.old).faults (L.view link.new).faults
        (first_fault_of result.session answers) (L.view link.new).ended result.end) }

    // Where a call ended the session or the server was stopped, what waited for it was sent.
    ensures left { Adds (K.view desk.old) (K.view desk.new) (λ added answers.
        result.session ≢ 0 → IfSending result.end (IsSentAll (steps_in (sight (K.view desk.new)
        (L.view link.new) (C.gave clock.new)) result.session added) result.session answers)) }

    // The desk is the same, over the same server.
    ensures goes_on { K.goes_on desk.old desk.new }
    ensures others { LeavesOthers result.session
        (sight (K.view desk.old) (L.view link.old) (C.gave clock.old))
        (sight (K.view desk.new) (L.view link.new) (C.gave clock.new)) }
{
    let faults = link.faults();
    let mut machine = Machine::new(alloc);
    drive(rt, alloc, &mut machine, desk, link, clock);
    machine.close(desk, clock, has_risen(faults, link.faults()))
}

/// Does what a machine wants until its service is over.
fn drive<R: Wait, K: Desk, L: Link, C: Clock>(
    rt: &R,
    alloc: Global,
    machine: &mut Machine,
    desk: &mut K,
    link: &mut L,
    clock: &mut C,
)
    requires on { IsOn (known_by machine.old).stage }
    requires can { (start : Seen) × IsKept start (known_by machine.old)
        (sight (K.view desk.old) (L.view link.old) (C.gave clock.old)) }
    ensures over { IsDone (known_by machine.new).stage }
    ensures goes { Goes
        (state (known_by machine.old)
        (sight (K.view desk.old) (L.view link.old) (C.gave clock.old)))
        (state (known_by machine.new)
        (sight (K.view desk.new) (L.view link.new) (C.gave clock.new))) }
    ensures asked { IsAskedFor (L.view link.old).reads (K.view desk.old).answers
        (L.view link.new).reads (K.view desk.new).answers }
    ensures on { K.goes_on desk.old desk.new }
{
    let Ok(mut buffer) = vec![in alloc; 0u8; PIECE] else {
        machine.out_of_memory();
        return;
    };
    let piece = buffer.as_mut_slice();
    for _ in rt.forever() {
        let wanted = machine.wants();
        if wanted == Wants::End {
            return;
        }
        step(machine, desk, link, clock, piece, wanted);
    }
    unreachable!()
}

/// Does what a machine wants.
fn step<K: Desk, L: Link, C: Clock>(
    machine: &mut Machine,
    desk: &mut K,
    link: &mut L,
    clock: &mut C,
    buffer: &mut [u8],
    wanted: Wants,
)
    requires room { 0 < length buffer.old }
    requires on { IsOn (known_by machine.old).stage }
    requires read { wanted ≡ wants.Read → MayRead (known_by machine.old) }
    requires act { wanted ≡ wants.Act → MayAct (known_by machine.old) }
    requires flush { wanted ≡ wants.Flush → MayFlush (known_by machine.old) }
    requires drain { wanted ≡ wants.Drain → MayDrain machine.old }
    requires can { (start : Seen) × IsKept start (known_by machine.old)
        (sight (K.view desk.old) (L.view link.old) (C.gave clock.old)) }
    ensures goes { Goes
        (state (known_by machine.old)
        (sight (K.view desk.old) (L.view link.old) (C.gave clock.old)))
        (state (known_by machine.new)
        (sight (K.view desk.new) (L.view link.new) (C.gave clock.new))) }
    ensures asked { IsAskedFor (L.view link.old).reads (K.view desk.old).answers
        (L.view link.new).reads (K.view desk.new).answers }
    ensures on { K.goes_on desk.old desk.new }
{
    match wanted {
        Wants::Read => read(machine, desk, link, buffer),
        Wants::Write => write(machine, desk, link),
        Wants::Act => machine.act(desk, link.host(), clock),
        Wants::Flush => {
            let answer = desk.flush(clock.now());
            machine.flushed(answer);
        }
        Wants::Drain => machine.drain(desk, clock),
        Wants::End => {}
    }
}

/// Reads once. Where nothing is there, the desk is asked whether it is stopped.
fn read<K: Desk, L: Link>(machine: &mut Machine, desk: &mut K, link: &mut L, buffer: &mut [u8])
    requires room { 0 < length buffer.old }
    requires may { MayRead (known_by machine.old) }
    ensures goes { (gave : Option (List ℕ)) → Goes
        (state (known_by machine.old) (sight (K.view desk.old) (L.view link.old) gave))
        (state (known_by machine.new) (sight (K.view desk.new) (L.view link.new) gave)) }
    ensures asked { IsAskedFor (L.view link.old).reads (K.view desk.old).answers
        (L.view link.new).reads (K.view desk.new).answers }
    ensures on { K.goes_on desk.old desk.new }
{
    match link.read(buffer) {
        Got::Some(count) => machine.fed(&buffer[..count]),
        Got::NotYet => {
            machine.waited();
            ask(machine, desk);
        }
        Got::End => machine.ended(),
        Got::Failed => machine.unread(),
    }
}

/// Writes once what was printed. Where the link takes nothing, the desk is asked whether it is
/// stopped, if there is a session.
fn write<K: Desk, L: Link>(machine: &mut Machine, desk: &mut K, link: &mut L)
    requires { IsOn (known_by machine.old).stage }
    ensures goes { (gave : Option (List ℕ)) → Goes
        (state (known_by machine.old) (sight (K.view desk.old) (L.view link.old) gave))
        (state (known_by machine.new) (sight (K.view desk.new) (L.view link.new) gave)) }
    ensures reads { (L.view link.new).reads ≡ (L.view link.old).reads }
    ensures on { K.goes_on desk.old desk.new }
{
    if machine.unwritten().is_empty() {
        machine.rest();
        return;
    }
    match link.write(machine.unwritten()) {
        Took::Some(count) => machine.wrote(count),
        Took::NotYet => wait_to_write(machine, desk),
        Took::Failed => machine.unwritable(),
    }
}

/// The link took nothing: the desk is asked whether it is stopped, if there is a session.
fn wait_to_write<K: Desk>(machine: &mut Machine, desk: &mut K)
    requires { IsOn (known_by machine.old).stage }
    ensures goes { (before after : LinkView) (gave : Option (List ℕ))
        → Writes before (to_write machine.old) took.NotYet after → Goes
        (state (known_by machine.old) (sight (K.view desk.old) before gave))
        (state (known_by machine.new) (sight (K.view desk.new) after gave)) }
    ensures asked { (known_by machine.new).session ≢ 0 → IsOn (known_by machine.new).stage
        → asks_in (K.view desk.new).answers ≡ asks_in (K.view desk.old).answers + 1 }
    ensures on { K.goes_on desk.old desk.new }
{
    machine.wrote(0);
    if machine.session() == 0 {
        return;
    }
    if machine.wants() == Wants::End {
        return;
    }
    ask(machine, desk);
}

/// Asks the desk whether it is stopped.
fn ask<K: Desk>(machine: &mut Machine, desk: &mut K)
    requires on { IsOn (known_by machine.old).stage }
    requires may { MayAsk (known_by machine.old) }
    ensures goes { (link : LinkView) (gave : Option (List ℕ)) → Goes
        (state (known_by machine.old) (sight (K.view desk.old) link gave))
        (state (known_by machine.new) (sight (K.view desk.new) link gave)) }
    ensures once { asks_in (K.view desk.new).answers ≡ asks_in (K.view desk.old).answers + 1 }
    ensures on { K.goes_on desk.old desk.new }
{
    let answer = desk.stopped();
    machine.asked(answer);
}
