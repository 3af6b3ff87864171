ghost use Rattle.std.specs.Prelude.{◌≡◌, ◌<◌, Some, IfSome, IfNone, IsTrue, length};
ghost use Rattle.std.specs.Io.KnownBytes.{Consumes, Appends, Keeps, IsAtEnd};
ghost use Rattle.kom_links.specs.Outside.{read_bytes, written_bytes, is_end};
ghost use Rattle.kom_links.specs.Streams.{GivesWithin, TakesWithin};

use crate::link::{Got, Took};
use std::io::{ErrorKind, Read, Write};
use std::rt::Clock;
use std::thread;
use std::time::Duration;

// How often a call tries again when nothing is ready, and how long it sleeps before each time.
const TRIES: u32 = 5;

const PAUSE_MILLIS: u64 = 4;

/// Reads what is ready. If nothing is, it waits until there is, for some 20 milliseconds at most.
pub(crate) fn read_soon<R: Read, C: Clock>(reader: &mut R, clock: &C, into: &mut [u8]) -> Got
    requires { 0 < length into.old }
    ensures within { GivesWithin (length into.new) result }
    ensures bytes { Consumes (R.remaining reader.old) (R.remaining reader.new)
        (read_bytes result into.new) }
    ensures at_end { IsTrue (is_end result) → IsAtEnd (R.remaining reader.new) }
{
    for _ in 0..TRIES {
        if let Some(got) = try_read(reader, into) {
            return got;
        }
        thread::sleep(clock, Duration::from_millis(PAUSE_MILLIS));
    }
    match try_read(reader, into) {
        Some(got) => got,
        None => Got::NotYet,
    }
}

/// Writes what can be written of these bytes. If nothing can, it waits likewise.
pub(crate) fn write_soon<W: Write, C: Clock>(writer: &mut W, clock: &C, from: &[u8]) -> Took
    requires { 0 < length from.now }
    ensures within { TakesWithin (length from.now) result }
    ensures bytes { Appends (W.contents writer.old) (W.contents writer.new)
        (written_bytes result from.now) }
{
    for _ in 0..TRIES {
        if let Some(took) = try_write(writer, from) {
            return took;
        }
        thread::sleep(clock, Duration::from_millis(PAUSE_MILLIS));
    }
    match try_write(writer, from) {
        Some(took) => took,
        None => Took::NotYet,
    }
}

/// Reads once; `None` if nothing was ready. A read that a signal broke off is to be made again.
pub(crate) fn try_read<R: Read>(reader: &mut R, into: &mut [u8]) -> Option<Got>
    requires { 0 < length into.old }
    ensures within { IfSome result (GivesWithin (length into.new)) }
    ensures bytes { IfSome result (λ got.
        Consumes (R.remaining reader.old) (R.remaining reader.new) (read_bytes got into.new)) }
    ensures at_end { IfSome result (λ got. IsTrue (is_end got) → IsAtEnd (R.remaining reader.new)) }
    ensures none { IfNone result (Keeps (R.remaining reader.old) (R.remaining reader.new)) }
{
    match reader.read(into) {
        Ok(0) => Some(Got::End),
        Ok(count) => Some(Got::Some(count)),
        Err(error) => match error.kind() {
            ErrorKind::WouldBlock => None,
            ErrorKind::Interrupted => Some(Got::NotYet),
            _ => Some(Got::Failed),
        },
    }
}

/// Writes once; `None` if nothing could be taken. A write that a signal broke off is to be made
/// again.
pub(crate) fn try_write<W: Write>(writer: &mut W, from: &[u8]) -> Option<Took>
    requires { 0 < length from.now }
    ensures within { IfSome result (TakesWithin (length from.now)) }
    ensures bytes { IfSome result (λ took.
        Appends (W.contents writer.old) (W.contents writer.new) (written_bytes took from.now)) }
    ensures none { IfNone result (Keeps (W.contents writer.old) (W.contents writer.new)) }
{
    match writer.write(from) {
        Ok(0) => Some(Took::Failed),
        Ok(count) => Some(Took::Some(count)),
        Err(error) => match error.kind() {
            ErrorKind::WouldBlock => None,
            ErrorKind::Interrupted => Some(Took::NotYet),
            _ => Some(Took::Failed),
        },
    }
}
