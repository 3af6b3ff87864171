// The lines of the program's reports.
ghost use Rattle.std.specs.Prelude.{◌≡◌, ◌++◌, IfOk, OnOk};
ghost use Rattle.kom_links.specs.Doors.{IsNewSink};
ghost use Rattle.kom_commands.specs.Reports.{line, check_lines, sweep_lines, HasText};

use itoa::Buffer;
use kom_links::Sink;
use kom_types::{Bytes, Memory};
use std::alloc::Global;

/// What is printed when a store was made.
pub const MADE: &[u8] = b"store made\n";

/// Puts a text to a sink to which nothing was put yet.
pub fn put_text<S: Sink>(sink: &mut S, text: &[u8])
    requires fresh { IsNewSink (S.view sink.old) }
    ensures { HasText text.now (S.view sink.new) }
{
    let _ = sink.write(text);
}

/// The report of a check: how many batches a store had as it was opened, and how many conferences,
/// persons and texts it stands for.
pub fn check_report(
    alloc: Global,
    batches: u64,
    conferences: u64,
    persons: u64,
    texts: u64,
) -> Result<Bytes, Memory>
    ensures { IfOk result (λ bytes. bytes ≡ check_lines batches conferences persons texts) }
{
    let mut bytes = Vec::new(alloc);
    push_line(&mut bytes, b"batches", batches)?;
    push_line(&mut bytes, b"conferences", conferences)?;
    push_line(&mut bytes, b"persons", persons)?;
    push_line(&mut bytes, b"texts", texts)?;
    Ok(Bytes::of(bytes))
}

/// The report of a sweep: how many texts it deleted, and how many others it was told of.
pub fn sweep_report(alloc: Global, swept: u64, kept: u64) -> Result<Bytes, Memory>
    ensures { IfOk result (λ bytes. bytes ≡ sweep_lines swept kept) }
{
    let mut bytes = Vec::new(alloc);
    push_line(&mut bytes, b"swept", swept)?;
    push_line(&mut bytes, b"kept", kept)?;
    Ok(Bytes::of(bytes))
}

/// Adds a word and a number, as a line.
pub fn push_line(bytes: &mut Vec<u8>, word: &[u8], number: u64) -> Result<(), Memory>
    ensures { OnOk result (bytes.new.items ≡ bytes.old.items ++ line word.now number) }
{
    bytes.extend_from_slice(word)?;
    bytes.push(b' ')?;
    bytes.extend_from_slice(Buffer::new().format(number).as_bytes())?;
    bytes.push(b'\n')?;
    Ok(())
}
