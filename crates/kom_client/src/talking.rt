ghost use Rattle.std.specs.Prelude.{◌≡◌, ◌∷◌, ◌++◌, [], List, ℕ, OnOk};
ghost use Rattle.kom_client.specs.Client.{IsUntouched, IsTalk, HasCause, Shows};
ghost use Rattle.kom_client.specs.Talking.{Types, Finishes, Holds};
ghost use Rattle.kom_client.specs.Talkers.{typing_of, world};

use crate::buffer::Buffer;
use crate::keys::LONGEST_KEY_LINE;
use crate::talk_end::TalkEnd;
use crate::talker::Talker;
use kom_links::{Got, Link, Sink};
use kom_types::Memory;
use std::alloc::Global;
use std::sync::Wait;

/// Talks to a server as a user: greets it, sends what the key lines ask for, and shows what is
/// answered, until the keys end.
pub fn talk<R: Wait, K: Link, L: Link, S: Sink>(
    rt: &R,
    alloc: Global,
    user: &[u8],
    keys: &mut K,
    link: &mut L,
    out: &mut S,
) -> TalkEnd
    requires keys_untouched { IsUntouched (K.view keys.old) }
    requires link_untouched { IsUntouched (L.view link.old) }
    requires nothing_shown { Shows (S.view out.old) [] }
    ensures talk { IsTalk user.now result (K.view keys.new) (L.view link.new) (S.view out.new) }
    ensures cause { HasCause result (K.view keys.old) (K.view keys.new) (L.view link.old)
        (L.view link.new) (S.view out.old) (S.view out.new) }
{
    let Ok(mut talker) = Talker::new(alloc) else {
        return TalkEnd::Memory;
    };
    let Ok(mut buffer) = Buffer::new(alloc) else {
        return TalkEnd::Memory;
    };
    let mut line = Vec::new(alloc);
    match talker.greet(rt, link, user) {
        Ok(()) => take_keys(rt, &mut talker, keys, link, out, &mut line, &mut buffer),
        Err(end) => end,
    }
}

/// Takes what is typed until the keys end.
fn take_keys<R: Wait, K: Link, L: Link, S: Sink>(
    rt: &R,
    talker: &mut Talker,
    keys: &mut K,
    link: &mut L,
    out: &mut S,
    line: &mut Vec<u8>,
    buffer: &mut Buffer,
) -> TalkEnd
    requires untouched { IsUntouched (K.view keys.old) }
    requires nothing { line.old.items ≡ [] }
    ensures { Finishes result (K.view keys.old)
        (typing_of talker.old line.old.items (L.view link.old) (S.view out.old)) (K.view keys.new)
        (world talker.new (L.view link.new) (S.view out.new)) }
{
    for _ in rt.forever() {
        match buffer.read(keys) {
            Got::Some(count) => match take_piece(rt, talker, link, out, line, buffer.first(count)) {
                Ok(()) => {}
                Err(end) => return end,
            },
            Got::NotYet => {}
            Got::End => return TalkEnd::End,
            Got::Failed => return TalkEnd::KeysFault,
        }
    }
    unreachable!()
}

/// Takes a piece of what is typed, after the line that has begun.
fn take_piece<R: Wait, L: Link, S: Sink>(
    rt: &R,
    talker: &mut Talker,
    link: &mut L,
    out: &mut S,
    line: &mut Vec<u8>,
    piece: &[u8],
) -> Result<(), TalkEnd>
    ensures { Types result piece.now
        (typing_of talker.old line.old.items (L.view link.old) (S.view out.old))
        (typing_of talker.new line.new.items (L.view link.new) (S.view out.new)) }
{
    for byte in piece {
        take_key(rt, talker, link, out, line, *byte)?;
    }
    Ok(())
}

/// Takes a byte that is typed.
fn take_key<R: Wait, L: Link, S: Sink>(
    rt: &R,
    talker: &mut Talker,
    link: &mut L,
    out: &mut S,
    line: &mut Vec<u8>,
    byte: u8,
) -> Result<(), TalkEnd>
    ensures { Types result (byte ∷ [])
        (typing_of talker.old line.old.items (L.view link.old) (S.view out.old))
        (typing_of talker.new line.new.items (L.view link.new) (S.view out.new)) }
{
    if byte == b'\n' {
        talker.take_line(rt, link, out, line.as_slice())?;
        line.clear();
        Ok(())
    } else {
        hold(line, byte)?;
        Ok(())
    }
}

/// Keeps a byte of a key line, unless the line is too long without it.
fn hold(line: &mut Vec<u8>, byte: u8) -> Result<(), Memory>
    ensures { OnOk result ((text : List ℕ) → Holds line.old.items text
        → Holds line.new.items (text ++ byte ∷ [])) }
{
    if LONGEST_KEY_LINE <= line.len() {
        return Ok(());
    }
    line.push(byte)?;
    Ok(())
}
