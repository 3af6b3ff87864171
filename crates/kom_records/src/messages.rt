ghost use Rattle.std.specs.Prelude.{◌≡◌, true};
ghost use Rattle.kom_records.specs.Telling.{ReadsAs};
ghost use Rattle.kom_records.specs.Replies.{ReadsOnly};
ghost use Rattle.kom_records.specs.Arguments.{new_name, message_sent, aux_changed};
ghost use Rattle.kom_records.specs.ByNumber.{one_argument, two_arguments, three_arguments};
ghost use Rattle.kom_records.specs.ByNumber.{arguments_of};
ghost use Rattle.kom_records.specs.Messages.{IsMessageLine, message_line};

use crate::fault::ReadFault;
use crate::tokens::Tokens;
use kom_framing::Line;
use kom_types::{ChangedItems, Message, NewName, SentMessage};
use std::alloc::Global;

/// The message that a line spells, which is allocated there: message 5, 8, 9, 12 to 18 or 22.
pub fn read_message(alloc: Global, line: &Line) -> Result<Message, ReadFault>
    ensures { ReadsOnly (IsMessageLine line.now.tokens) result }
{
    let mut tokens = Tokens::of(alloc, line);
    message_line(&mut tokens)
}

/// Takes a message, after which no token is left.
fn message_line(tokens: &mut Tokens<'_>) -> Result<Message, ReadFault>
    ensures { ReadsAs true (message_line tokens.old) result tokens.new }
{
    let begun = tokens.head()?;
    if begun.sign != b':' {
        return Err(ReadFault::Departs);
    }
    let which = tokens.number()?;
    let message = arguments_of(begun.number, which, tokens)?;
    tokens.end()?;
    Ok(message)
}

/// Takes the arguments of a message of this number, which are so many.
fn arguments_of(count: u32, which: u32, tokens: &mut Tokens<'_>) -> Result<Message, ReadFault>
    ensures { ReadsAs true (arguments_of count which tokens.old) result tokens.new }
{
    match count {
        1 => one_argument(which, tokens),
        2 => two_arguments(which, tokens),
        3 => three_arguments(which, tokens),
        _ => Err(ReadFault::Departs),
    }
}

/// Takes the argument of message 8.
fn one_argument(which: u32, tokens: &mut Tokens<'_>) -> Result<Message, ReadFault>
    ensures { ReadsAs true (one_argument which tokens.old) result tokens.new }
{
    match which {
        8 => {
            let conference = tokens.number()?;
            Ok(Message::LeaveConference { conference })
        }
        _ => Err(ReadFault::Departs),
    }
}

/// Takes the arguments of message 9, 13, 14, 15 or 18.
fn two_arguments(which: u32, tokens: &mut Tokens<'_>) -> Result<Message, ReadFault>
    ensures { ReadsAs true (two_arguments which tokens.old) result tokens.new }
{
    match which {
        9 => {
            let person = tokens.number()?;
            let session = tokens.number()?;
            Ok(Message::Login { person, session })
        }
        13 => {
            let person = tokens.number()?;
            let session = tokens.number()?;
            Ok(Message::Logout { person, session })
        }
        14 => {
            let text = tokens.number()?;
            let stat = tokens.text_stat()?;
            let stat = tokens.boxed(stat)?;
            Ok(Message::DeletedText { text, stat })
        }
        15 => {
            let text = tokens.number()?;
            let stat = tokens.text_stat()?;
            let stat = tokens.boxed(stat)?;
            Ok(Message::NewText { text, stat })
        }
        18 => {
            let person = tokens.number()?;
            let conference = tokens.number()?;
            Ok(Message::NewMembership { person, conference })
        }
        _ => Err(ReadFault::Departs),
    }
}

/// Takes the arguments of message 5, 12, 16, 17 or 22.
fn three_arguments(which: u32, tokens: &mut Tokens<'_>) -> Result<Message, ReadFault>
    ensures { ReadsAs true (three_arguments which tokens.old) result tokens.new }
{
    match which {
        5 => new_name(tokens),
        12 => sent(tokens),
        16 => {
            let text = tokens.number()?;
            let conference = tokens.number()?;
            let kind = tokens.number()?;
            Ok(Message::NewRecipient {
                text,
                conference,
                kind,
            })
        }
        17 => {
            let text = tokens.number()?;
            let conference = tokens.number()?;
            let kind = tokens.number()?;
            Ok(Message::SubRecipient {
                text,
                conference,
                kind,
            })
        }
        22 => aux_changed(tokens),
        _ => Err(ReadFault::Departs),
    }
}

/// Takes the arguments of message 5.
fn new_name(tokens: &mut Tokens<'_>) -> Result<Message, ReadFault>
    ensures { ReadsAs true (new_name tokens.old) result tokens.new }
{
    let conference = tokens.number()?;
    let old_name = tokens.string()?;
    let new_name = tokens.string()?;
    let names = tokens.boxed(NewName {
        conference,
        old_name,
        new_name,
    })?;
    Ok(Message::NewName(names))
}

/// Takes the arguments of message 12.
fn sent(tokens: &mut Tokens<'_>) -> Result<Message, ReadFault>
    ensures { ReadsAs true (message_sent tokens.old) result tokens.new }
{
    let recipient = tokens.number()?;
    let sender = tokens.number()?;
    let text = tokens.string()?;
    let sent = tokens.boxed(SentMessage {
        recipient,
        sender,
        text,
    })?;
    Ok(Message::SendMessage(sent))
}

/// Takes the arguments of message 22.
fn aux_changed(tokens: &mut Tokens<'_>) -> Result<Message, ReadFault>
    ensures { ReadsAs true (aux_changed tokens.old) result tokens.new }
{
    let text = tokens.number()?;
    let deleted = tokens.array()?;
    let added = tokens.array()?;
    let changed = tokens.boxed(ChangedItems {
        text,
        deleted,
        added,
    })?;
    Ok(Message::TextAuxChanged(changed))
}
