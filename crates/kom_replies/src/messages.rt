ghost use Rattle.std.specs.Prelude.{◌≡◌, ◌++◌, OnOk, flat_map};
ghost use Rattle.kom_types.specs.spellings.Messages.{words_of_message, message_words};
ghost use Rattle.kom_types.specs.spellings.Words.{number, text};
ghost use Rattle.kom_types.specs.spellings.AuxItems.{aux_items};
ghost use Rattle.kom_types.specs.spellings.Texts.{text_stat};
ghost use Rattle.kom_replies.specs.Sinks.{with_words, Keeps};

use crate::arrays::put_array;
use crate::sinks::{Sink, put_numbers};
use crate::spelled::Spelled;
use kom_types::async_numbers::{
    DELETED_TEXT, LEAVE_CONF, LOGIN, LOGOUT, NEW_MEMBERSHIP, NEW_MOTD, NEW_NAME, NEW_PRESENTATION,
    NEW_RECIPIENT, NEW_TEXT, NEW_USER_AREA, SEND_MESSAGE, SUB_RECIPIENT, SYNC_DB, TEXT_AUX_CHANGED,
};
use kom_types::{ChangedItems, Message, NewName, SentMessage, TextStat};

/// Puts a message.
pub(crate) fn put_message<S: Sink>(message: &Message, out: &mut S) -> Result<(), S::Refusal>
    ensures ok { OnOk result
        (out.new ≡ with_words S.with_word (words_of_message message.now) out.old) }
    ensures keeps { Keeps S.begins out.old out.new }
{
    match message {
        Message::NewName(of) => put_new_name(of.get(), out),
        Message::SyncDatabase => put_plain(0, SYNC_DB, &[], out),
        Message::LeaveConference { conference } => put_plain(1, LEAVE_CONF, &[*conference], out),
        Message::Login { person, session } => put_plain(2, LOGIN, &[*person, *session], out),
        Message::SendMessage(of) => put_sent(of.get(), out),
        Message::Logout { person, session } => put_plain(2, LOGOUT, &[*person, *session], out),
        Message::DeletedText { text, stat } => put_stat(DELETED_TEXT, *text, stat.get(), out),
        Message::NewText { text, stat } => put_stat(NEW_TEXT, *text, stat.get(), out),
        Message::NewRecipient {
            text,
            conference,
            kind,
        } => put_plain(3, NEW_RECIPIENT, &[*text, *conference, *kind], out),
        Message::SubRecipient {
            text,
            conference,
            kind,
        } => put_plain(3, SUB_RECIPIENT, &[*text, *conference, *kind], out),
        Message::NewMembership { person, conference } => {
            put_plain(2, NEW_MEMBERSHIP, &[*person, *conference], out)
        }
        Message::NewUserArea {
            person,
            old_text,
            new_text,
        } => put_plain(3, NEW_USER_AREA, &[*person, *old_text, *new_text], out),
        Message::NewPresentation {
            conference,
            old_text,
            new_text,
        } => put_plain(
            3,
            NEW_PRESENTATION,
            &[*conference, *old_text, *new_text],
            out,
        ),
        Message::NewMotd {
            conference,
            old_text,
            new_text,
        } => put_plain(3, NEW_MOTD, &[*conference, *old_text, *new_text], out),
        Message::TextAuxChanged(of) => put_changed_items(of.get(), out),
    }
}

/// Puts how many arguments a message has, its number and its arguments, which are numbers.
fn put_plain<S: Sink>(
    count: u32,
    which: u32,
    arguments: &[u32],
    out: &mut S,
) -> Result<(), S::Refusal>
    ensures ok { OnOk result (out.new ≡ with_words S.with_word
        (message_words count which (flat_map number arguments.now)) out.old) }
    ensures keeps { Keeps S.begins out.old out.new }
{
    out.signed(b':', count)?;
    out.number(which)?;
    put_numbers(arguments, out)
}

/// Puts the message of a conference's new name.
fn put_new_name<S: Sink>(of: &NewName, out: &mut S) -> Result<(), S::Refusal>
    ensures ok { OnOk result (out.new ≡ with_words S.with_word (message_words 3 NEW_NAME
        (number of.now.conference ++ text of.now.old_name ++ text of.now.new_name)) out.old) }
    ensures keeps { Keeps S.begins out.old out.new }
{
    put_plain(3, NEW_NAME, &[of.conference], out)?;
    out.text(of.old_name.as_slice())?;
    out.text(of.new_name.as_slice())
}

/// Puts the message of what somebody says.
fn put_sent<S: Sink>(of: &SentMessage, out: &mut S) -> Result<(), S::Refusal>
    ensures ok { OnOk result (out.new ≡ with_words S.with_word (message_words 3 SEND_MESSAGE
        (number of.now.recipient ++ number of.now.sender ++ text of.now.text)) out.old) }
    ensures keeps { Keeps S.begins out.old out.new }
{
    put_plain(3, SEND_MESSAGE, &[of.recipient, of.sender], out)?;
    out.text(of.text.as_slice())
}

/// Puts a message of the text `of` and what is told of it.
fn put_stat<S: Sink>(which: u32, of: u32, stat: &TextStat, out: &mut S) -> Result<(), S::Refusal>
    ensures ok { OnOk result (out.new ≡ with_words S.with_word
        (message_words 2 which (number of ++ text_stat stat.now)) out.old) }
    ensures keeps { Keeps S.begins out.old out.new }
{
    put_plain(2, which, &[of], out)?;
    stat.put(out)
}

/// Puts the message of aux-items that went and came.
#[tactic(auto, using(crate::proofs::WrittenWords::with_words_append))]
fn put_changed_items<S: Sink>(of: &ChangedItems, out: &mut S) -> Result<(), S::Refusal>
    ensures ok { OnOk result (out.new ≡ with_words S.with_word (message_words 3 TEXT_AUX_CHANGED
        (number of.now.text ++ aux_items of.now.deleted ++ aux_items of.now.added)) out.old) }
    ensures keeps { Keeps S.begins out.old out.new }
{
    put_plain(3, TEXT_AUX_CHANGED, &[of.text], out)?;
    put_array(of.deleted.as_slice(), out)?;
    put_array(of.added.as_slice(), out)
}
