ghost use Rattle.std.specs.Prelude.{◌≡◌, true, OnOk, OnErr};
ghost use Rattle.kom_replies.specs.Items.{with_item, words_of, Begins};
ghost use Rattle.kom_replies.specs.Sinks.{with_words, Keeps};

use crate::messages::put_message;
use crate::replies::put_reply;
use crate::sinks::Sink;
use kom_framing::Writer;
use kom_types::{Item, Memory};

/// The greeting's answer, without the line's end.
const HELLO: &[u8] = b"LysKOM";

/// The line of a stream at fault, without its end.
const FAULT: &[u8] = b"%%Protocol error.";

/// Writes an item at the end. A refusal changes nothing.
pub fn print_item(item: &Item, out: &mut Writer) -> Result<(), Memory>
    ensures ok { OnOk result (out.new ≡ with_item item.now out.old) }
    ensures err { OnErr result (out.new ≡ out.old) }
{
    let start = out.mark_place();
    out.begin_line();
    if write_item(item, out).is_err() {
        out.cut_back(start);
        return Err(Memory);
    }
    Ok(())
}

/// The same at a line's beginning, where a refusal may leave a part of the item.
fn write_item(item: &Item, out: &mut Writer) -> Result<(), Memory>
    requires { out.old.joined ≡ true }
    ensures ok { OnOk result (out.new ≡ with_item item.now out.old) }
    ensures keeps { Keeps Begins out.old out.new }
{
    put_words(item, out)?;
    out.end_line()
}

/// Puts the words of an item, without the line's end.
pub(crate) fn put_words<S: Sink>(item: &Item, out: &mut S) -> Result<(), S::Refusal>
    ensures ok { OnOk result (out.new ≡ with_words S.with_word (words_of item.now) out.old) }
    ensures keeps { Keeps S.begins out.old out.new }
{
    match item {
        Item::Hello => out.word(HELLO),
        Item::Reply { reference, body } => put_reply(*reference, body, out),
        Item::Message(message) => put_message(message, out),
        Item::Fault => out.word(FAULT),
    }
}
