ghost use Rattle.std.specs.Prelude.{◌≡◌, ◌++◌, OnOk};
ghost use Rattle.kom_types.specs.spellings.Texts.{block_words, local_text, mapping};
ghost use Rattle.kom_types.specs.spellings.Texts.{mark, misc_info, text_stat};
ghost use Rattle.kom_types.specs.spellings.Words.{number, time};
ghost use Rattle.kom_replies.specs.Sinks.{with_words, Keeps};

use crate::arrays::put_array;
use crate::sinks::{Sink, put_numbers, put_time};
use crate::spelled::Spelled;
use kom_types::{Block, LocalText, Mapping, Mark, MiscInfo, Moment, TextStat};

impl Spelled for TextStat {
    ghost spelling = { text_stat };

    #[tactic(auto, using(crate::proofs::WrittenWords::with_words_append))]
    fn put<S: Sink>(&self, out: &mut S) -> Result<(), S::Refusal> {
        put_time(self.created, out)?;
        let numbers = [self.author, self.lines, self.chars, self.marks];
        put_numbers(&numbers, out)?;
        put_array(self.misc_infos.as_slice(), out)?;
        put_array(self.aux_items.as_slice(), out)
    }
}

impl Spelled for Mark {
    ghost spelling = { mark };

    fn put<S: Sink>(&self, out: &mut S) -> Result<(), S::Refusal> {
        put_numbers(&[self.text, u32::from(self.kind)], out)
    }
}

impl Spelled for LocalText {
    ghost spelling = { local_text };

    fn put<S: Sink>(&self, out: &mut S) -> Result<(), S::Refusal> {
        put_numbers(&[self.local, self.text], out)
    }
}

impl Spelled for Mapping {
    ghost spelling = { mapping };

    fn put<S: Sink>(&self, out: &mut S) -> Result<(), S::Refusal> {
        put_numbers(
            &[self.begin, self.end, u32::from(self.later_texts_exist)],
            out,
        )?;
        self.block.put(out)
    }
}

impl Spelled for Block {
    ghost spelling = { block_words };

    fn put<S: Sink>(&self, out: &mut S) -> Result<(), S::Refusal> {
        match self {
            Block::Sparse(pairs) => {
                out.number(0)?;
                put_array(pairs.as_slice(), out)
            }
            Block::Dense { first, texts } => {
                put_numbers(&[1, *first], out)?;
                put_array(texts.as_slice(), out)
            }
        }
    }
}

impl Spelled for MiscInfo {
    ghost spelling = { misc_info };

    fn put<S: Sink>(&self, out: &mut S) -> Result<(), S::Refusal> {
        match self {
            MiscInfo::Recipient(conference) => put_numbers(&[0, *conference], out),
            MiscInfo::CopyRecipient(conference) => put_numbers(&[1, *conference], out),
            MiscInfo::CommentTo(text) => put_numbers(&[2, *text], out),
            MiscInfo::CommentIn(text) => put_numbers(&[3, *text], out),
            MiscInfo::FootnoteTo(text) => put_numbers(&[4, *text], out),
            MiscInfo::FootnoteIn(text) => put_numbers(&[5, *text], out),
            MiscInfo::Local(number) => put_numbers(&[6, *number], out),
            MiscInfo::Received(moment) => put_tagged_time(7, *moment, out),
            MiscInfo::SentBy(person) => put_numbers(&[8, *person], out),
            MiscInfo::SentAt(moment) => put_tagged_time(9, *moment, out),
            MiscInfo::BlindRecipient(conference) => put_numbers(&[15, *conference], out),
        }
    }
}

/// Puts a tag and a time.
fn put_tagged_time<S: Sink>(tag: u32, moment: Moment, out: &mut S) -> Result<(), S::Refusal>
    ensures ok { OnOk result
        (out.new ≡ with_words S.with_word (number tag ++ time moment) out.old) }
    ensures keeps { Keeps S.begins out.old out.new }
{
    out.number(tag)?;
    put_time(moment, out)
}
