//! Texts that are not wanted.
ghost use Rattle.std.specs.Prelude.{◌≡◌};

use crate::drafts::Drafts;
use crate::visitor::Visitor;
use kom_exchange::{VisitEnd, Waiting};
use kom_links::{Link, Sink};
use kom_types::{MiscInfo, TextStat};
use std::alloc::{AllocError, Global};
use std::sync::Wait;

/// How many texts are asked for at once, at most.
const TOGETHER: usize = 128;

impl<W: Waiting, K: Link, L: Link, S: Sink, D: Drafts> Visitor<W, K, L, S, D> {
    /// Tells the server that all texts below the one shown last are read.
    pub(crate) fn skip<R: Wait>(&mut self, rt: &R) -> Result<(), VisitEnd>
        ensures { self.new.exchange.columns ≡ self.old.exchange.columns }
    {
        let last = self.reader.last();
        if last == 0 {
            return self.say("No text was shown yet.", "");
        }
        let mut seen = Vec::new(self.alloc);
        seen.push(last)?;
        let mut level = Vec::new(self.alloc);
        level.push(last)?;
        let mut count = 0u64;
        for _ in 0..u64::MAX {
            if level.is_empty() {
                break;
            }
            level = self.skip_level(rt, &mut seen, &mut count, level.as_slice())?;
        }
        let text = count_line(self.alloc, count, last)?;
        self.say("Skipped: ", text.as_str())
    }

    /// Skips those of some texts that are unread, but for the text shown last. The texts below
    /// them are returned.
    fn skip_level<R: Wait>(
        &mut self,
        rt: &R,
        seen: &mut Vec<u32>,
        count: &mut u64,
        texts: &[u32],
    ) -> Result<Vec<u32>, VisitEnd>
        ensures { self.new.exchange.columns ≡ self.old.exchange.columns }
    {
        let mut below = Vec::new(self.alloc);
        for together in texts.chunks(TOGETHER) {
            self.ask_stats(together)?;
            self.send(rt)?;
            let mut marks = 0u64;
            for asked in together {
                if let Some(more) = self.skip_text(rt, seen, &mut below, *asked)? {
                    *count = count.saturating_add(1);
                    marks = marks.saturating_add(more);
                }
            }
            self.send_and_await(rt, marks)?;
        }
        Ok(below)
    }

    /// Awaits what is told of a text, and adds the texts below it. If the text is to be skipped and
    /// was told: how many requests were made that it counts as read.
    fn skip_text<R: Wait>(
        &mut self,
        rt: &R,
        seen: &mut Vec<u32>,
        below: &mut Vec<u32>,
        text: u32,
    ) -> Result<Option<u64>, VisitEnd>
        ensures { self.new.exchange.columns ≡ self.old.exchange.columns }
    {
        let is_wanted = text == self.reader.last() || !self.reader.is_unread(text);
        let counted = self.exchange.skip(rt, &self.reader, is_wanted)?;
        let Some(stat) = &counted.stat else {
            return Ok(None);
        };
        add_below(seen, below, stat)?;
        if is_wanted {
            return Ok(None);
        }
        self.reader.take_text(text);
        Ok(Some(counted.count))
    }
}

fn count_line(alloc: Global, count: u64, last: u32) -> Result<String, AllocError> {
    format!(in alloc; "{count} below text {last}.")
}

/// Adds the texts that answer a text, but for those that were seen.
fn add_below(seen: &mut Vec<u32>, below: &mut Vec<u32>, stat: &TextStat) -> Result<(), VisitEnd> {
    for link in stat.misc_infos.as_slice() {
        match *link {
            MiscInfo::CommentIn(text) | MiscInfo::FootnoteIn(text) => {
                if !seen.as_slice().contains(&text) {
                    seen.push(text)?;
                    below.push(text)?;
                }
            }
            _ => {}
        }
    }
    Ok(())
}
