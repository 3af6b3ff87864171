//! What a prompt says.
ghost use Rattle.std.specs.Prelude.{◌≡◌};

use crate::drafts::Drafts;
use crate::visitor::Visitor;
use kom_exchange::{VisitEnd, Waiting};
use kom_letters::{Charset, show_name};
use kom_links::{Link, Sink};
use kom_reader::Step;
use kom_screen::Front;
use std::alloc::{AllocError, Global};
use std::sync::Wait;

/// The columns of a prompt beside the name in it, at most.
const BESIDE_NAME: u16 = 40;

impl<W: Waiting, K: Link, L: Link, S: Sink, D: Drafts> Visitor<W, K, L, S, D> {
    /// Tells what has come, and says what Enter does. A text that is typed has no prompt.
    pub(crate) fn prompt<R: Wait>(&mut self, rt: &R) -> Result<(), VisitEnd>
        ensures { self.new.exchange.columns ≡ self.old.exchange.columns }
    {
        self.tell_news(rt)?;
        if let Some(draft) = &self.typing {
            if draft.subject.is_some() {
                return Ok(());
            }
            return self.open(Front::Subject, b"");
        }
        match self.reader.next_step() {
            Step::Branch(_) => self.open(Front::Bracket, b"read next comment) "),
            Step::Text(_) => self.open(Front::Bracket, b"read next text) "),
            Step::Go(conference) => self.prompt_to_go(rt, conference),
            Step::Wait => self.open(Front::Bracket, b"wait for news) "),
        }
    }

    /// Shows a prompt.
    pub(crate) fn open(&mut self, front: Front, bytes: &[u8]) -> Result<(), VisitEnd>
        ensures { self.new.exchange.columns ≡ self.old.exchange.columns }
    {
        self.exchange.prompt(front, bytes)
    }

    fn prompt_to_go<R: Wait>(&mut self, rt: &R, conference: u32) -> Result<(), VisitEnd>
        ensures { self.new.exchange.columns ≡ self.old.exchange.columns }
    {
        self.learn_name(rt, conference)?;
        let room = self.exchange.columns().saturating_sub(BESIDE_NAME);
        let count = self.reader.count_in(conference);
        let text = go_line(self.alloc, self.names.name(conference), room, count)?;
        self.open(Front::Bracket, text.as_bytes())
    }
}

/// A prompt to go to a conference, with as many columns of its name.
fn go_line(alloc: Global, name: &str, room: u16, count: usize) -> Result<String, AllocError> {
    let name = show_name(alloc, name.as_bytes(), Charset::Utf8, room)?;
    format!(in alloc; "go to {name}, {count} unread) ")
}
