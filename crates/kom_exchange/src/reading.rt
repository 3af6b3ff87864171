//! Texts that are read, and those that count as read.
ghost use Rattle.std.specs.Prelude.{◌≡◌, true, Some};
ghost use Rattle.kom_reader.specs.Commands.{command_of};
ghost use Rattle.kom_exchange.specs.Steps.{MarksFor, MarksShown, SaysSkip};

use crate::exchange::Exchange;
use crate::pages::Pace;
use crate::server::Server;
use crate::told::Told;
use crate::visit_end::VisitEnd;
use crate::waiting::Waiting;
use kom_links::{Link, Sink};
use kom_reader::{Command, Reader, Word, command_of};
use kom_types::{Bytes, TextStat};
use std::alloc::Global;
use std::sync::Wait;

/// What came of asking for a text.
#[derive(Clone, Copy, Debug)]
pub enum Fetched {
    Told,
    /// The server refused it, with the error's code and status.
    Refused(u32, u32),
    Nothing,
}

/// What is told of a text by an answer, and how many requests were made that it counts as read.
#[derive(Drop)]
pub struct Counted {
    pub stat: Option<TextStat>,
    pub count: u64,
}

impl<W: Waiting, K: Link, L: Link, S: Sink> Exchange<W, K, L, S> {
    /// Asks the server for a text.
    pub fn fetch<R: Wait>(&mut self, rt: &R, text: u32) -> Result<Fetched, VisitEnd>
        ensures { self.new.columns ≡ self.old.columns }
    {
        let alloc = self.contacts.alloc;
        self.is_shown = false;
        self.told = None;
        let found = self.contacts.server.fetch_text(rt, alloc, text)?;
        let (told, fetched) = found;
        self.told = told;
        Ok(fetched)
    }

    /// The text that was fetched.
    pub fn told(&self) -> Option<&Told> {
        self.told.as_ref()
    }

    /// Shows the page of the text that was fetched: its subject, and its lines.
    pub fn show_told<R: Wait>(&mut self, rt: &R, pace: Pace) -> Result<Pace, VisitEnd>
        ensures { self.new.columns ≡ self.old.columns }
    {
        let pace = self.contacts.show_told(rt, pace, &self.told)?;
        self.is_shown = true;
        Ok(pace)
    }

    /// Asks that the text which was fetched counts as read in each conference of the person in
    /// which it stands, if all of its page was shown: how many requests that makes.
    pub fn mark_shown(&mut self, reader: &Reader) -> Result<u64, VisitEnd>
        ensures { self.new.columns ≡ self.old.columns }
    {
        let alloc = self.contacts.alloc;
        mark_shown(
            &mut self.contacts.server,
            alloc,
            reader,
            &self.told,
            self.is_shown,
        )
    }

    /// Awaits what is told of a text. If it is not wanted, and the line that was typed last says
    /// `skip`, asks that it counts as read.
    pub fn skip<R: Wait>(
        &mut self,
        rt: &R,
        reader: &Reader,
        is_wanted: bool,
    ) -> Result<Counted, VisitEnd>
        ensures { self.new.columns ≡ self.old.columns }
    {
        let alloc = self.contacts.alloc;
        let stat = self.contacts.server.text_stat(rt, alloc)?;
        match stat {
            Some(stat) => {
                let count = mark_skipped(
                    &mut self.contacts.server,
                    alloc,
                    reader,
                    &stat,
                    &self.line,
                    is_wanted,
                )?;
                Ok(stat_with(stat, count))
            }
            None => Ok(no_stat()),
        }
    }

    /// Awaits what is told of a text. If the person that logged in wrote it, asks that it counts as
    /// read.
    pub fn mark_own<R: Wait>(&mut self, rt: &R, reader: &Reader) -> Result<Counted, VisitEnd>
        ensures { self.new.columns ≡ self.old.columns }
    {
        let alloc = self.contacts.alloc;
        let stat = self.contacts.server.text_stat(rt, alloc)?;
        match stat {
            Some(stat) => {
                let count = mark_own(&mut self.contacts.server, alloc, reader, &stat, self.person)?;
                Ok(stat_with(stat, count))
            }
            None => Ok(no_stat()),
        }
    }
}

/// Asks that a text counts as read, if it was told and its page was shown.
#[tactic(auto, using(crate::proofs::Marking::marks_shown, crate::proofs::Marking::marks_unshown))]
fn mark_shown<L: Link>(
    server: &mut Server<L>,
    alloc: Global,
    reader: &Reader,
    told: &Option<Told>,
    is_shown: bool,
) -> Result<u64, VisitEnd>
    ensures { MarksShown told.now is_shown server.old server.new }
{
    match told {
        Some(told) if is_shown => server.mark_text(alloc, reader, &told.stat),
        _ => Ok(0),
    }
}

/// Asks that a text counts as read, if it is not wanted and a line says `skip`.
#[tactic(auto, using(crate::proofs::Marking::marks_skipped, crate::proofs::Marking::marks_not))]
fn mark_skipped<L: Link>(
    server: &mut Server<L>,
    alloc: Global,
    reader: &Reader,
    stat: &TextStat,
    line: &Option<Bytes>,
    is_wanted: bool,
) -> Result<u64, VisitEnd>
    ensures { MarksFor (SaysSkip line.now) stat.now server.old server.new }
{
    match line {
        Some(line) if !is_wanted && is_skip(line.as_slice()) => {
            server.mark_text(alloc, reader, stat)
        }
        _ => Ok(0),
    }
}

/// Asks that a text counts as read, if this person wrote it.
#[tactic(auto, using(crate::proofs::Marking::marks_own, crate::proofs::Marking::marks_not))]
fn mark_own<L: Link>(
    server: &mut Server<L>,
    alloc: Global,
    reader: &Reader,
    stat: &TextStat,
    person: Option<u32>,
) -> Result<u64, VisitEnd>
    ensures { MarksFor (person ≡ Some stat.now.author) stat.now server.old server.new }
{
    match person {
        Some(person) if stat.author == person => server.mark_text(alloc, reader, stat),
        _ => Ok(0),
    }
}

fn stat_with(stat: TextStat, count: u64) -> Counted {
    Counted {
        stat: Some(stat),
        count,
    }
}

fn no_stat() -> Counted {
    Counted {
        stat: None,
        count: 0,
    }
}

/// Whether a line says that texts are skipped.
fn is_skip(line: &[u8]) -> bool
    ensures { result ≡ true → command_of line.now ≡ Command.Word Word.Skip }
{
    matches!(command_of(line), Command::Word(Word::Skip))
}
