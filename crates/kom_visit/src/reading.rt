//! A text on the screen.
ghost use Rattle.std.specs.Prelude.{◌≡◌};

use crate::drafts::Drafts;
use crate::letters::{Zone, text_of, time_of};
use crate::replies::{Refusal, author_in};
use crate::visitor::Visitor;
use kom_exchange::{Fetched, Pace, VisitEnd, Waiting, first_line};
use kom_letters::Charset;
use kom_links::{Link, Sink};
use kom_records::ResultKind;
use kom_screen::Front;
use kom_types::{MiscInfo, Moment};
use std::alloc::{AllocError, Global};
use std::sync::Wait;

/// How many texts that a text is linked to are told with their authors.
const LINKS: usize = 60;

/// What stands above and below a text.
#[derive(Drop)]
struct Head {
    created: Moment,
    author: u32,
    lines: u32,
    links: Vec<MiscInfo>,
}

/// Another text, and who wrote it.
#[derive(Clone, Copy, Debug)]
struct Author {
    text: u32,
    person: u32,
}

/// A line about a link of a text.
#[derive(Clone, Copy)]
enum LinkLine {
    /// A conference in which it stands.
    Conference(Front, u32),
    /// Another text.
    Text(Front, u32),
}

const RULE: &str = "--------------------------------------------------";

impl<W: Waiting, K: Link, L: Link, S: Sink, D: Drafts> Visitor<W, K, L, S, D> {
    /// Shows a text, and tells the server that it is read where it is shown as what comes next.
    pub(crate) fn show_text<R: Wait>(
        &mut self,
        rt: &R,
        text: u32,
        is_next: bool,
    ) -> Result<(), VisitEnd>
        ensures { self.new.exchange.columns ≡ self.old.exchange.columns }
    {
        if !self.fetch_text(rt, text)? {
            self.reader.take_text(text);
            return Ok(());
        }
        self.show_fetched(rt, text, is_next)
    }

    /// Shows the text that was fetched.
    fn show_fetched<R: Wait>(&mut self, rt: &R, text: u32, is_next: bool) -> Result<(), VisitEnd>
        ensures { self.new.exchange.columns ≡ self.old.exchange.columns }
    {
        let head = self.head()?;
        let authors = self.authors_of(rt, &head)?;
        let pace = self.show_head(rt, text, &head, authors.as_slice())?;
        let pace = self.exchange.show_told(rt, pace)?;
        self.mark_if(rt, is_next)?;
        self.show_foot(rt, pace, text, &head, authors.as_slice())?;
        if is_next {
            self.reader.read(text, head.links.as_slice())?;
        } else {
            self.reader.look_at(text);
        }
        Ok(())
    }

    /// Tells the server that the text is read which was shown, if it is the one that comes next.
    fn mark_if<R: Wait>(&mut self, rt: &R, is_next: bool) -> Result<(), VisitEnd>
        ensures { self.new.exchange.columns ≡ self.old.exchange.columns }
    {
        if !is_next {
            return Ok(());
        }
        let count = self.exchange.mark_shown(&self.reader)?;
        self.send_and_await(rt, count)
    }

    /// Asks for a text: whether it was told. Where the server refuses that, it says so.
    pub(crate) fn fetch_text<R: Wait>(&mut self, rt: &R, text: u32) -> Result<bool, VisitEnd>
        ensures { self.new.exchange.columns ≡ self.old.exchange.columns }
    {
        match self.exchange.fetch(rt, text)? {
            Fetched::Told => Ok(true),
            Fetched::Refused(code, status) => {
                self.say_refused(Refusal { code, status })?;
                Ok(false)
            }
            Fetched::Nothing => Ok(false),
        }
    }

    /// What stands above and below the text that was fetched.
    fn head(&self) -> Result<Head, VisitEnd> {
        match self.exchange.told() {
            Some(told) => Ok(Head {
                created: told.stat.created,
                author: told.stat.author,
                lines: told.stat.lines,
                links: Vec::from_slice(self.alloc, told.stat.misc_infos.as_slice())?,
            }),
            None => Err(VisitEnd::Broken),
        }
    }

    /// Shows who wrote a text and where it stands.
    fn show_head<R: Wait>(
        &mut self,
        rt: &R,
        text: u32,
        head: &Head,
        authors: &[Author],
    ) -> Result<Pace, VisitEnd>
        ensures { self.new.exchange.columns ≡ self.old.exchange.columns }
    {
        let line = head_line(self.alloc, head, self.zone, self.names.name(head.author))?;
        let mut pace = Pace::ByPages;
        let front = Front::Number(text);
        pace = self
            .exchange
            .show_line(rt, pace, front, line.as_bytes(), Charset::Utf8)?;
        for link in head.links.as_slice() {
            if let Some(line) = line_above(*link) {
                pace = self.show_link(rt, pace, line, authors)?;
            }
        }
        Ok(pace)
    }

    /// Shows a line about a link.
    fn show_link<R: Wait>(
        &mut self,
        rt: &R,
        pace: Pace,
        line: LinkLine,
        authors: &[Author],
    ) -> Result<Pace, VisitEnd>
        ensures { self.new.exchange.columns ≡ self.old.exchange.columns }
    {
        match line {
            LinkLine::Conference(front, conference) => {
                let told = self.name_of(conference)?;
                self.exchange
                    .show_line(rt, pace, front, told.as_bytes(), Charset::Utf8)
            }
            LinkLine::Text(front, text) => {
                let told = self.text_by(text, authors)?;
                self.exchange
                    .show_line(rt, pace, front, told.as_bytes(), Charset::Utf8)
            }
        }
    }

    /// Shows the end of a text, and what answers it.
    fn show_foot<R: Wait>(
        &mut self,
        rt: &R,
        pace: Pace,
        text: u32,
        head: &Head,
        authors: &[Author],
    ) -> Result<(), VisitEnd>
        ensures { self.new.exchange.columns ≡ self.old.exchange.columns }
    {
        let foot = foot_line(self.alloc, text)?;
        let mut pace = pace;
        pace = self
            .exchange
            .show_line(rt, pace, Front::Bracket, foot.as_bytes(), Charset::Utf8)?;
        for link in head.links.as_slice() {
            if let Some(line) = line_below(*link) {
                pace = self.show_link(rt, pace, line, authors)?;
            }
        }
        Ok(())
    }

    /// A text's number, and who wrote it where that is known.
    fn text_by(&self, text: u32, authors: &[Author]) -> Result<String, VisitEnd> {
        let alloc = self.alloc;
        match authors.iter().find(|author| author.text == text) {
            Some(author) => {
                let name = self.names.name(author.person);
                Ok(format!(in alloc; "{text} by {name}")?)
            }
            None => Ok(format!(in alloc; "{text}")?),
        }
    }

    /// Who wrote the texts that a text is linked to. The names of all whom it names are learnt.
    fn authors_of<R: Wait>(&mut self, rt: &R, head: &Head) -> Result<Vec<Author>, VisitEnd>
        ensures { self.new.exchange.columns ≡ self.old.exchange.columns }
    {
        let texts = texts_in(self.alloc, head.links.as_slice())?;
        let authors = self.ask_authors(rt, texts.as_slice())?;
        let names = named_in(self.alloc, head, authors.as_slice())?;
        self.learn_names(rt, names.as_slice())?;
        Ok(authors)
    }

    fn ask_authors<R: Wait>(&mut self, rt: &R, texts: &[u32]) -> Result<Vec<Author>, VisitEnd>
        ensures { self.new.exchange.columns ≡ self.old.exchange.columns }
    {
        self.ask_stats(texts)?;
        self.send(rt)?;
        let mut authors = Vec::new(self.alloc);
        for asked in texts {
            if let Some(person) = self.take_author(rt)? {
                authors.push(Author {
                    text: *asked,
                    person,
                })?;
            }
        }
        Ok(authors)
    }

    /// Asks for what is told of some texts.
    pub(crate) fn ask_stats(&mut self, texts: &[u32]) -> Result<(), VisitEnd>
        ensures { self.new.exchange.columns ≡ self.old.exchange.columns }
    {
        for text in texts {
            self.exchange.request(90, &[*text])?;
        }
        Ok(())
    }

    /// Awaits what is told of a text: who wrote it.
    fn take_author<R: Wait>(&mut self, rt: &R) -> Result<Option<u32>, VisitEnd>
        ensures { self.new.exchange.columns ≡ self.old.exchange.columns }
    {
        let reply = self.reply(rt, ResultKind::TextStat)?;
        Ok(author_in(reply))
    }

    /// The subject of the text that was fetched, as UTF-8.
    pub(crate) fn subject(&self) -> Result<String, VisitEnd> {
        match self.exchange.told() {
            Some(told) => {
                let (subject, _) = first_line(told.body.as_slice());
                Ok(text_of(self.alloc, subject, told.charset)?)
            }
            None => Ok(String::new(self.alloc)),
        }
    }
}

/// What a line above a text says of a link.
fn line_above(link: MiscInfo) -> Option<LinkLine> {
    match link {
        MiscInfo::Recipient(conference) => Some(LinkLine::Conference(Front::Recipient, conference)),
        MiscInfo::CopyRecipient(conference) => Some(LinkLine::Conference(Front::Copy, conference)),
        MiscInfo::BlindRecipient(conference) => {
            Some(LinkLine::Conference(Front::BlindCopy, conference))
        }
        MiscInfo::CommentTo(text) => Some(LinkLine::Text(Front::CommentTo, text)),
        MiscInfo::FootnoteTo(text) => Some(LinkLine::Text(Front::FootnoteTo, text)),
        _ => None,
    }
}

/// What a line below a text says of a link.
fn line_below(link: MiscInfo) -> Option<LinkLine> {
    match link {
        MiscInfo::FootnoteIn(text) => Some(LinkLine::Text(Front::FootnoteIn, text)),
        MiscInfo::CommentIn(text) => Some(LinkLine::Text(Front::CommentIn, text)),
        _ => None,
    }
}

/// The texts to which links lead, or the first of them.
fn texts_in(alloc: Global, links: &[MiscInfo]) -> Result<Vec<u32>, AllocError> {
    let mut texts = Vec::new(alloc);
    for link in links {
        match *link {
            MiscInfo::CommentTo(text)
            | MiscInfo::CommentIn(text)
            | MiscInfo::FootnoteTo(text)
            | MiscInfo::FootnoteIn(text)
                if texts.len() < LINKS => {
                texts.push(text)?;
            }
            _ => {}
        }
    }
    Ok(texts)
}

/// All whom a text and the texts beside it name.
fn named_in(alloc: Global, head: &Head, authors: &[Author]) -> Result<Vec<u32>, AllocError> {
    let mut named = Vec::new(alloc);
    named.push(head.author)?;
    for author in authors {
        named.push(author.person)?;
    }
    for link in head.links.as_slice() {
        match *link {
            MiscInfo::Recipient(conference)
            | MiscInfo::CopyRecipient(conference)
            | MiscInfo::BlindRecipient(conference) => named.push(conference)?,
            _ => {}
        }
    }
    Ok(named)
}

fn head_line(alloc: Global, head: &Head, zone: Zone, author: &str) -> Result<String, AllocError> {
    let time = time_of(alloc, head.created, zone)?;
    let lines = head.lines;
    format!(in alloc; " {time} /{lines} lines/ {author}")
}

fn foot_line(alloc: Global, text: u32) -> Result<String, AllocError> {
    format!(in alloc; "{text}) ---------{RULE}")
}
