//! Texts that are written.
ghost use Rattle.std.specs.Prelude.{◌≡◌, IfOk};

use crate::drafts::Drafts;
use crate::replies::text_in;
use crate::typing::{Draft, Typed};
use crate::visitor::{Visitor, copied};
use kom_exchange::{Argument, Request, VisitEnd, Waiting, first_line};
use kom_letters::{Charset, Sent, Unsendable, text_bytes};
use kom_links::{Failed, Link, Sink};
use kom_records::ResultKind;
use kom_screen::Front;
use kom_types::{MiscInfo, MiscInput};
use std::alloc::{AllocError, Global};
use std::sync::Wait;

/// The tags of links of a text.
const RECIPIENT: u32 = 0;

const COMMENT_TO: u32 = 2;

const FOOTNOTE_TO: u32 = 4;

/// The tags of aux-items of a text.
const CONTENT_TYPE: u32 = 1;

const CREATING_SOFTWARE: u32 = 15;

/// Which text a text answers, and how.
#[derive(Clone, Copy, Debug, PartialEq, Eq)]
pub(crate) enum Answer {
    Comment,
    Footnote,
    /// A comment that its author alone gets.
    Reply,
}

impl<W: Waiting, K: Link, L: Link, S: Sink, D: Drafts> Visitor<W, K, L, S, D> {
    /// Begins a text to a conference.
    pub(crate) fn write_to(&mut self, conference: u32) -> Result<(), VisitEnd>
        ensures { self.new.exchange.columns ≡ self.old.exchange.columns }
    {
        let mut links = Vec::new(self.alloc);
        links.push(recipient(conference))?;
        self.begin(links, None);
        Ok(())
    }

    /// Begins a letter: it goes to a person and to the person that writes it.
    pub(crate) fn letter_to(&mut self, person: u32) -> Result<(), VisitEnd>
        ensures { self.new.exchange.columns ≡ self.old.exchange.columns }
    {
        let mut links = Vec::new(self.alloc);
        links.push(recipient(person))?;
        if person != self.person {
            links.push(recipient(self.person))?;
        }
        self.begin(links, None);
        Ok(())
    }

    /// A text is typed from now on.
    fn begin(&mut self, links: Vec<MiscInput>, subject: Option<Vec<u8>>)
        ensures { self.new.exchange.columns ≡ self.old.exchange.columns }
    {
        self.typing = Some(Draft::new(self.alloc, links, subject));
    }

    /// Begins an answer to a text.
    pub(crate) fn answer<R: Wait>(
        &mut self,
        rt: &R,
        text: u32,
        answer: Answer,
    ) -> Result<(), VisitEnd>
        ensures { self.new.exchange.columns ≡ self.old.exchange.columns }
    {
        if !self.fetch_text(rt, text)? {
            return Ok(());
        }
        let subject = self.subject()?;
        let mut links = self.recipients_of(answer)?;
        let tag = if answer == Answer::Footnote {
            FOOTNOTE_TO
        } else {
            COMMENT_TO
        };
        links.push(MiscInput { tag, value: text })?;
        let typed = copied(self.alloc, subject.as_bytes())?;
        self.begin(links, Some(typed));
        self.show(Front::Subject, "", subject.as_str())?;
        self.say_how()
    }

    /// Who gets an answer.
    fn recipients_of(&self, answer: Answer) -> Result<Vec<MiscInput>, VisitEnd> {
        let mut links = Vec::new(self.alloc);
        let Some(told) = self.exchange.told() else {
            return Ok(links);
        };
        let stat = &told.stat;
        if answer != Answer::Reply {
            for link in stat.misc_infos.as_slice() {
                if let MiscInfo::Recipient(conference) = *link {
                    links.push(recipient(conference))?;
                }
            }
        }
        if links.is_empty() {
            links.push(recipient(stat.author))?;
        }
        Ok(links)
    }

    fn say_how(&mut self) -> Result<(), VisitEnd>
        ensures { self.new.exchange.columns ≡ self.old.exchange.columns }
    {
        self.say(
            "",
            "A dot alone ends the text, two dots begin a line with one, `.q` drops it.",
        )
    }

    /// Takes a line of the text that is typed.
    pub(crate) fn take_typed<R: Wait>(
        &mut self,
        rt: &R,
        draft: Draft,
        line: &[u8],
    ) -> Result<(), VisitEnd>
        ensures { self.new.exchange.columns ≡ self.old.exchange.columns }
    {
        let mut draft = draft;
        if draft.subject.is_none() {
            let subject = copied(self.alloc, line)?;
            draft.subject = Some(subject);
            self.typing = Some(draft);
            return self.say_how();
        }
        match draft.take(line)? {
            Typed::More => {
                self.typing = Some(draft);
                Ok(())
            }
            Typed::Dropped => self.say("The text is dropped.", ""),
            Typed::Done => self.put_text(rt, draft),
        }
    }

    /// Sends a text. Where that cannot be, it is kept.
    fn put_text<R: Wait>(&mut self, rt: &R, draft: Draft) -> Result<(), VisitEnd>
        ensures { self.new.exchange.columns ≡ self.old.exchange.columns }
    {
        match sendable(self.alloc, &draft) {
            Ok(sent) => self.put_sent(rt, draft, &sent),
            Err(Unsendable::Memory) => Err(VisitEnd::Memory),
            Err(_) => {
                self.say("", "What was typed is no UTF-8, and is not sent.")?;
                self.keep_told(&draft)
            }
        }
    }

    /// Sends a text. As long as the reply is awaited, it is one that was not sent.
    fn put_sent<R: Wait>(&mut self, rt: &R, draft: Draft, sent: &Sent) -> Result<(), VisitEnd>
        ensures { self.new.exchange.columns ≡ self.old.exchange.columns }
    {
        let links = Vec::from_slice(self.alloc, draft.links.as_slice())?;
        self.typing = Some(draft);
        let is_written = self.send_text(rt, sent, links.as_slice())?;
        match self.typing.take() {
            Some(draft) if !is_written => self.keep_told(&draft),
            _ => Ok(()),
        }
    }

    /// Sends a text: whether it was written.
    fn send_text<R: Wait>(
        &mut self,
        rt: &R,
        sent: &Sent,
        links: &[MiscInput],
    ) -> Result<bool, VisitEnd>
        ensures { self.new.exchange.columns ≡ self.old.exchange.columns }
    {
        let request = text_request(self.alloc, sent, links)?;
        self.exchange.ask(&request)?;
        self.send(rt)?;
        self.take_written(rt)
    }

    /// Awaits whether a text was written.
    fn take_written<R: Wait>(&mut self, rt: &R) -> Result<bool, VisitEnd>
        ensures { self.new.exchange.columns ≡ self.old.exchange.columns }
    {
        let reply = self.reply(rt, ResultKind::Number)?;
        match text_in(reply) {
            Ok(Some(text)) => {
                self.tell_written(rt, text)?;
                Ok(true)
            }
            Ok(None) => Ok(false),
            Err(refusal) => {
                self.say_refused(refusal)?;
                Ok(false)
            }
        }
    }

    /// Says that a text is written. It is read by who wrote it.
    fn tell_written<R: Wait>(&mut self, rt: &R, text: u32) -> Result<(), VisitEnd>
        ensures { self.new.exchange.columns ≡ self.old.exchange.columns }
    {
        self.exchange.request(90, &[text])?;
        self.send(rt)?;
        let count = self.mark_own(rt)?;
        self.send_and_await(rt, count)?;
        self.reader.take_text(text);
        self.reader.look_at(text);
        let told = written_line(self.alloc, text)?;
        self.say("Text ", told.as_str())
    }

    /// Awaits what is told of a text of the person, and asks that it counts as read: how many
    /// requests that makes.
    fn mark_own<R: Wait>(&mut self, rt: &R) -> Result<u64, VisitEnd>
        ensures { self.new.exchange.columns ≡ self.old.exchange.columns }
    {
        let counted = self.exchange.mark_own(rt, &self.reader)?;
        Ok(counted.count)
    }

    /// Keeps a text, and says so.
    fn keep_told(&mut self, draft: &Draft) -> Result<(), VisitEnd>
        ensures { self.new.exchange.columns ≡ self.old.exchange.columns }
    {
        self.show_lines(draft.body.as_slice())?;
        match self.keep(draft) {
            Ok(()) => self.say("The text is kept in ~/.komt-draft.", ""),
            Err(Failed) => self.say("The text could not be kept.", ""),
        }
    }

    /// Shows the lines of a text that was typed.
    fn show_lines(&mut self, text: &[u8]) -> Result<(), VisitEnd>
        ensures { self.new.exchange.columns ≡ self.old.exchange.columns }
    {
        let mut rest = text;
        'lines: while !rest.is_empty() {
            let (line, more) = first_line(rest);
            self.exchange.show(Front::Blank, line, Charset::Utf8)?;
            rest = more;
        }
        Ok(())
    }

    /// Keeps a text.
    pub(crate) fn keep(&mut self, draft: &Draft) -> Result<(), Failed>
        ensures { self.new.exchange.columns ≡ self.old.exchange.columns }
    {
        match draft.whole(self.alloc) {
            Ok(whole) => self.drafts.keep(whole.as_slice()),
            Err(_) => Err(Failed),
        }
    }
}

/// The bytes as which a draft is sent.
fn sendable(alloc: Global, draft: &Draft) -> Result<Sent, Unsendable> {
    match draft.whole(alloc) {
        Ok(whole) => text_bytes(alloc, whole.as_slice()),
        Err(_) => Err(Unsendable::Memory),
    }
}

fn written_line(alloc: Global, text: u32) -> Result<String, AllocError> {
    format!(in alloc; "{text} is written.")
}

fn recipient(conference: u32) -> MiscInput {
    MiscInput {
        tag: RECIPIENT,
        value: conference,
    }
}

/// The request that a text is written.
fn text_request(alloc: Global, sent: &Sent, links: &[MiscInput]) -> Result<Request, VisitEnd>
    ensures { IfOk result (λ request. request.call ≡ 86) }
{
    let mut request = Request::new(alloc, 86);
    request.text(alloc, sent.body.as_slice())?;
    put_links(&mut request, links)?;
    put_items(alloc, &mut request, sent)?;
    Ok(request)
}

fn put_links(request: &mut Request, links: &[MiscInput]) -> Result<(), VisitEnd>
    ensures { request.new.call ≡ request.old.call }
{
    let count = u32::try_from(links.len()).unwrap_or(0);
    request.number(count)?;
    request.word(Argument::Open)?;
    for link in links {
        request.number(link.tag)?;
        request.number(link.value)?;
    }
    request.word(Argument::Close)?;
    Ok(())
}

/// The aux-items of a text: what made it, and its content type where it has one.
fn put_items(alloc: Global, request: &mut Request, sent: &Sent) -> Result<(), VisitEnd>
    ensures { request.new.call ≡ request.old.call }
{
    put_content_type(alloc, request, sent)?;
    put_item(alloc, request, CREATING_SOFTWARE, b"komt 1")?;
    request.word(Argument::Close)?;
    Ok(())
}

/// How many aux-items there are, and the first of two.
fn put_content_type(alloc: Global, request: &mut Request, sent: &Sent) -> Result<(), VisitEnd>
    ensures { request.new.call ≡ request.old.call }
{
    match sent.content_type() {
        Some(content_type) => {
            request.number(2)?;
            request.word(Argument::Open)?;
            put_item(alloc, request, CONTENT_TYPE, content_type)
        }
        None => {
            request.number(1)?;
            request.word(Argument::Open)?;
            Ok(())
        }
    }
}

fn put_item(alloc: Global, request: &mut Request, tag: u32, content: &[u8]) -> Result<(), VisitEnd>
    ensures { request.new.call ≡ request.old.call }
{
    request.number(tag)?;
    request.word(Argument::Flags)?;
    request.number(0)?;
    request.text(alloc, content)?;
    Ok(())
}
