ghost use Rattle.std.specs.Prelude.{◌≡◌};
ghost use Rattle.kom_screen.specs.Screens.{IsScreenOf};
ghost use Rattle.kom_exchange.specs.Fair.{MarkedWasShown};

use crate::drafts::Drafts;
use crate::letters::Zone;
use crate::names::Names;
use crate::typing::Draft;
use kom_exchange::{Ended, Exchange, VisitEnd, Waiting};
use kom_letters::Charset;
use kom_links::{Link, Sink};
use kom_reader::Reader;
use kom_screen::Front;
use kom_types::Memory;
use std::alloc::Global;
use std::sync::Wait;

/// Who visits: a name or a number as it was typed, and the zone in which times are shown.
#[derive(Clone, Copy, Debug)]
pub struct Guest<'a> {
    pub name: &'a [u8],
    pub zone: Zone,
}

/// What a visit keeps.
pub(crate) struct Visitor<W: Waiting, K: Link, L: Link, S: Sink, D: Drafts> {
    pub(crate) alloc: Global,
    pub(crate) exchange: Exchange<W, K, L, S>,
    pub(crate) drafts: D,
    pub(crate) reader: Reader,
    pub(crate) names: Names,
    pub(crate) person: u32,
    pub(crate) zone: Zone,
    pub(crate) typing: Option<Draft>,
}

impl<W: Waiting, K: Link, L: Link, S: Sink, D: Drafts> Drop for Visitor<W, K, L, S, D> {
    fn drop(self) {
        let Visitor {
            alloc: _,
            exchange,
            drafts,
            reader,
            names,
            person: _,
            zone: _,
            typing,
        } = self;
        drop((exchange, drafts));
        drop((reader, names));
        drop(typing);
    }
}

/// What is left of a visit, and how it ended.
#[derive(Drop)]
pub struct Visited<K: Link, L: Link, S: Sink> {
    pub left: Ended<K, L, S>,
    pub end: VisitEnd,
}

/// Visits a server: logs in with the first line that is typed as the password, and does what the
/// others ask for, until one of them says so or something ends.
pub fn visit<R: Wait, W: Waiting, K: Link, L: Link, S: Sink, D: Drafts>(
    rt: &R,
    alloc: Global,
    guest: &Guest<'_>,
    exchange: Exchange<W, K, L, S>,
    drafts: D,
) -> Visited<K, L, S>
    ensures columns { result.left.screen.columns ≡ exchange.columns }
    ensures harmless { ∥ IsScreenOf result.left.screen.columns result.left.screen.has_failed
        result.left.screen.sink ∥₁ }
    ensures marked { MarkedWasShown (K.view result.left.keys) (L.view result.left.link)
        result.left.screen.sink }
{
    let mut visitor = Visitor {
        alloc,
        exchange,
        drafts,
        reader: Reader::new(alloc),
        names: Names::new(alloc),
        person: 0,
        zone: guest.zone,
        typing: None,
    };
    let end = visitor.go_through(rt, guest);
    Visited {
        left: visitor.into_exchange().end(),
        end,
    }
}

impl<W: Waiting, K: Link, L: Link, S: Sink, D: Drafts> Visitor<W, K, L, S, D> {
    /// The exchange alone.
    fn into_exchange(self) -> Exchange<W, K, L, S>
        ensures { result ≡ self.exchange }
    {
        let Visitor {
            alloc: _,
            exchange,
            drafts,
            reader,
            names,
            person: _,
            zone: _,
            typing,
        } = self;
        drop((drafts, reader));
        drop((names, typing));
        exchange
    }

    fn go_through<R: Wait>(&mut self, rt: &R, guest: &Guest<'_>) -> VisitEnd
        ensures { self.new.exchange.columns ≡ self.old.exchange.columns }
    {
        match self.stay(rt, guest) {
            Ok(()) => VisitEnd::Quit,
            Err(end) => self.leave(end),
        }
    }

    /// Logs in, and does what is typed, until the person leaves.
    fn stay<R: Wait>(&mut self, rt: &R, guest: &Guest<'_>) -> Result<(), VisitEnd>
        ensures { self.new.exchange.columns ≡ self.old.exchange.columns }
    {
        self.come(rt, guest)?;
        self.prompt(rt)?;
        for _ in rt.forever() {
            if self.exchange.take_line()? {
                if !self.take_line(rt)? {
                    return Ok(());
                }
                self.prompt(rt)?;
            } else if self.exchange.has_ended() {
                return Err(VisitEnd::KeysEnd);
            } else {
                self.await_news(rt)?;
            }
        }
        unreachable!()
    }

    /// Waits for keys or messages, and tells what came.
    fn await_news<R: Wait>(&mut self, rt: &R) -> Result<(), VisitEnd>
        ensures { self.new.exchange.columns ≡ self.old.exchange.columns }
    {
        self.exchange.wait()?;
        if !self.exchange.has_message() {
            return Ok(());
        }
        if !self.tell_news(rt)? {
            return Ok(());
        }
        self.prompt(rt)
    }

    /// A visit ends before the person leaves: what was typed and not sent is kept.
    fn leave(&mut self, end: VisitEnd) -> VisitEnd
        ensures { self.new.exchange.columns ≡ self.old.exchange.columns }
    {
        let words = match end {
            VisitEnd::ServerEnd | VisitEnd::LinkFault => {
                "The server has gone. Enter asks for it again."
            }
            VisitEnd::Broken => "The server is not understood. Enter asks for it again.",
            VisitEnd::Memory => "Out of memory.",
            _ => "",
        };
        self.tell_end(words);
        if let Some(draft) = self.typing.take() {
            let _ = self.keep(&draft);
        }
        end
    }

    /// Says how the visit ends, if there are words for it.
    fn tell_end(&mut self, words: &str)
        ensures { self.new.exchange.columns ≡ self.old.exchange.columns }
    {
        if !words.is_empty() {
            let _ = self.tell_line("", words);
        }
    }

    /// Shows words and a text behind a blank.
    pub(crate) fn say(&mut self, words: &str, text: &str) -> Result<(), VisitEnd>
        ensures { self.new.exchange.columns ≡ self.old.exchange.columns }
    {
        self.show(Front::Blank, words, text)
    }

    /// Shows words and a text behind a front.
    pub(crate) fn show(&mut self, front: Front, words: &str, text: &str) -> Result<(), VisitEnd>
        ensures { self.new.exchange.columns ≡ self.old.exchange.columns }
    {
        let alloc = self.alloc;
        let mut line = String::from_str(alloc, words)?;
        line.push_str(text)?;
        self.exchange.show(front, line.as_bytes(), Charset::Utf8)
    }
}

/// Room for a number of values, or no memory.
pub(crate) fn copied(alloc: Global, bytes: &[u8]) -> Result<Vec<u8>, Memory> {
    Ok(Vec::from_slice(alloc, bytes)?)
}
