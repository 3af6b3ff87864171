ghost use Rattle.std.specs.Prelude.{[], IfOk};
ghost use Rattle.kom_client.specs.Talking.{IsHearing, Feeds, HearsMore, HearsUnit};

use crate::buffer::Buffer;
use crate::talk_end::TalkEnd;
use kom_framing::{FeedRefusal, Splitter, Unit};
use kom_links::{Got, Link};
use kom_types::Memory;
use std::alloc::Global;
use std::sync::Wait;

/// What a client hears of its server.
#[derive(Drop)]
pub(crate) struct Hearing {
    pub(crate) splitter: Splitter,
    // The place of the stream's fault, if it was met.
    pub(crate) fault: Option<u64>,
    buffer: Buffer,
}

impl Hearing {
    /// Nothing was heard.
    pub(crate) fn new(alloc: Global) -> Result<Hearing, Memory>
        ensures { IfOk result (λ hearing. IsHearing hearing.splitter hearing.fault [] []) }
    {
        let buffer = Buffer::new(alloc)?;
        Ok(Hearing {
            splitter: Splitter::of_replies(alloc),
            fault: None,
            buffer,
        })
    }

    /// The next unit of the server's stream, which is awaited.
    pub(crate) fn hear<R: Wait, L: Link>(&mut self, rt: &R, link: &mut L) -> Result<Unit, TalkEnd>
        ensures { HearsUnit result self.old.splitter self.old.fault (L.view link.old)
            self.new.splitter self.new.fault (L.view link.new) }
    {
        for _ in rt.forever() {
            match self.splitter.next_unit() {
                Some(unit) => return Ok(unit),
                None => self.hear_more(link)?,
            }
        }
        unreachable!()
    }

    /// Reads once what the server wrote.
    fn hear_more<L: Link>(&mut self, link: &mut L) -> Result<(), TalkEnd>
        ensures { HearsMore result self.old.splitter self.old.fault (L.view link.old)
            self.new.splitter self.new.fault (L.view link.new) }
    {
        if let Some(place) = self.fault {
            return Err(TalkEnd::Broken(place));
        }
        match self.buffer.read(link) {
            Got::Some(count) => feed(
                &mut self.splitter,
                &mut self.fault,
                self.buffer.first(count),
            ),
            Got::NotYet => Ok(()),
            Got::End => Err(TalkEnd::ServerEnd),
            Got::Failed => Err(TalkEnd::LinkFault),
        }
    }
}

/// Takes the next piece of the server's stream, and notes its fault.
fn feed(splitter: &mut Splitter, fault: &mut Option<u64>, piece: &[u8]) -> Result<(), TalkEnd>
    ensures { Feeds result splitter.old fault.old piece.now splitter.new fault.new }
{
    match splitter.feed(piece) {
        Ok(()) => Ok(()),
        Err(FeedRefusal::Malformed(place)) => {
            *fault = Some(place);
            Ok(())
        }
        Err(FeedRefusal::LineTooLong(place)) => {
            *fault = Some(place);
            Ok(())
        }
        Err(FeedRefusal::Memory) => Err(TalkEnd::Memory),
    }
}
