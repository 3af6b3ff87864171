ghost use Rattle.std.specs.Prelude.{[], Option, ℕ};
ghost use Rattle.kom_framing.specs.Splitting.{Splitting};
ghost use Rattle.kom_links.specs.Doors.{SinkView};
ghost use Rattle.kom_links.specs.Outside.{LinkView};
ghost use Rattle.kom_client.specs.Talking.{Rest, Does, say, Sends};

use crate::talk_end::TalkEnd;
use kom_links::{Failed, Link, Sink, Took};
use std::sync::Wait;

/// Sends bytes to the server, all of them if the link does not fail.
pub(crate) fn send<R: Wait, L: Link>(rt: &R, link: &mut L, bytes: &[u8]) -> Result<(), TalkEnd>
    ensures { Sends result (L.view link.old) bytes.now (L.view link.new) }
{
    let mut rest = bytes;
    for _ in rt.forever() {
        if rest.is_empty() {
            return Ok(());
        }
        match link.write(rest) {
            Took::Some(count) => rest = &rest[count..],
            Took::NotYet => {}
            Took::Failed => return Err(TalkEnd::LinkFault),
        }
    }
    unreachable!()
}

/// Shows bytes.
pub(crate) fn show<S: Sink>(out: &mut S, bytes: &[u8]) -> Result<(), TalkEnd>
    ensures { (splitting : Splitting) (fault : Option ℕ) (link : LinkView)
        → Does result (say [] bytes.now) (λ (next : Rest). next)
        (record {
          splitting = splitting;
          fault = fault;
          link = link;
          sink = S.view out.old;
        })
        (record {
          splitting = splitting;
          fault = fault;
          link = link;
          sink = S.view out.new;
        }) }
{
    match out.write(bytes) {
        Ok(()) => Ok(()),
        Err(Failed) => Err(TalkEnd::SinkFault),
    }
}
