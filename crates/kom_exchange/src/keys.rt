ghost use Rattle.std.specs.Prelude.{◌≡◌, ◌≤◌, IfOk, IfSome, length, drop};
ghost use Rattle.kom_links.specs.Outside.{IsFresh};
ghost use Rattle.kom_exchange.specs.Fair.{HasTyped};
ghost use Rattle.kom_exchange.specs.Typing.{Types};

use crate::buffer::Buffer;
use crate::lines::line_end;
use crate::visit_end::VisitEnd;
use kom_links::{Got, Link};
use kom_types::Memory;
use std::alloc::Global;
use std::marker::Model;

/// What is typed, line by line.
pub(crate) struct Keys<K: Link> {
    link: K,
    buffer: Buffer,
    // What was typed behind the lines that were given out.
    held: Vec<u8>,
    has_ended: bool,
    // Something that was typed is missing there, and nothing more is read.
    has_fault: bool,
}

impl<K: Link> Model for Keys<K> {
    ghost use Rattle.kom_links.specs.Outside.{LinkView};
    ghost use Rattle.kom_exchange.specs.Typing.{IsTyped};

    ghost Value = { LinkView };

    ghost view = { λ k. K.view k.link };

    ghost invariant = { λ k. IsTyped (K.view k.link).taken k.held.items k.has_fault };
}

impl<K: Link> Drop for Keys<K> {
    fn drop(self) {
        let Keys {
            link,
            buffer,
            held,
            has_ended: _,
            has_fault: _,
        } = self;
        drop((link, buffer));
        drop(held);
    }
}

impl<K: Link> Keys<K> {
    #[tactic(auto, using(crate::proofs::Typed::typed_new))]
    pub(crate) fn new(alloc: Global, link: K) -> Result<Keys<K>, Memory>
        requires { IsFresh (K.view link) }
        ensures { IfOk result (λ keys. keys ≡ K.view link) }
    {
        let buffer = Buffer::new(alloc)?;
        Ok(Keys {
            link,
            buffer,
            held: Vec::new(alloc),
            has_ended: false,
            has_fault: false,
        })
    }

    /// The link alone.
    pub(crate) fn into_link(self) -> K
        ensures { K.view result ≡ self }
    {
        let Keys {
            link,
            buffer,
            held,
            has_ended: _,
            has_fault: _,
        } = self;
        drop((buffer, held));
        link
    }

    /// The next whole line, without its line feed.
    pub(crate) fn line(&mut self, alloc: Global) -> Result<Option<Vec<u8>>, Memory>
        ensures same { self.new ≡ self.old }
        ensures typed { IfOk result (λ line. IfSome line (λ line.
            IfSome self.new.taken (HasTyped line.items))) }
    {
        let end = line_end(self.held.as_slice());
        if end >= self.held.len() {
            return Ok(None);
        }
        let line = Vec::from_slice(alloc, &self.held.as_slice()[..end])?;
        let rest = rest_of(alloc, self.held.as_slice(), end + 1)?;
        self.held = rest;
        Ok(Some(line))
    }

    pub(crate) fn has_ended(&self) -> bool {
        self.has_ended
    }

    /// Reads once what was typed.
    #[tactic(auto, using(crate::proofs::Typed::typed_more, crate::proofs::Typed::typed_lost, crate::proofs::Typed::typed_same, crate::proofs::Typed::types_none, crate::proofs::Typed::types_read, crate::proofs::Typed::types_from))]
    pub(crate) fn listen(&mut self) -> Result<(), VisitEnd>
        ensures { Types self.old self.new }
    {
        if self.has_fault {
            return Err(VisitEnd::KeysFault);
        }
        match self.buffer.read(&mut self.link) {
            Got::Some(count) => match self.held.extend_from_slice(self.buffer.first(count)) {
                Ok(()) => Ok(()),
                Err(_) => {
                    self.has_fault = true;
                    Err(VisitEnd::Memory)
                }
            },
            Got::NotYet => Ok(()),
            Got::End => {
                self.has_ended = true;
                Ok(())
            }
            Got::Failed => Err(VisitEnd::KeysFault),
        }
    }
}

/// What stands behind so many of the first bytes.
#[tactic(auto, using(crate::proofs::Typed::rest_whole))]
fn rest_of(alloc: Global, bytes: &[u8], count: usize) -> Result<Vec<u8>, Memory>
    requires { count ≤ length bytes.now }
    ensures { IfOk result (λ rest. rest.items ≡ drop count bytes.now) }
{
    let rest = Vec::from_slice(alloc, &bytes[count..])?;
    Ok(rest)
}
