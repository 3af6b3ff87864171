ghost use Rattle.std.specs.Prelude.{◌≡◌, ◌<◌, ◌≤◌, take, vec_len};
ghost use Rattle.kom_links.specs.Outside.{Reads};

use kom_links::{Got, Link};
use kom_types::Memory;
use std::alloc::Global;

/// How many bytes are read at a time, at most.
const PIECE: usize = 16_384;

/// What is read into.
#[derive(Drop)]
pub(crate) struct Buffer {
    bytes: Vec<u8>,
    ghost room: { 0 < vec_len bytes },
}

impl Buffer {
    /// Room for a piece.
    pub(crate) fn new(alloc: Global) -> Result<Buffer, Memory> {
        let bytes = vec![in alloc; 0u8; PIECE]?;
        Ok(Buffer { bytes })
    }

    /// Reads once what a link has.
    pub(crate) fn read<L: Link>(&mut self, link: &mut L) -> Got
        ensures { Reads (L.view link.old) self.new.bytes.items result (L.view link.new) }
    {
        link.read(self.bytes.as_mut_slice())
    }

    /// So many of the first bytes.
    pub(crate) fn first(&self, count: usize) -> &[u8]
        requires { count ≤ vec_len self.now.bytes }
        ensures { result.now ≡ take count self.now.bytes.items }
    {
        &self.bytes.as_slice()[..count]
    }
}
