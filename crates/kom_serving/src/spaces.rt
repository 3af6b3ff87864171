// Memory for workers, taken before their gates are opened.
ghost use Rattle.std.specs.Prelude.{◌≡◌, ◌≤◌, [], IfOk, vec_capacity};

use crate::crowds::{Room, open_rooms};
use crate::workers::Worker;
use hall_desk::Acts;
use kom_commands::{AtPort, Way};
use kom_links::{Clock, Gate, Link};
use kom_types::Memory;
use std::alloc::Global;

/// A row for workers, and room for the links of each that serves many at a time.
pub(crate) struct Space<B: Acts, G: Gate, C: Clock> {
    pub(crate) row: Vec<Worker<B, G, C>>,
    pub(crate) rooms: Vec<Room<G::Link>>,
}

impl<B: Acts, G: Gate, C: Clock> Space<B, G, C> {
    /// Space for the workers at a port.
    pub(crate) fn new(alloc: Global, at: AtPort) -> Result<Space<B, G, C>, Memory>
        ensures { IfOk result (λ space. (space.row.items ≡ [])
            × (at.workers ≤ vec_capacity space.row)) }
    {
        let rooms = rooms_at(alloc, at)?;
        let row = Vec::with_capacity(alloc, at.workers as usize)?;
        Ok(Space { row, rooms })
    }

    /// It goes without workers.
    pub(crate) fn leave(self)
        requires { self.row.items ≡ [] }
    {
        let Space { row, rooms: _ } = self;
        row.destroy_empty();
    }
}

fn rooms_at<L: Link>(alloc: Global, at: AtPort) -> Result<Vec<Room<L>>, Memory> {
    match at.way {
        Way::OneAtATime => Ok(Vec::new(alloc)),
        Way::ManyAtATime => open_rooms(alloc, at.workers),
    }
}
