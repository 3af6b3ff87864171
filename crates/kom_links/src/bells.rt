//! Bells at a port: whoever may have done something for others there rings for those that wait.
use mio::{Events, Poll, Registry, Token, Waker};
use std::alloc::Global;
use std::io;
use std::net::Net;
use std::sync::Arc;
use std::sync::atomic::{AtomicBool, AtomicU64, Ordering};
use std::time::Duration;

/// By which a wait is told of its bell, and not of what it waits for.
pub(crate) const RUNG: Token = Token(usize::MAX);

// How long a wait lasts at most of which nobody knows that anything was done, in milliseconds.
const LONGEST_MILLIS: u64 = 2_000;

// The bell of one watch.
#[derive(Drop)]
struct Bell {
    waker: Waker,
    is_waiting: AtomicBool,
    // How many links the worker has that waits at it.
    links: AtomicU64,
}

// All bells of a port, how often they were rung, and how many of them somebody waits at.
#[derive(Drop)]
struct Bells {
    bells: Vec<Bell>,
    rung: AtomicU64,
    waiting: AtomicU64,
}

impl Bells {
    fn count_rung(&self) -> u64 {
        self.rung.load(Ordering::SeqCst)
    }

    // Who waits counts as waiting before it looks whether somebody has rung, and who rings counts
    // that before it looks who waits: one of them sees the other. How often was rung before.
    fn ring(&self) -> u64 {
        let before = self.rung.fetch_add(1, Ordering::SeqCst);
        if self.waiting.load(Ordering::SeqCst) == 0 {
            return before;
        }
        for bell in &self.bells {
            // A bell that nobody waits at is not written to.
            if bell.is_waiting.load(Ordering::SeqCst)
                && bell.is_waiting.swap(false, Ordering::SeqCst)
            {
                let _ = bell.waker.wake();
            }
        }
        before
    }

    fn set_links(&self, place: usize, links: u64) {
        if let Some(bell) = self.bells.get(place) {
            bell.links.store(links, Ordering::SeqCst);
        }
    }

    fn have_at_least(&self, links: u64) -> bool {
        for bell in &self.bells {
            if bell.links.load(Ordering::SeqCst) < links {
                return false;
            }
        }
        true
    }

    fn begin(&self, place: usize) {
        if let Some(bell) = self.bells.get(place) {
            bell.is_waiting.store(true, Ordering::SeqCst);
            self.waiting.fetch_add(1, Ordering::SeqCst);
        }
    }

    fn end(&self, place: usize) {
        if let Some(bell) = self.bells.get(place) {
            bell.is_waiting.store(false, Ordering::SeqCst);
            self.waiting.fetch_sub(1, Ordering::SeqCst);
        }
    }
}

/// A watch for what comes to sockets at a port, and for what is done there.
#[derive(Drop)]
pub(crate) struct Watch {
    poll: Poll,
    events: Events,
    bells: Arc<Bells>,
    place: usize,
    /// How often the bells had been rung when the last wait ended.
    seen: u64,
}

impl Watch {
    /// What sources are registered with, under another token than the bell's.
    pub(crate) fn registry(&self) -> &Registry {
        self.poll.registry()
    }

    /// Tells the others that something may have been done for them.
    pub(crate) fn ring(&self) {
        self.bells.ring();
    }

    /// The same; it is not told of this itself.
    pub(crate) fn ring_for_others(&mut self) {
        let before = self.bells.ring();
        if before == self.seen {
            self.seen = before.wrapping_add(1);
        }
    }

    /// Whether somebody rang since this was last asked.
    pub(crate) fn was_rung(&mut self) -> bool {
        let rung = self.bells.count_rung();
        let is_new = rung != self.seen;
        self.seen = rung;
        is_new
    }

    /// What the last wait was told.
    pub(crate) fn events(&self) -> &Events {
        &self.events
    }

    /// Notes how many links its worker has.
    pub(crate) fn set_links(&self, links: u64) {
        self.bells.set_links(self.place, links);
    }

    /// Whether each worker has so many links at least.
    pub(crate) fn others_have(&self, links: u64) -> bool {
        self.bells.have_at_least(links)
    }

    /// Looks what is ready.
    pub(crate) fn look(&mut self) -> io::Result<()> {
        self.poll.poll(&mut self.events, Some(Duration::ZERO))
    }

    /// Waits until something is ready or somebody rings, for so long at most; not at all if
    /// somebody rang since that was last asked.
    pub(crate) fn sleep(&mut self, longest: Duration) -> io::Result<()> {
        self.bells.begin(self.place);
        let waited = if self.bells.count_rung() == self.seen {
            self.poll.poll(&mut self.events, Some(longest))
        } else {
            self.look()
        };
        self.bells.end(self.place);
        waited
    }

    /// Waits until something is ready, for so many milliseconds at most. Whether it is.
    pub(crate) fn pause(&mut self, millis: u64) -> io::Result<bool> {
        self.poll
            .poll(&mut self.events, Some(Duration::from_millis(millis)))?;
        Ok(!self.events.is_empty())
    }

    /// Waits until something is ready, or something was done at the port since the last wait ended;
    /// for that it waits so many milliseconds at least. Whether something is ready, or may be.
    pub(crate) fn wait(&mut self, millis: u64) -> io::Result<bool> {
        let mut is_ready = self.pause(millis)?;
        if !is_ready && self.bells.count_rung() == self.seen {
            self.bells.begin(self.place);
            let waited = if self.bells.count_rung() == self.seen {
                self.pause(LONGEST_MILLIS)
            } else {
                Ok(false)
            };
            self.bells.end(self.place);
            is_ready = waited?;
        }
        // What is done from now on is seen by the next wait.
        self.seen = self.bells.count_rung();
        Ok(is_ready)
    }
}

/// So many watches at one port, each of which is told of so many sources at a time at most.
pub(crate) fn open_watches<R: Net>(
    net: &R,
    alloc: Global,
    number: usize,
    sources: usize,
) -> io::Result<Vec<Watch>> {
    let mut polls = Vec::with_capacity(alloc, number)?;
    let mut bells = Vec::with_capacity(alloc, number)?;
    for _ in 0..number {
        let poll = Poll::new(net)?;
        bells.push(Bell {
            waker: Waker::new(poll.registry(), RUNG)?,
            is_waiting: AtomicBool::new(false),
            links: AtomicU64::new(0),
        })?;
        polls.push(poll)?;
    }
    let shared = Arc::new(
        alloc,
        Bells {
            bells,
            rung: AtomicU64::new(0),
            waiting: AtomicU64::new(0),
        },
    )?;
    let mut watches = Vec::with_capacity(alloc, number)?;
    for poll in polls {
        let place = watches.len();
        watches.push(Watch {
            poll,
            events: Events::with_capacity(alloc, sources)?,
            bells: Arc::try_clone(&shared)?,
            place,
            seen: 0,
        })?;
    }
    Ok(watches)
}
