//! Truth values that two links share: the one sets its flag when enough was put to it, and the
//! other waits for it.
ghost use Rattle.std.specs.Prelude.{◌≡◌, [], false};

use kom_types::Memory;
use std::alloc::Global;
use std::sync::Arc;
use std::sync::atomic::{AtomicBool, Ordering};

/// A truth value that is unset at first, and is never unset again.
#[derive(Debug, Drop)]
pub struct Flag {
    value: Arc<AtomicBool, Global>,
}

impl Flag {
    /// A flag that is unset.
    pub fn new(alloc: Global) -> Result<Flag, Memory> {
        match Arc::new(alloc, AtomicBool::new(false)) {
            Ok(value) => Ok(Flag { value }),
            Err(_) => Err(Memory),
        }
    }

    /// The same flag for another link.
    pub fn again(&self) -> Result<Flag, Memory> {
        Ok(Flag {
            value: Arc::try_clone(&self.value)?,
        })
    }

    fn set(&self) {
        self.value.store(true, Ordering::SeqCst);
    }

    fn is_set(&self) -> bool {
        self.value.load(Ordering::SeqCst)
    }
}

/// A link sets the flag when so many bytes were put to it.
#[derive(Debug, Drop)]
pub struct Signal {
    pub flag: Flag,
    pub put: usize,
}

/// Calls of a link that wait until the flag is set.
#[derive(Debug, Drop)]
pub struct Hold {
    pub flag: Flag,
    /// Its reads wait once so many bytes were taken. A cut stands at that place of the input.
    pub reads_from: Option<usize>,
    /// Its writes wait once so many bytes were put.
    pub writes_from: Option<usize>,
}

/// The flags of a link.
#[derive(Debug, Drop)]
pub struct Flags {
    pub holds: Vec<Hold>,
    pub signals: Vec<Signal>,
}

impl Flags {
    /// No flags.
    pub fn new(alloc: Global) -> Flags
        ensures no_holds { result.holds.items ≡ [] }
        ensures no_signals { result.signals.items ≡ [] }
    {
        Flags {
            holds: Vec::new(alloc),
            signals: Vec::new(alloc),
        }
    }

    /// Whether a read waits that is made after so many bytes were taken.
    pub(crate) fn holds_read(&self, taken: usize) -> bool
        ensures none { self.now.holds.items ≡ [] → result ≡ false }
    {
        if self.holds.is_empty() {
            return false;
        }
        for hold in &self.holds {
            if let Some(from) = hold.reads_from {
                if from <= taken && !hold.flag.is_set() {
                    return true;
                }
            }
        }
        false
    }

    /// Whether a write waits that is made after so many bytes were put.
    pub(crate) fn holds_write(&self, put: usize) -> bool
        ensures none { self.now.holds.items ≡ [] → result ≡ false }
    {
        if self.holds.is_empty() {
            return false;
        }
        for hold in &self.holds {
            if let Some(from) = hold.writes_from {
                if from <= put && !hold.flag.is_set() {
                    return true;
                }
            }
        }
        false
    }

    /// Sets the flags that are to be set once so many bytes were put.
    pub(crate) fn signal(&self, put: usize) {
        for signal in &self.signals {
            if signal.put <= put {
                signal.flag.set();
            }
        }
    }
}
