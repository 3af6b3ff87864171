ghost use Rattle.std.specs.Prelude.{◌≡◌, OnOk, false};
ghost use Rattle.kom_links.specs.Doors.{IsNewSink};
ghost use Rattle.kom_links.specs.Outside.{with_bytes};
ghost use Rattle.kom_screen.specs.Screens.{Grows, IsPut, IsScreenOf};

use crate::screen_fault::ScreenFault;
use kom_links::{Failed, Sink};
use std::marker::Model;

/// What is shown: nothing of it steers the terminal, and no line of it is forged.
#[derive(Drop)]
pub(crate) struct Surface<S: Sink> {
    sink: S,
    columns: u16,
    has_failed: bool,
}

impl<S: Sink> Model for Surface<S> {
    ghost use Rattle.kom_screen.specs.Screens.{Shown, IsScreenOf};

    ghost Value = { Shown };

    ghost view = { λ s. record {
      sink = S.view s.sink;
      columns = s.columns;
      has_failed = s.has_failed;
    } };

    ghost invariant = { λ s. ∥ IsScreenOf s.columns s.has_failed (S.view s.sink) ∥₁ };
}

impl<S: Sink> Surface<S> {
    /// Nothing was shown.
    #[tactic(auto, using(crate::proofs::Showing::kept_new))]
    pub(crate) fn new(sink: S, columns: u16) -> Surface<S>
        requires { IsNewSink (S.view sink) }
        ensures { result ≡ record { sink = S.view sink; columns = columns; has_failed = false } }
    {
        Surface {
            sink,
            columns,
            has_failed: false,
        }
    }

    /// How many columns it has. What was shown is harmless.
    pub(crate) fn columns(&self) -> u16
        ensures value { result ≡ self.now.columns }
        ensures harmless { ∥ IsScreenOf self.now.columns self.now.has_failed self.now.sink ∥₁ }
    {
        self.columns
    }

    /// Shows a piece, or ends a line.
    #[tactic(auto, using(crate::proofs::Showing::kept_more, crate::proofs::Showing::kept_part, crate::proofs::Showing::grows_none))]
    pub(crate) fn put(&mut self, bytes: &[u8]) -> Result<(), ScreenFault>
        requires { IsPut self.old.columns bytes.now }
        ensures columns { self.new.columns ≡ self.old.columns }
        ensures puts { OnOk result (self.new.sink.put ≡ with_bytes bytes.now self.old.sink.put) }
        ensures grows { Grows self.old.sink.put self.new.sink.put }
    {
        if self.has_failed {
            return Err(ScreenFault::Failed);
        }
        match self.sink.write(bytes) {
            Ok(()) => Ok(()),
            Err(Failed) => {
                self.has_failed = true;
                Err(ScreenFault::Failed)
            }
        }
    }
}
