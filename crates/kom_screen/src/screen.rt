ghost use Rattle.std.specs.Prelude.{◌≡◌, ◌∷◌, [], IfOk, OnOk, string_bytes, true, false};
ghost use Rattle.std.specs.Str.{chars};
ghost use Rattle.kom_links.specs.Doors.{IsNewSink};
ghost use Rattle.kom_links.specs.Outside.{with_bytes};
ghost use Rattle.kom_screen.specs.Screens.{Grows, IsPiece, IsScreenOf, Puts, letters_behind};
ghost use Rattle.kom_screen.specs.Screens.{line_feed_if};

use crate::fronts::Front;
use crate::pieces::{piece_of, rows_of};
use crate::screen_fault::ScreenFault;
use crate::surface::Surface;
use kom_letters::Charset;
use kom_links::Sink;
use std::alloc::Global;
use std::marker::Model;

/// A screen of so many columns and rows, on which lines are shown.
#[derive(Drop)]
pub struct Screen<S: Sink> {
    surface: Surface<S>,
    rows: u16,
    // How many rows were shown since something was typed.
    row: usize,
    // Whether a prompt stands in the last line.
    is_open: bool,
}

impl<S: Sink> Model for Screen<S> {
    ghost use Rattle.std.specs.Prelude.{◌≤◌};
    ghost use Rattle.kom_screen.specs.Screens.{Seen};

    ghost Value = { Seen };

    ghost view = { λ s. record {
      sink = s.surface.sink;
      columns = s.surface.columns;
      has_failed = s.surface.has_failed;
      is_open = s.is_open;
    } };

    ghost invariant = { λ s. 20 ≤ s.surface.columns };
}

impl<S: Sink> Screen<S> {
    /// A screen on which nothing was shown. One of fewer than 20 columns counts as one of 20.
    pub fn new(sink: S, columns: u16, rows: u16) -> Screen<S>
        requires { IsNewSink (S.view sink) }
        ensures sink { result.sink ≡ S.view sink }
        ensures closed { result.is_open ≡ false }
    {
        Screen {
            surface: Surface::new(sink, columns.max(20)),
            rows: rows.max(4),
            row: 0,
            is_open: false,
        }
    }

    /// How many columns it has.
    pub fn columns(&self) -> u16
        ensures value { result ≡ self.now.columns }
        ensures harmless { ∥ IsScreenOf self.now.columns self.now.has_failed self.now.sink ∥₁ }
    {
        self.surface.columns()
    }

    /// A line was typed: it ended the prompt, and a new screenful begins.
    pub fn typed(&mut self)
        ensures { self.new ≡ record self.old { is_open = false } }
    {
        self.row = 0;
        self.is_open = false;
    }

    /// Whether a line more would move lines away that were shown since something was typed. No
    /// clause hangs on it.
    pub fn is_full_for(&self, line: &str) -> bool {
        let rows = rows_of(line).saturating_add(1);
        self.row > 0 && self.row.saturating_add(rows) >= usize::from(self.rows)
    }

    /// What bytes are behind a front on this screen.
    pub fn line_of(
        &self,
        alloc: Global,
        front: Front,
        bytes: &[u8],
        charset: Charset,
    ) -> Result<String, ScreenFault>
        ensures letters { IfOk result (λ text. chars (string_bytes text)
            ≡ letters_behind self.now.columns front charset bytes.now) }
        ensures piece { IfOk result (λ text.
            IsPiece self.now.columns (chars (string_bytes text))) }
    {
        let text = piece_of(alloc, self.surface.columns(), front, bytes, charset)?;
        Ok(text)
    }

    /// Shows a line.
    #[tactic(auto, using(crate::proofs::Showing::puts_as, crate::proofs::Showing::grows_none))]
    pub fn line(
        &mut self,
        alloc: Global,
        front: Front,
        bytes: &[u8],
        charset: Charset,
    ) -> Result<(), ScreenFault>
        ensures columns { self.new.columns ≡ self.old.columns }
        ensures grows { Grows self.old.sink.put self.new.sink.put }
        ensures shows { OnOk result (Puts self.old
            (letters_behind self.old.columns front charset bytes.now) (10 ∷ []) self.new) }
    {
        let text = self.line_of(alloc, front, bytes, charset)?;
        self.take(text.as_str())
    }

    /// Shows a prompt, behind which something is typed.
    #[tactic(auto, using(crate::proofs::Showing::puts_prompt, crate::proofs::Showing::grows_none))]
    pub fn prompt(&mut self, alloc: Global, front: Front, bytes: &[u8]) -> Result<(), ScreenFault>
        ensures columns { self.new.columns ≡ self.old.columns }
        ensures grows { Grows self.old.sink.put self.new.sink.put }
        ensures shows { OnOk result (Puts self.old
            (letters_behind self.old.columns front Charset.Utf8 bytes.now) [] self.new) }
        ensures open { OnOk result (self.new.is_open ≡ true) }
    {
        let text = self.line_of(alloc, front, bytes, Charset::Utf8)?;
        self.begin()?;
        self.surface.put(text.as_bytes())?;
        self.is_open = true;
        Ok(())
    }

    /// Shows a line that was made for this screen.
    #[tactic(auto, using(crate::proofs::Showing::puts_line))]
    pub fn take(&mut self, line: &str) -> Result<(), ScreenFault>
        requires { IsPiece self.old.columns (chars line.now) }
        ensures columns { self.new.columns ≡ self.old.columns }
        ensures grows { Grows self.old.sink.put self.new.sink.put }
        ensures shows { OnOk result (Puts self.old (chars line.now) (10 ∷ []) self.new) }
    {
        self.begin()?;
        let rows = rows_of(line).saturating_add(1);
        self.row = self.row.saturating_add(rows);
        self.surface.put(line.as_bytes())?;
        self.surface.put(b"\n")?;
        Ok(())
    }

    /// Ends the line of a prompt behind which nothing was typed.
    #[tactic(auto, using(crate::proofs::Showing::grown_none, crate::proofs::Showing::grows_none))]
    fn begin(&mut self) -> Result<(), ScreenFault>
        ensures columns { self.new.columns ≡ self.old.columns }
        ensures grows { Grows self.old.sink.put self.new.sink.put }
        ensures closed { self.new.is_open ≡ false }
        ensures puts { OnOk result
            (self.new.sink.put ≡ with_bytes (line_feed_if self.old.is_open) self.old.sink.put) }
    {
        if !self.is_open {
            return Ok(());
        }
        self.is_open = false;
        self.surface.put(b"\n")?;
        Ok(())
    }
}
