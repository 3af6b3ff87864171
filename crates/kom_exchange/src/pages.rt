//! Long texts, a screenful at a time.
ghost use Rattle.std.specs.Prelude.{◌≡◌, [], ◌∷◌, IfSome, OnOk, false, map};
ghost use Rattle.kom_screen.specs.Screens.{letters_behind};
ghost use Rattle.kom_exchange.specs.Fair.{Proceeds};
ghost use Rattle.kom_exchange.specs.Pages.{Adds, HasPage, lines_of};

use crate::contacts::Contacts;
use crate::lines::first_line;
use crate::told::Told;
use crate::visit_end::VisitEnd;
use crate::waiting::Waiting;
use kom_letters::Charset;
use kom_links::{Link, Sink};
use kom_screen::Front;
use std::sync::Wait;

const RULE: &str = "--------------------------------------------------";

/// Whether a text stops after a screenful.
#[derive(Clone, Copy, Debug, PartialEq, Eq)]
pub enum Pace {
    ByPages,
    ToTheEnd,
}

impl<W: Waiting, K: Link, L: Link, S: Sink> Contacts<W, K, L, S> {
    /// Shows a line.
    pub(crate) fn line(
        &mut self,
        front: Front,
        bytes: &[u8],
        charset: Charset,
    ) -> Result<(), VisitEnd>
        ensures proceeds { Proceeds self.old.keys self.old.server self.old.screen
            self.new.keys self.new.server self.new.screen }
    {
        self.screen.line(self.alloc, front, bytes, charset)?;
        Ok(())
    }

    /// Shows a prompt.
    pub(crate) fn prompt(&mut self, front: Front, bytes: &[u8]) -> Result<(), VisitEnd>
        ensures adds { OnOk result (Adds [] self.old.screen self.new.screen) }
        ensures proceeds { Proceeds self.old.keys self.old.server self.old.screen
            self.new.keys self.new.server self.new.screen }
    {
        self.screen.prompt(self.alloc, front, bytes)?;
        Ok(())
    }

    /// Shows a line of a text, before which it may stop: how it goes on.
    #[tactic(auto, using(crate::proofs::Proceeding::proceeds_none))]
    pub(crate) fn show_line<R: Wait>(
        &mut self,
        rt: &R,
        pace: Pace,
        front: Front,
        bytes: &[u8],
        charset: Charset,
    ) -> Result<Pace, VisitEnd>
        ensures adds { OnOk result (Adds (letters_behind self.old.screen.columns front charset
            bytes.now ∷ []) self.old.screen self.new.screen) }
        ensures proceeds { Proceeds self.old.keys self.old.server self.old.screen
            self.new.keys self.new.server self.new.screen }
    {
        let line = self.screen.line_of(self.alloc, front, bytes, charset)?;
        let stops = pace == Pace::ByPages && self.screen.is_full_for(line.as_str());
        if stops {
            return self.show_behind(rt, front, bytes, charset);
        }
        self.screen.take(line.as_str())?;
        Ok(pace)
    }

    /// Stops, and shows a line of a text after that: how it goes on.
    fn show_behind<R: Wait>(
        &mut self,
        rt: &R,
        front: Front,
        bytes: &[u8],
        charset: Charset,
    ) -> Result<Pace, VisitEnd>
        ensures adds { OnOk result (Adds (letters_behind self.old.screen.columns front charset
            bytes.now ∷ []) self.old.screen self.new.screen) }
        ensures proceeds { Proceeds self.old.keys self.old.server self.old.screen
            self.new.keys self.new.server self.new.screen }
    {
        let pace = self.stop(rt)?;
        self.screen.line(self.alloc, front, bytes, charset)?;
        Ok(pace)
    }

    /// Waits until a line is typed.
    fn stop<R: Wait>(&mut self, rt: &R) -> Result<Pace, VisitEnd>
        ensures adds { OnOk result (Adds [] self.old.screen self.new.screen) }
        ensures proceeds { Proceeds self.old.keys self.old.server self.old.screen
            self.new.keys self.new.server self.new.screen }
    {
        self.prompt(Front::More, b"Enter; q shows the rest at once -- ")?;
        match self.await_line(rt)? {
            Some(line) => {
                self.end_prompt();
                Ok(pace_by(line.as_slice()))
            }
            None => Ok(Pace::ToTheEnd),
        }
    }

    /// A line was typed behind a prompt.
    fn end_prompt(&mut self)
        ensures ended { self.new.screen ≡ record self.old.screen { is_open = false } }
        ensures proceeds { Proceeds self.old.keys self.old.server self.old.screen
            self.new.keys self.new.server self.new.screen }
    {
        self.screen.typed();
    }

    /// Shows the page of a text, if there is one.
    #[tactic(auto, using(crate::proofs::Proceeding::proceeds_none))]
    pub(crate) fn show_told<R: Wait>(
        &mut self,
        rt: &R,
        pace: Pace,
        told: &Option<Told>,
    ) -> Result<Pace, VisitEnd>
        ensures page { OnOk result (IfSome told.now (λ told.
            HasPage self.new.screen told.charset told.body)) }
        ensures proceeds { Proceeds self.old.keys self.old.server self.old.screen
            self.new.keys self.new.server self.new.screen }
    {
        match told {
            Some(told) => {
                let pace = self.show_page(rt, pace, told.body.as_slice(), told.charset)?;
                Ok(pace)
            }
            None => Ok(pace),
        }
    }

    /// Shows a text's page: its subject, and its lines.
    fn show_page<R: Wait>(
        &mut self,
        rt: &R,
        pace: Pace,
        body: &[u8],
        charset: Charset,
    ) -> Result<Pace, VisitEnd>
        ensures page { OnOk result (HasPage self.new.screen charset body.now) }
        ensures proceeds { Proceeds self.old.keys self.old.server self.old.screen
            self.new.keys self.new.server self.new.screen }
    {
        let (subject, rest) = first_line(body);
        let pace = self.show_line(rt, pace, Front::Subject, subject, charset)?;
        let pace = self.show_line(rt, pace, Front::Rule, RULE.as_bytes(), Charset::Utf8)?;
        let pace = self.show_body(rt, pace, rest, charset)?;
        Ok(pace)
    }

    /// Shows the lines of a body.
    fn show_body<R: Wait>(
        &mut self,
        rt: &R,
        pace: Pace,
        body: &[u8],
        charset: Charset,
    ) -> Result<Pace, VisitEnd>
        ensures adds { OnOk result (Adds
            (map (letters_behind self.old.screen.columns Front.Blank charset) (lines_of body.now))
            self.old.screen self.new.screen) }
        ensures proceeds { Proceeds self.old.keys self.old.server self.old.screen
            self.new.keys self.new.server self.new.screen }
    {
        let mut pace = pace;
        let mut rest = body;
        'lines: while !rest.is_empty() {
            let (line, more) = first_line(rest);
            pace = self.show_line(rt, pace, Front::Blank, line, charset)?;
            rest = more;
        }
        Ok(pace)
    }
}

/// How a text goes on behind what is typed at a prompt.
fn pace_by(line: &[u8]) -> Pace {
    if line.trim_ascii() == b"q".as_slice() {
        Pace::ToTheEnd
    } else {
        Pace::ByPages
    }
}
