//! What a machine does at the end of each step: it prints, and sees whether all was sent.
ghost use Rattle.std.specs.Prelude.{◌≡◌, ◌≤◌, ◌++◌, flat_map, drop, length, true};
ghost use Rattle.kom_types.specs.Printing.{print_of};
ghost use Rattle.kom_session.specs.Known.{known_by, to_write};
ghost use Rattle.kom_session.specs.Kept.{IfStill, IsAtRest};

use crate::machine::Machine;
use crate::phase::{Phase, Stage};
use kom_framing::Writer;
use kom_links::SessionEnd;
use kom_replies::print_item;
use kom_types::{Item, Memory};

/// How many bytes are printed before they are written.
const BLOCK: usize = 65_536;

impl Machine {
    /// Prints what it was given, and is over where all that waited was sent.
    #[inline(always)]
    pub fn rest(&mut self)
        ensures { IfStill (known_by self.old) (known_by self.new) }
    {
        if self.print_more().is_err() {
            self.run_out();
            return;
        }
        self.see_whether_sent();
    }

    /// Prints items after what is unwritten, until a block is full.
    #[inline(always)]
    fn print_more(&mut self) -> Result<(), Memory>
        ensures { known_by self.new ≡ known_by self.old }
    {
        if self.printed >= self.items.len() {
            return Ok(());
        }
        self.make_room();
        print_block(self.items.as_slice(), &mut self.printed, &mut self.writer)
    }

    /// Lets go of what was written, where that is all.
    fn make_room(&mut self)
        ensures same { self.new ≡ record self.old {
          writer = self.new.writer;
          written = self.new.written;
        } }
        ensures kept { to_write self.new ≡ to_write self.old }
        ensures inside { self.new.written ≤ length self.new.writer.bytes }
    {
        if self.writer.bytes().len() <= self.written {
            self.writer.clear();
            self.written = 0;
        }
    }

    /// Memory ran out, where it is not over yet.
    fn run_out(&mut self)
        ensures { IfStill (known_by self.old) (known_by self.new) }
    {
        match self.stage {
            Stage::Over(_) => {}
            Stage::Serving | Stage::Last(_) => self.out_of_memory(),
        }
    }

    /// It is over where nothing is left to be sent at its last stage.
    #[inline(always)]
    fn see_whether_sent(&mut self)
        ensures { IfStill (known_by self.old) (known_by self.new) }
    {
        if let Stage::Last(end) = self.stage {
            if !self.has_pending() && is_at_rest(self.phase) {
                self.stage = Stage::Over(end);
            }
        }
    }
}

/// Whether nothing more waits to be sent.
fn is_at_rest(phase: Phase) -> bool
    ensures { result ≡ true → IsAtRest phase }
{
    match phase {
        Phase::Calm | Phase::Denied => true,
        Phase::Due(_) | Phase::Owing | Phase::Draining => false,
    }
}

/// Prints items, from this one on, until a block is full. Most steps have none to print.
#[inline(never)]
fn print_block(items: &[Item], printed: &mut usize, writer: &mut Writer) -> Result<(), Memory>
    ensures same { writer.new.bytes ++ flat_map print_of (drop printed.new items.now)
        ≡ writer.old.bytes ++ flat_map print_of (drop printed.old items.now) }
    ensures grows { length writer.old.bytes ≤ length writer.new.bytes }
{
    while *printed < items.len() && writer.bytes().len() < BLOCK {
        print_item(&items[*printed], writer)?;
        *printed += 1;
    }
    Ok(())
}
