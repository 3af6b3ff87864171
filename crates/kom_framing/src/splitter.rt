ghost use Rattle.std.specs.Prelude.{◌≡◌, ◌≢◌, ◌↔◌, true, false, ℕ, List, [], ◌∷◌, ◌++◌, Err, Some};
ghost use Rattle.std.specs.Prelude.{IsNone, IfNone, IfSome, MatchOption};
ghost use Rattle.kom_types.specs.declared.limits.TheConstants.{LONGEST_STREAM};
ghost use Rattle.kom_types.specs.Stream as stream;
ghost use Rattle.kom_framing.specs.declared.units.Unit.{Unit as StreamUnit};
ghost use Rattle.kom_framing.specs.Splitting.{IsAt, IsAtBy, Answers, refusal_at};
ghost use Rattle.kom_framing.specs.Refusing.{refused_by};

use crate::begun::{BegunUnit, follow};
use crate::fault::Fault;
use crate::greeting::Greeting;
use crate::units::Unit;
use kom_types::{Memory, Side};
use std::alloc::Global;
use std::collections::VecDeque;
use std::error::Error;
use std::fmt;
use std::marker::Model;

/// Why a piece of the stream was not taken whole.
#[derive(Clone, Copy, Debug, PartialEq, Eq)]
pub enum FeedRefusal {
    /// The byte at this place can go on neither with the greeting nor with the line that has begun.
    Malformed(u64),
    /// The byte at this place is one too many for its line.
    LineTooLong(u64),
    /// Memory ran out.
    Memory,
}

impl fmt::Display for FeedRefusal {
    fn fmt<W: fmt::Write>(&self, f: &mut fmt::Formatter<W>) -> fmt::Result {
        match self {
            FeedRefusal::Malformed(place) => write!(f, "the byte at {place} fits nowhere"),
            FeedRefusal::LineTooLong(place) => write!(f, "the line is too long at {place}"),
            FeedRefusal::Memory => write!(f, "out of memory"),
        }
    }
}

impl Error for FeedRefusal {}

/// Splits a stream, which comes in any pieces, into its greeting and its lines.
#[derive(Debug, Drop)]
pub struct Splitter {
    side: Side,
    units: VecDeque<Unit>,
    begun: BegunUnit,
    place: u64,
    fault: Option<Fault>,
}

impl Model for Splitter {
    ghost use Rattle.std.specs.Prelude.{◌≤◌, option_map};
    ghost use Rattle.kom_types.specs.declared.limits.TheConstants.{LONGEST_STREAM};
    ghost use Rattle.kom_framing.specs.Splitting.{Splitting};
    ghost use Rattle.kom_framing.specs.BegunLines.{fault_seen};
    ghost use Rattle.kom_framing.specs.Advancing.{begun_seen, IsBegunUnit};

    ghost Value = { Splitting };

    ghost view = { λ s. record {
      side = s.side;
      held = s.units.items;
      begun = begun_seen s.begun;
      place = s.place;
      fault = option_map fault_seen s.fault;
    } };

    ghost invariant = { λ s. IsBegunUnit s.side s.begun × (s.place ≤ LONGEST_STREAM) };
}

impl Splitter {
    /// A splitter of a client's stream, to which nothing was fed.
    pub fn new(alloc: Global) -> Splitter
        ensures { IsAt result [] [] }
    {
        Splitter::at_start(alloc, Side::Client)
    }

    /// A splitter of the stream that a server writes, as a client reads it, to which nothing was
    /// fed.
    pub fn of_replies(alloc: Global) -> Splitter
        ensures { IsAtBy Side.Server result [] [] }
    {
        Splitter::at_start(alloc, Side::Server)
    }

    // A splitter to which nothing was fed.
    fn at_start(alloc: Global, side: Side) -> Splitter
        ensures { IsAtBy side result [] [] }
    {
        Splitter {
            side,
            units: VecDeque::new(alloc),
            begun: BegunUnit::Greeting(Greeting::new(alloc, side)),
            place: 0,
            fault: None,
        }
    }

    /// Takes the next piece of the stream. After a fault each later feed answers the same.
    pub fn feed(&mut self, piece: &[u8]) -> Result<(), FeedRefusal>
        ensures fed { (side : Side) (fed : List ℕ) (taken : List StreamUnit)
            → IsAtBy side self.old fed taken
            → Answers side result (fed ++ piece.now) self.new taken }
        ensures side { self.new.side ≡ self.old.side }
        ensures unchanged { result ≡ Err FeedRefusal.Memory → self.new ≡ self.old }
        ensures again { (found : stream.Fault) → self.old.fault ≡ Some found
            → (result ≡ Err (refusal_at found)) × (self.new ≡ self.old) }
    {
        match self.fault {
            Some(found) => Err(refusal_of(found)),
            None => match follow(
                self.side,
                &mut self.units,
                &mut self.begun,
                self.place,
                piece,
            ) {
                Ok(None) => {
                    self.place += piece.len() as u64;
                    Ok(())
                }
                Ok(Some(found)) => {
                    self.fault = Some(found);
                    Err(refusal_of(found))
                }
                Err(Memory) => Err(FeedRefusal::Memory),
            },
        }
    }

    /// Whether a unit is complete that was not taken yet.
    pub fn has_unit(&self) -> bool
        ensures none { result ≡ false → self.now.held ≡ [] }
        ensures some { result ≡ true → self.now.held ≢ [] }
    {
        !self.units.is_empty()
    }

    /// The next unit that is complete.
    pub fn next_unit(&mut self) -> Option<Unit>
        ensures none { IsNone result ↔ (self.old.held ≡ []) }
        ensures unchanged { IfNone result (self.new ≡ self.old) }
        ensures some { IfSome result
            (λ unit. self.old ≡ record self.new { held = unit ∷ self.new.held }) }
        ensures at { (side : Side) (fed : List ℕ) (taken : List StreamUnit)
            → IsAtBy side self.old fed taken
            → MatchOption result (IsAtBy side self.new fed taken)
            (λ unit. IsAtBy side self.new fed (taken ++ unit ∷ [])) }
    {
        self.units.pop_front()
    }
}

// The fault as a refusal.
fn refusal_of(found: Fault) -> FeedRefusal
    ensures { result ≡ refused_by found }
{
    match found {
        Fault::Malformed(place) => FeedRefusal::Malformed(place),
        Fault::LineTooLong(place) => FeedRefusal::LineTooLong(place),
    }
}
