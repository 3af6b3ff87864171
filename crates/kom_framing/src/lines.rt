ghost use Rattle.std.specs.Prelude.{◌≡◌, ◌≢◌, ◌+◌, ◌-◌, ◌<◌, ◌≤◌, [], ◌++◌, length, take, OnOk};
ghost use Rattle.std.specs.Prelude.{OnErr, IfOk, Ok, true, option_to_list};
ghost use Rattle.kom_types.specs.Stream as stream;
ghost use Rattle.kom_framing.specs.Spans.{tokens_of, AreTokens};
ghost use Rattle.kom_framing.specs.Scanning.{IsBegun};
ghost use Rattle.kom_framing.specs.BegunLines.{IsLine, Extends, Reads, Tries, Takes, FailsAt};
ghost use Rattle.kom_framing.specs.BegunLines.{Scans, TakesWhole, units_at};
ghost use Rattle.kom_framing.specs.WholeLines.{AreLines, AddsAll, AddsLine};

use crate::fault::Fault;
use crate::lexer::{Lexer, Step};
use crate::line::Line;
use crate::units::Unit;
use crate::whole::whole_line;
use kom_types::limits::{LONGEST_LINE, LONGEST_STREAM};
use kom_types::{Memory, Side};
use smallvec::SmallVec;
use std::alloc::Global;
use std::collections::VecDeque;
use std::mem;

/// How long a line's text is at most that takes no memory of its own.
const SHORT: usize = 24;

/// The bytes of a line. Up to 24 take no memory of their own.
pub type LineText = SmallVec<u8, SHORT>;

/// The places of a line at which its tokens begin. Up to twelve take no memory of their own.
pub type LineStarts = SmallVec<u32, 12>;

/// A line that has begun: its bytes so far, where its whole tokens begin, and how far the last one
/// is.
#[derive(Debug, Drop)]
pub struct BegunLine {
    pub text: LineText,
    pub starts: LineStarts,
    pub lexer: Lexer,
}

/// How a unit has gone on with a piece of the stream.
#[derive(Clone, Copy, Debug)]
pub enum Scan {
    /// It took the whole piece.
    Goes,
    /// It ends with the last of so many bytes.
    Ends(usize),
    /// It is at fault.
    Fails(Fault),
}

/// How the bytes of a window were read.
#[derive(Clone, Copy, Debug)]
pub enum Reading {
    Goes(Lexer),
    Ends(usize),
    Unfit(usize),
}

/// The lines after the end of a unit, and what came after them.
#[derive(Debug, Drop)]
pub struct Lines {
    pub whole: VecDeque<Unit>,
    pub begun: BegunLine,
    pub fault: Option<Fault>,
}

impl BegunLine {
    /// A line of which nothing has come.
    pub fn new(alloc: Global) -> BegunLine
        ensures text { result.text.items ≡ [] }
        ensures line { (side : Side) → IsLine side result }
    {
        BegunLine {
            text: SmallVec::new(alloc),
            starts: SmallVec::new(alloc),
            lexer: Lexer::Between,
        }
    }

    /// Takes the bytes of a piece that belong to the line.
    pub fn scan(&mut self, side: Side, place: u64, piece: &[u8]) -> Result<Scan, Memory>
        requires line { IsLine side self.old }
        requires early { place ≤ LONGEST_STREAM }
        ensures { Scans side result place self.old piece.now self.new }
    {
        let window = window_of(self.text.len(), place, piece);
        match self.take(side, window)? {
            Reading::Goes(_) => {
                if window.len() == piece.len() {
                    return Ok(Scan::Goes);
                }
                let place = place + window.len() as u64;
                Ok(Scan::Fails(self.fault_at(side, place, &piece[window.len()..])))
            }
            Reading::Ends(count) => Ok(Scan::Ends(count)),
            Reading::Unfit(at) => Ok(Scan::Fails(Fault::Malformed(place + at as u64))),
        }
    }

    // Takes the bytes of a window that belong to the line, or leaves the line as it was.
    fn take(&mut self, side: Side, window: &[u8]) -> Result<Reading, Memory>
        requires line { IsLine side self.old }
        requires room { length self.old.text.items + length window.now ≤ LONGEST_LINE }
        ensures { Takes side result self.old window.now self.new }
    {
        let known = self.starts.len();
        match self.try_take(side, window) {
            Ok(Reading::Goes(lexer)) => Ok(Reading::Goes(lexer)),
            Ok(Reading::Ends(count)) => Ok(Reading::Ends(count)),
            Ok(Reading::Unfit(at)) => {
                self.starts.truncate(known);
                Ok(Reading::Unfit(at))
            }
            Err(Memory) => {
                self.starts.truncate(known);
                Err(Memory)
            }
        }
    }

    // Takes the bytes of a window that belong to the line.
    fn try_take(&mut self, side: Side, window: &[u8]) -> Result<Reading, Memory>
        requires line { IsLine side self.old }
        requires room { length self.old.text.items + length window.now ≤ LONGEST_LINE }
        ensures { Tries side result self.old window.now self.new }
    {
        match self.take_whole(side, window)? {
            Some(count) => Ok(Reading::Ends(count)),
            None => self.take_further(side, window),
        }
    }

    // Takes the line that a window begins with, if nothing has come of it and it is whole there.
    #[inline(always)]
    fn take_whole(&mut self, side: Side, window: &[u8]) -> Result<Option<usize>, Memory>
        requires line { IsLine side self.old }
        requires room { length self.old.text.items + length window.now ≤ LONGEST_LINE }
        ensures { TakesWhole side result self.old window.now self.new }
    {
        if !self.text.is_empty() {
            return Ok(None);
        }
        match whole_line(window, &mut self.starts)? {
            Some(count) => {
                self.text.extend_from_slice(&window[..count])?;
                Ok(Some(count))
            }
            None => {
                self.starts.clear();
                Ok(None)
            }
        }
    }

    // Takes the bytes of a window that belong to the line, one after the other.
    #[inline(never)]
    fn take_further(&mut self, side: Side, window: &[u8]) -> Result<Reading, Memory>
        requires line { IsLine side self.old }
        requires room { length self.old.text.items + length window.now ≤ LONGEST_LINE }
        ensures { Tries side result self.old window.now self.new }
    {
        match read_window(
            side,
            self.text.as_slice(),
            self.lexer,
            window,
            &mut self.starts,
        )? {
            Reading::Goes(lexer) => {
                self.text.extend_from_slice(window)?;
                self.lexer = lexer;
                Ok(Reading::Goes(lexer))
            }
            Reading::Ends(count) => {
                self.text.extend_from_slice(&window[..count])?;
                Ok(Reading::Ends(count))
            }
            Reading::Unfit(at) => Ok(Reading::Unfit(at)),
        }
    }

    // The fault of a byte that is one too many, or fits nowhere.
    fn fault_at(&self, side: Side, place: u64, rest: &[u8]) -> Fault
        requires line { IsLine side self.now }
        requires some { 0 < length rest.now }
        requires full { place < LONGEST_STREAM
            → LONGEST_LINE ≤ length self.now.text.items }
        ensures { FailsAt side place self.now.text.items rest.now result }
    {
        match self.lexer.step(side, self.text.as_slice(), &rest[..1], 0) {
            Step::Unfit => Fault::Malformed(place),
            _ if place < LONGEST_STREAM => Fault::LineTooLong(place),
            _ => Fault::Malformed(place),
        }
    }

    /// The line, whose line feed is at that place, if it is not blank.
    pub fn into_unit(self, end: u64) -> Option<Unit>
        requires { AreTokens self.text.items self.starts.items }
        ensures { option_to_list result
            ≡ units_at (tokens_of self.text.items self.starts.items) end }
    {
        if self.starts.is_empty() {
            None
        } else {
            Some(Unit::Line(Line::of(self.text, self.starts, end)))
        }
    }
}

// The bytes at the start of a piece that a line of so many bytes may have.
fn window_of(begun: usize, place: u64, piece: &[u8]) -> &[u8]
    requires begun { begun ≤ LONGEST_LINE }
    requires early { place ≤ LONGEST_STREAM }
    ensures prefix { result.now ≡ take (length result.now) piece.now }
    ensures within { length result.now ≤ length piece.now }
    ensures short { begun + length result.now ≤ LONGEST_LINE }
    ensures place { place + length result.now ≤ LONGEST_STREAM }
    ensures full { length result.now ≢ length piece.now
        → place + length result.now < LONGEST_STREAM
        → LONGEST_LINE ≤ begun + length result.now }
{
    let count = piece.len().min(LONGEST_LINE - begun);
    let left = LONGEST_STREAM - place;
    if left < count as u64 {
        &piece[..left as usize]
    } else {
        &piece[..count]
    }
}

// Reads the bytes of a window, and adds the places of the tokens that end in it.
fn read_window(
    side: Side,
    text: &[u8],
    lexer: Lexer,
    window: &[u8],
    starts: &mut LineStarts,
) -> Result<Reading, Memory>
    requires begun { IsBegun side text.now starts.old.items lexer }
    requires room { length text.now + length window.now ≤ LONGEST_LINE }
    ensures reads { Reads side result text.now window.now starts.new.items }
    ensures extends { Extends starts.old.items starts.new.items }
{
    let mut lexer = lexer;
    let mut at = 0;
    while at < window.len() {
        match lexer.step(side, text, window, at) {
            Step::Goes(count, start, next) => {
                keep(starts, start)?;
                lexer = next;
                at += count;
            }
            Step::Ends(start) => {
                keep(starts, start)?;
                return Ok(Reading::Ends(at + 1));
            }
            Step::Unfit => return Ok(Reading::Unfit(at)),
        }
    }
    Ok(Reading::Goes(lexer))
}

// Adds the place of the token that has ended, if one has.
#[inline(always)]
fn keep(starts: &mut LineStarts, start: Option<u32>) -> Result<(), Memory>
    ensures ok { OnOk result (starts.new.items ≡ starts.old.items ++ option_to_list start) }
    ensures err { OnErr result (starts.new.items ≡ starts.old.items) }
{
    match start {
        None => Ok(()),
        Some(start) => {
            starts.push(start)?;
            Ok(())
        }
    }
}

/// The lines of a piece of the stream that begins with a line, at this place. An empty queue is
/// used for them.
pub fn lines_of(
    empty: VecDeque<Unit>,
    side: Side,
    place: u64,
    piece: &[u8],
) -> Result<Lines, Memory>
    requires empty { empty.items ≡ [] }
    requires early { place ≤ LONGEST_STREAM }
    ensures { IfOk result (λ lines. AreLines side lines place piece.now) }
{
    let alloc = *empty.allocator();
    let mut whole = empty;
    let mut begun = BegunLine::new(alloc);
    let mut at = 0;
    while at < piece.len() {
        match add_whole(&mut whole, place + at as u64, &piece[at..])? {
            Some(count) => at += count,
            None => match begun.scan(side, place + at as u64, &piece[at..])? {
                Scan::Goes => {
                    return Ok(Lines {
                        whole,
                        begun,
                        fault: None,
                    });
                }
                Scan::Fails(found) => {
                    return Ok(Lines {
                        whole,
                        begun,
                        fault: Some(found),
                    });
                }
                Scan::Ends(count) => {
                    at += count;
                    let line = mem::replace(&mut begun, BegunLine::new(alloc));
                    add(&mut whole, line.into_unit(place + at as u64 - 1))?;
                }
            },
        }
    }
    Ok(Lines {
        whole,
        begun,
        fault: None,
    })
}

/// Adds the lines of a piece to the units, if each is whole there and needs no lexer, and says
/// whether it did. Else nothing is added.
pub fn add_all(units: &mut VecDeque<Unit>, place: u64, piece: &[u8]) -> Result<bool, Memory>
    requires early { place ≤ LONGEST_STREAM }
    ensures all { IfOk result (λ all. all ≡ true
        → AddsAll place piece.now units.old.items units.new.items) }
    ensures none { result ≢ Ok true → units.new.items ≡ units.old.items }
{
    let known = units.len();
    match add_lines(units, place, piece) {
        Ok(true) => Ok(true),
        Ok(false) => {
            units.truncate(known);
            Ok(false)
        }
        Err(Memory) => {
            units.truncate(known);
            Err(Memory)
        }
    }
}

// The same, where those lines may have been added that are before another one.
#[tactic(auto, using(crate::proofs::WholeLines::adds_after))]
fn add_lines(units: &mut VecDeque<Unit>, place: u64, piece: &[u8]) -> Result<bool, Memory>
    requires early { place ≤ LONGEST_STREAM }
    ensures all { IfOk result (λ all. all ≡ true
        → AddsAll place piece.now units.old.items units.new.items) }
    ensures kept { take (length units.old.items) units.new.items ≡ units.old.items }
{
    let mut at = 0;
    while at < piece.len() {
        match add_whole(units, place + at as u64, &piece[at..])? {
            Some(count) => at += count,
            None => return Ok(false),
        }
    }
    Ok(true)
}

// Adds the line with which a piece begins, if it is whole there and needs no lexer, and tells how
// many bytes it has. No line that has begun is made of it first.
#[inline(always)]
fn add_whole(units: &mut VecDeque<Unit>, place: u64, piece: &[u8]) -> Result<Option<usize>, Memory>
    requires early { place ≤ LONGEST_STREAM }
    ensures { AddsLine result place piece.now units.old.items units.new.items }
{
    let alloc = *units.allocator();
    let window = window_of(0, place, piece);
    let mut starts = SmallVec::new(alloc);
    match whole_line(window, &mut starts)? {
        None => Ok(None),
        Some(count) => {
            if starts.is_empty() {
                return Ok(Some(count));
            }
            let text = text_of(alloc, window, count)?;
            let end = place + count as u64 - 1;
            units.reserve(1)?;
            units.push_back_reserved(Unit::Line(Line::of(text, starts, end)));
            Ok(Some(count))
        }
    }
}

// So many bytes at the start of a window. A short text of a window that is long enough is copied
// with what is after it: a copy of a fixed length needs no call.
#[inline(always)]
fn text_of(alloc: Global, window: &[u8], count: usize) -> Result<LineText, Memory>
    requires { count ≤ length window.now }
    ensures { IfOk result (λ text. text.items ≡ take count window.now) }
{
    if count <= SHORT && SHORT <= window.len() {
        let mut bytes = [0; SHORT];
        bytes.copy_from_slice(&window[..SHORT]);
        return Ok(SmallVec::from_buf_and_len(alloc, bytes, count));
    }
    Ok(SmallVec::from_slice(alloc, &window[..count])?)
}

// Adds a unit at the end, if there is one.
fn add(units: &mut VecDeque<Unit>, unit: Option<Unit>) -> Result<(), Memory>
    ensures ok { OnOk result (units.new.items ≡ units.old.items ++ option_to_list unit) }
{
    match unit {
        None => Ok(()),
        Some(unit) => {
            units.push_back(unit)?;
            Ok(())
        }
    }
}
