ghost use Rattle.std.specs.Prelude.{◌≡◌, ◌+◌, ◌-◌, ◌≤◌, false, [], ◌++◌, IfOk, option_to_list};
ghost use Rattle.std.specs.VecDeque.{deque_len, deque_capacity};
ghost use Rattle.kom_types.specs.declared.limits.TheConstants.{LONGEST_STREAM};
ghost use Rattle.kom_types.specs.Stream as stream;
ghost use Rattle.kom_framing.specs.WholeLines.{AreLines};
ghost use Rattle.kom_framing.specs.Splitting.{InLine};
ghost use Rattle.kom_framing.specs.Advancing.{begun_seen, IsBegunUnit, IsMark, Restores, ScansUnit};
ghost use Rattle.kom_framing.specs.Advancing.{units_ended, CanEnd, Advances, Follows};
ghost use Rattle.kom_framing.specs.Room.{HasRoom, HasRoomFor};

use crate::fault::Fault;
use crate::greeting::{Greeting, Phase};
use crate::lexer::Lexer;
use crate::lines::{BegunLine, Lines, Scan, add_all, lines_of};
use crate::units::Unit;
use kom_types::{Bytes, Memory, Side};
use std::collections::VecDeque;
use std::mem;

/// The unit that has begun.
#[derive(Debug, Drop)]
pub enum BegunUnit {
    Greeting(Greeting),
    Line(BegunLine),
}

/// How much of a unit has come, to go back to.
#[derive(Clone, Copy, Debug)]
pub enum Mark {
    /// How far the greeting has come, and how many bytes of its name.
    Greeting {
        phase: Phase,
        name: usize,
    },
    /// How far the last token has come, and how many bytes and whole tokens of the line.
    Line {
        lexer: Lexer,
        text: usize,
        starts: usize,
    },
}

/// How the unit that has begun went on with a piece of the stream.
#[derive(Debug, Drop)]
pub enum Advanced {
    /// It took the whole piece.
    Goes,
    /// It ends with the last of so many bytes, and these lines are after it.
    Ends(usize, Lines),
    /// It is at fault.
    Fails(Fault),
}

/// Takes a piece of the stream, or changes nothing.
pub fn follow(
    side: Side,
    units: &mut VecDeque<Unit>,
    begun: &mut BegunUnit,
    place: u64,
    piece: &[u8],
) -> Result<Option<Fault>, Memory>
    requires kept { IsBegunUnit side begun.old }
    requires early { place ≤ LONGEST_STREAM }
    ensures follows { Follows side result units.old.items begun.old place piece.now units.new.items
        begun.new }
    ensures kept { IsBegunUnit side begun.new }
{
    if begun.has_begun() || !ends_line(piece) {
        return follow_begun(side, units, begun, place, piece);
    }
    let all = add_all(units, place, piece)?;
    if all {
        return Ok(None);
    }
    follow_begun(side, units, begun, place, piece)
}

// Whether a piece may be whole lines.
fn ends_line(piece: &[u8]) -> bool {
    match piece.last() {
        Some(byte) => *byte == b'\n',
        None => false,
    }
}

// The same, by the unit that has begun first.
fn follow_begun(
    side: Side,
    units: &mut VecDeque<Unit>,
    begun: &mut BegunUnit,
    place: u64,
    piece: &[u8],
) -> Result<Option<Fault>, Memory>
    requires kept { IsBegunUnit side begun.old }
    requires early { place ≤ LONGEST_STREAM }
    ensures follows { Follows side result units.old.items begun.old place piece.now units.new.items
        begun.new }
    ensures kept { IsBegunUnit side begun.new }
{
    match advance(side, units, begun, place, piece)? {
        Advanced::Goes => Ok(None),
        Advanced::Fails(found) => Ok(Some(found)),
        Advanced::Ends(count, lines) => {
            let fault = lines.fault;
            let ended = mem::replace(begun, BegunUnit::Line(lines.begun));
            let unit = ended.into_unit(place + count as u64 - 1);
            store(units, unit, lines.whole);
            Ok(fault)
        }
    }
}

// Goes on with the unit that has begun, and has room for the units that have ended, or changes
// nothing.
fn advance(
    side: Side,
    units: &mut VecDeque<Unit>,
    begun: &mut BegunUnit,
    place: u64,
    piece: &[u8],
) -> Result<Advanced, Memory>
    requires kept { IsBegunUnit side begun.old }
    requires early { place ≤ LONGEST_STREAM }
    ensures advances { Advances side result units.old.items begun.old place piece.now begun.new }
    ensures units { units.new.items ≡ units.old.items }
    ensures room { IfOk result (HasRoom (deque_len units.new) (deque_capacity units.new)) }
{
    let mark = begun.mark();
    match begun.scan(side, place, piece)? {
        Scan::Goes => Ok(Advanced::Goes),
        Scan::Fails(found) => Ok(Advanced::Fails(found)),
        Scan::Ends(count) => match lines_after(side, units, place + count as u64, &piece[count..]) {
            Ok(lines) => Ok(Advanced::Ends(count, lines)),
            Err(Memory) => {
                begun.go_back(mark);
                Err(Memory)
            }
        },
    }
}

// The lines after the end of a unit, with room for the unit before them.
fn lines_after(
    side: Side,
    units: &mut VecDeque<Unit>,
    place: u64,
    rest: &[u8],
) -> Result<Lines, Memory>
    requires { place ≤ LONGEST_STREAM }
    ensures lines { IfOk result (λ lines. AreLines side lines place rest.now) }
    ensures room { IfOk result (λ lines. HasRoomFor (deque_len units.new) (deque_capacity units.new)
        (deque_len lines.whole) (deque_capacity lines.whole)) }
    ensures units { units.new.items ≡ units.old.items }
{
    let mut lines = lines_of(spare_queue(units), side, place, rest)?;
    lines.whole.reserve(1)?;
    if !units.is_empty() {
        units.reserve(lines.whole.len() + 1)?;
    }
    Ok(lines)
}

// An empty queue: the one of the units, with its memory, where that is empty.
fn spare_queue(units: &mut VecDeque<Unit>) -> VecDeque<Unit>
    ensures empty { result.items ≡ [] }
    ensures units { units.new.items ≡ units.old.items }
{
    let other = VecDeque::new(*units.allocator());
    if units.is_empty() {
        mem::replace(units, other)
    } else {
        other
    }
}

impl BegunUnit {
    // Whether it is the greeting, or a line of which something has come.
    fn has_begun(&self) -> bool
        ensures { result ≡ false → begun_seen self.now ≡ InLine [] }
    {
        match self {
            BegunUnit::Greeting(_) => true,
            BegunUnit::Line(line) => !line.text.is_empty(),
        }
    }

    // How much of the unit has come.
    fn mark(&self) -> Mark
        ensures { IsMark result self.now }
    {
        match self {
            BegunUnit::Greeting(greeting) => Mark::Greeting {
                phase: greeting.phase,
                name: greeting.name.len(),
            },
            BegunUnit::Line(line) => Mark::Line {
                lexer: line.lexer,
                text: line.text.len(),
                starts: line.starts.len(),
            },
        }
    }

    // Takes the bytes of a piece that belong to the unit.
    fn scan(&mut self, side: Side, place: u64, piece: &[u8]) -> Result<Scan, Memory>
        requires kept { IsBegunUnit side self.old }
        requires early { place ≤ LONGEST_STREAM }
        ensures { ScansUnit side result place self.old piece.now self.new }
    {
        match self {
            BegunUnit::Greeting(greeting) => greeting.scan(place, piece),
            BegunUnit::Line(line) => line.scan(side, place, piece),
        }
    }

    // Takes away what came after the mark.
    fn go_back(&mut self, mark: Mark)
        ensures { Restores mark self.old self.new }
    {
        match mark {
            Mark::Greeting { phase, name } => {
                if let BegunUnit::Greeting(greeting) = self {
                    greeting.name.truncate(name);
                    greeting.phase = phase;
                }
            }
            Mark::Line {
                lexer,
                text,
                starts,
            } => {
                if let BegunUnit::Line(line) = self {
                    line.text.truncate(text);
                    line.starts.truncate(starts);
                    line.lexer = lexer;
                }
            }
        }
    }

    // The unit that ends at that place, if it is no blank line.
    fn into_unit(self, end: u64) -> Option<Unit>
        requires { CanEnd self }
        ensures { option_to_list result ≡ units_ended self end }
    {
        match self {
            BegunUnit::Greeting(greeting) => Some(Unit::Hello(Bytes::of(greeting.name))),
            BegunUnit::Line(line) => line.into_unit(end),
        }
    }
}

// Adds the units, for which there is room. Where no other waits, no line is moved.
fn store(units: &mut VecDeque<Unit>, unit: Option<Unit>, lines: VecDeque<Unit>)
    requires { HasRoomFor (deque_len units.old) (deque_capacity units.old) (deque_len lines)
        (deque_capacity lines) }
    ensures { units.new.items ≡ units.old.items ++ option_to_list unit ++ lines.items }
{
    let mut lines = lines;
    if units.is_empty() {
        if let Some(unit) = unit {
            let _ = lines.push_front(unit);
        }
        *units = lines;
    } else {
        if let Some(unit) = unit {
            let _ = units.push_back(unit);
        }
        let _ = units.append(&mut lines);
    }
}
