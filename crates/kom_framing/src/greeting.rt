ghost use Rattle.std.specs.Prelude.{◌≡◌, ◌≢◌, ℕ, ◌+◌, ◌^◌, ◌<◌, ◌≤◌, List, [], Ok, length, take};
ghost use Rattle.std.specs.Prelude.{get_or};
ghost use Rattle.kom_types.specs.Grammar.{welcome};
ghost use Rattle.kom_framing.specs.BegunGreetings.{IsBegunGreeting, IsGreeting, greeting_kept};
ghost use Rattle.kom_framing.specs.BegunGreetings.{Hears, IsLength, Lengthens, ScansGreeting};
ghost use Rattle.kom_framing.specs.BegunGreetings.{Turns, AreLetters};
ghost use Rattle.kom_framing.specs.Splitting.{opening_of};

use crate::fault::Fault;
use crate::lines::Scan;
use kom_types::limits::{LONGEST_STREAM, LONGEST_USER_NAME};
use kom_types::{ByteKind, Memory, Side, kind_of_byte};
use std::alloc::Global;

/// How far a greeting has come.
#[derive(Clone, Copy, Debug)]
pub enum Phase {
    /// Nothing of a client's greeting.
    Nothing,
    /// Its letter, and perhaps blanks.
    Letter,
    /// So many digits of the name's length, and the number that they spell.
    Length { digits: usize, number: usize },
    /// The name's length, and perhaps bytes of the name.
    Name { length: usize },
    /// So many letters of a server's greeting.
    Letters { heard: usize },
}

/// A greeting that has begun.
#[derive(Debug, Drop)]
pub struct Greeting {
    pub phase: Phase,
    pub name: Vec<u8>,
}

/// What the next byte is to a greeting.
#[derive(Clone, Copy, Debug)]
pub enum Turn {
    /// The greeting has come that far.
    Goes(Phase),
    /// The greeting ends with the byte.
    Ends,
    /// The byte fits nowhere.
    Unfit,
}

/// How far a greeting went through a window.
#[derive(Clone, Copy, Debug)]
pub enum Heard {
    Goes(Phase),
    Ends(usize),
    Unfit(usize),
}

impl Greeting {
    /// A greeting of which nothing has come.
    pub fn new(alloc: Global, side: Side) -> Greeting
        ensures greeting { IsBegunGreeting result }
        ensures nothing { greeting_kept result ≡ opening_of side [] }
    {
        Greeting {
            phase: match side {
                Side::Client => Phase::Nothing,
                Side::Server => Phase::Letters { heard: 0 },
            },
            name: Vec::new(alloc),
        }
    }

    /// Takes the bytes of a piece that belong to the greeting.
    pub fn scan(&mut self, place: u64, piece: &[u8]) -> Result<Scan, Memory>
        requires greeting { IsBegunGreeting self.old }
        requires early { place ≤ LONGEST_STREAM }
        ensures { ScansGreeting result place self.old piece.now self.new }
    {
        let window = window_of(place, piece);
        let known = self.name.len();
        match hear_window(self.phase, window, &mut self.name) {
            Ok(Heard::Goes(phase)) => {
                self.phase = phase;
                if window.len() == piece.len() {
                    return Ok(Scan::Goes);
                }
                Ok(Scan::Fails(Fault::Malformed(place + window.len() as u64)))
            }
            Ok(Heard::Ends(count)) => Ok(Scan::Ends(count)),
            Ok(Heard::Unfit(at)) => {
                self.name.truncate(known);
                Ok(Scan::Fails(Fault::Malformed(place + at as u64)))
            }
            Err(Memory) => {
                self.name.truncate(known);
                Err(Memory)
            }
        }
    }
}

// The bytes at the start of a piece that a stream may have.
fn window_of(place: u64, piece: &[u8]) -> &[u8]
    requires { place ≤ LONGEST_STREAM }
    ensures prefix { result.now ≡ take (length result.now) piece.now }
    ensures within { length result.now ≤ length piece.now }
    ensures place { place + length result.now ≤ LONGEST_STREAM }
    ensures full { length result.now ≢ length piece.now
        → place + length result.now ≡ LONGEST_STREAM }
{
    let left = LONGEST_STREAM - place;
    if left < piece.len() as u64 {
        &piece[..left as usize]
    } else {
        piece
    }
}

// Goes through a window, and adds the bytes of the name.
fn hear_window(phase: Phase, window: &[u8], name: &mut Vec<u8>) -> Result<Heard, Memory>
    requires { IsGreeting phase name.old.items }
    ensures hears { Hears result phase name.old.items window.now name.new.items }
    ensures lengthens { Lengthens name.old.items name.new.items }
{
    let mut phase = phase;
    let mut at = 0;
    while at < window.len() {
        match hear_byte(phase, window[at], name)? {
            Turn::Goes(next) => phase = next,
            Turn::Ends => return Ok(Heard::Ends(at + 1)),
            Turn::Unfit => return Ok(Heard::Unfit(at)),
        }
        at += 1;
    }
    Ok(Heard::Goes(phase))
}

// Takes a byte, and adds it to the name if it is one of the name's.
fn hear_byte(phase: Phase, byte: u8, name: &mut Vec<u8>) -> Result<Turn, Memory>
    requires { IsGreeting phase name.old.items }
    ensures turns { Turns result phase name.old.items byte name.new.items }
    ensures lengthens { Lengthens name.old.items name.new.items }
{
    match phase {
        Phase::Nothing => Ok(turn_at_start(byte)),
        Phase::Letter => Ok(turn_after_letter(byte)),
        Phase::Length { digits, number } => Ok(turn_in_length(digits, number, byte)),
        Phase::Letters { heard } => Ok(turn_in_letters(heard, byte)),
        Phase::Name { length } => {
            name.push(byte)?;
            if name.len() == length {
                Ok(Turn::Ends)
            } else {
                Ok(Turn::Goes(Phase::Name { length }))
            }
        }
    }
}

// The first byte.
fn turn_at_start(byte: u8) -> Turn
    ensures { (turned : List ℕ) → turned ≡ [] → Turns (Ok result) Phase.Nothing turned byte turned }
{
    if byte == b'A' {
        Turn::Goes(Phase::Letter)
    } else {
        Turn::Unfit
    }
}

// A byte after the letter, and perhaps blanks.
fn turn_after_letter(byte: u8) -> Turn
    ensures { (turned : List ℕ) → turned ≡ [] → Turns (Ok result) Phase.Letter turned byte turned }
{
    match kind_of_byte(byte) {
        ByteKind::Blank => Turn::Goes(Phase::Letter),
        ByteKind::Digit => {
            let number = (byte - b'0') as usize;
            Turn::Goes(Phase::Length { digits: 1, number })
        }
        _ => Turn::Unfit,
    }
}

// A byte after digits of the name's length.
fn turn_in_length(digits: usize, number: usize, byte: u8) -> Turn
    requires few { digits ≤ 4 }
    requires small { number < 10 ^ digits }
    ensures { (turned : List ℕ) → IsLength digits number turned
        → Turns (Ok result) (Phase.Length digits number) turned byte turned }
{
    match kind_of_byte(byte) {
        ByteKind::Digit => {
            if digits < 4 {
                let number = 10 * number + (byte - b'0') as usize;
                let digits = digits + 1;
                Turn::Goes(Phase::Length { digits, number })
            } else {
                Turn::Unfit
            }
        }
        ByteKind::Hollerith => {
            if number == 0 {
                Turn::Ends
            } else if number <= LONGEST_USER_NAME {
                Turn::Goes(Phase::Name { length: number })
            } else {
                Turn::Unfit
            }
        }
        _ => Turn::Unfit,
    }
}

// A byte after so many letters of a server's greeting.
fn turn_in_letters(heard: usize, byte: u8) -> Turn
    requires { heard < 7 }
    ensures { (turned : List ℕ) → AreLetters heard turned
        → Turns (Ok result) (Phase.Letters heard) turned byte turned }
{
    if byte != letter_at(heard) {
        Turn::Unfit
    } else if heard < 6 {
        let heard = heard + 1;
        Turn::Goes(Phase::Letters { heard })
    } else {
        Turn::Ends
    }
}

// The letter after so many of a server's greeting.
fn letter_at(heard: usize) -> u8
    requires { heard < 7 }
    ensures { result ≡ get_or welcome heard 0 }
{
    match heard {
        0 => b'L',
        1 => b'y',
        2 => b's',
        3 => b'K',
        4 => b'O',
        5 => b'M',
        _ => b'\n',
    }
}
