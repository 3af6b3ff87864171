ghost use Rattle.std.specs.Prelude.{◌≡◌, ◌-◌, ◌≤◌, true, [], ◌∷◌, length, take, OnOk, OnErr};
ghost use Rattle.std.specs.Fmt.{decimal};
ghost use Rattle.kom_types.specs.spellings.Words.{bit_string, hollerith};
ghost use Rattle.kom_types.specs.ByteKind.{is_sign};
ghost use Rattle.kom_framing.specs.Writing.{put, put_word, put_numbers, end_line};

use crate::placing::{
    make_room, place_byte, place_mark, place_number, place_numbers, place_string, place_word,
};
use kom_types::Memory;
use std::alloc::Global;
use std::marker::Model;

/// Where a writer stood: how much it had written, and whether the next word was to follow without a
/// space.
#[derive(Clone, Copy, Debug)]
pub struct Place {
    pub length: usize,
    pub joined: bool,
}

/// The lines of replies, written word by word into a buffer that is kept and used again.
#[derive(Debug, Drop)]
pub struct Writer {
    out: Vec<u8>,
    used: usize,
    joined: bool,
}

impl Model for Writer {
    ghost use Rattle.std.specs.Prelude.{◌≤◌, take, length};
    ghost use Rattle.kom_framing.specs.Writing.{Written};

    ghost Value = { Written };

    ghost view = { λ w. record { bytes = take w.used w.out.items; joined = w.joined } };

    ghost invariant = { λ w. w.used ≤ length w.out.items };
}

impl Writer {
    /// A writer that has written nothing.
    pub fn new(alloc: Global) -> Writer
        ensures { result ≡ record { bytes = []; joined = true } }
    {
        Writer {
            out: Vec::new(alloc),
            used: 0,
            joined: true,
        }
    }

    /// Writes an integer, without leading zeros.
    pub fn number(&mut self, n: u32) -> Result<(), Memory>
        ensures ok { OnOk result (self.new ≡ put_word (decimal n) self.old) }
        ensures err { OnErr result (self.new ≡ self.old) }
    {
        make_room(&mut self.out, self.used, 11)?;
        self.used = place_number(self.out.as_mut_slice(), self.used, self.joined, n);
        self.joined = false;
        Ok(())
    }

    /// Writes integers, without leading zeros: so many that room for all of them is little.
    pub fn numbers(&mut self, values: &[u32]) -> Result<(), Memory>
        requires { length values.now ≤ 256 }
        ensures ok { OnOk result (self.new ≡ put_numbers values.now self.old) }
        ensures err { OnErr result (self.new ≡ self.old) }
    {
        if values.is_empty() {
            return Ok(());
        }
        make_room(&mut self.out, self.used, 11 * values.len())?;
        self.used = place_numbers(self.out.as_mut_slice(), self.used, self.joined, values);
        self.joined = false;
        Ok(())
    }

    /// Writes the last `width` bits of a number, the highest first.
    pub fn bits(&mut self, bits: u16, width: u8) -> Result<(), Memory>
        requires some { 1 ≤ width }
        requires within { width ≤ 16 }
        ensures ok { OnOk result (self.new ≡ put_word (bit_string bits width) self.old) }
        ensures err { OnErr result (self.new ≡ self.old) }
    {
        let digits = digits_of(bits, width);
        self.word(&digits[..width as usize])
    }

    /// Writes a string with its length before it.
    pub fn text(&mut self, text: &[u8]) -> Result<(), Memory>
        ensures ok { OnOk result (self.new ≡ put_word (hollerith text.now) self.old) }
        ensures err { OnErr result (self.new ≡ self.old) }
    {
        make_room(&mut self.out, self.used, text.len() + 22)?;
        self.used = place_string(self.out.as_mut_slice(), self.used, self.joined, text);
        self.joined = false;
        Ok(())
    }

    /// Writes a byte that is a word of its own, as a brace, or a sign before a reference, as `=`.
    pub fn mark(&mut self, byte: u8) -> Result<(), Memory>
        ensures ok { OnOk result (self.new ≡ put (byte ∷ []) (is_sign byte) self.old) }
        ensures err { OnErr result (self.new ≡ self.old) }
    {
        make_room(&mut self.out, self.used, 2)?;
        self.used = place_mark(self.out.as_mut_slice(), self.used, self.joined, byte);
        self.joined = byte == b'=' || byte == b'%' || byte == b':';
        Ok(())
    }

    /// Writes a word as it stands.
    pub fn word(&mut self, word: &[u8]) -> Result<(), Memory>
        ensures ok { OnOk result (self.new ≡ put_word word.now self.old) }
        ensures err { OnErr result (self.new ≡ self.old) }
    {
        make_room(&mut self.out, self.used, word.len() + 1)?;
        self.used = place_word(self.out.as_mut_slice(), self.used, self.joined, word);
        self.joined = false;
        Ok(())
    }

    /// Ends the line.
    pub fn end_line(&mut self) -> Result<(), Memory>
        ensures ok { OnOk result (self.new ≡ end_line self.old) }
        ensures err { OnErr result (self.new ≡ self.old) }
    {
        make_room(&mut self.out, self.used, 1)?;
        self.used = place_byte(self.out.as_mut_slice(), self.used, b'\n');
        self.joined = true;
        Ok(())
    }

    /// Begins a line: what follows is written without a space before it.
    pub fn begin_line(&mut self)
        ensures { self.new ≡ record self.old { joined = true } }
    {
        self.joined = true;
    }

    /// Where the writer stands, for `cut_back`.
    pub fn mark_place(&self) -> Place
        ensures length { result.length ≡ length self.now.bytes }
        ensures joined { result.joined ≡ self.now.joined }
    {
        Place {
            length: self.used,
            joined: self.joined,
        }
    }

    /// Forgets what was written since the writer stood there.
    pub fn cut_back(&mut self, place: Place)
        ensures { self.new
            ≡ record { bytes = take place.length self.old.bytes; joined = place.joined } }
    {
        self.used = self.used.min(place.length);
        self.joined = place.joined;
    }

    /// What was written since the last `clear`.
    pub fn bytes(&self) -> &[u8]
        ensures { result.now ≡ self.now.bytes }
    {
        &self.out.as_slice()[..self.used]
    }

    /// Forgets what was written, and keeps the memory for what comes.
    pub fn clear(&mut self)
        ensures { self.new ≡ record { bytes = []; joined = true } }
    {
        self.used = 0;
        self.joined = true;
    }
}

// The last `width` bits of a number as digits, and anything after them.
fn digits_of(bits: u16, width: u8) -> [u8; 16]
    requires { width ≤ 16 }
    ensures { take width result ≡ bit_string bits width }
{
    let mut digits = [b'0'; 16];
    for place in 0..width {
        let bit = (bits >> (width - 1 - place)) % 2;
        digits[place as usize] = b'0' + bit as u8;
    }
    digits
}
