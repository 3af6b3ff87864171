ghost use Rattle.std.specs.Prelude.{◌≡◌, ◌≤◌, ◌^◌, length, drop, true, false};
ghost use Rattle.kom_types.specs.calls.Arguments as argument;
ghost use Rattle.kom_records.specs.Records.{is_star_next};
ghost use Rattle.kom_records.specs.Rules as rule;
ghost use Rattle.kom_records.specs.Telling.{Next, ReadsAs, Ends, Boxes};

use crate::fault::ReadFault;
use crate::numbers::{bits_in, number_in};
use kom_framing::{Line, Token};
use kom_types::{Boxed, Bytes};
use std::alloc::Global;
use std::marker::Model;

/// The tokens of a line that are left.
#[derive(Drop)]
pub(crate) struct Tokens<'a> {
    line: &'a Line,
    place: usize,
    alloc: Global,
}

impl<'a> Model for Tokens<'a> {
    ghost use Rattle.std.specs.Prelude.{◌≤◌, List, length, drop};
    ghost use Rattle.kom_types.specs.Token.{Token};

    ghost Value = { List Token };

    ghost view = { λ t. drop t.place t.line.now.tokens };

    ghost invariant = { λ t. t.place ≤ length t.line.now.tokens };
}

/// A sign and the number directly after it, with which a server's line begins.
#[derive(Clone, Copy, Debug)]
pub(crate) struct Head {
    pub(crate) sign: u8,
    pub(crate) number: u32,
}

impl<'a> Tokens<'a> {
    /// All tokens of a line. What is read of them is allocated there.
    pub(crate) fn of(alloc: Global, line: &'a Line) -> Tokens<'a>
        ensures { result ≡ line.now.tokens }
    {
        Tokens {
            line,
            place: 0,
            alloc,
        }
    }

    /// Where what is read is allocated.
    pub(crate) fn allocator(&self) -> Global {
        self.alloc
    }

    /// How many tokens are left.
    pub(crate) fn len(&self) -> usize
        ensures { result ≡ length self.now }
    {
        self.line.len() - self.place
    }

    /// Takes the next token.
    pub(crate) fn next(&mut self) -> Option<Token<'a>>
        ensures { Next result self.old self.new }
    {
        let line = self.line;
        let place = self.place;
        if place < line.len() {
            self.place = place + 1;
            Some(line.token(place))
        } else {
            None
        }
    }

    /// Whether a star is next.
    pub(crate) fn is_starred(&self) -> bool
        ensures { result ≡ is_star_next self.now }
    {
        let mut ahead = self.ahead();
        match ahead.next() {
            Some(Token::Star) => true,
            _ => false,
        }
    }

    // The same tokens, to look ahead.
    fn ahead(&self) -> Tokens<'a>
        ensures { result ≡ self.now }
    {
        Tokens {
            line: self.line,
            place: self.place,
            alloc: self.alloc,
        }
    }

    /// Takes the sign with which a line begins, and its number.
    pub(crate) fn head(&mut self) -> Result<Head, ReadFault>
        ensures { ReadsAs false (rule.head self.old) result self.new }
    {
        match self.next() {
            Some(Token::Signed(sign, digits)) => match number_in(digits) {
                Some(number) => Ok(Head { sign, number }),
                None => Err(ReadFault::Departs),
            },
            _ => Err(ReadFault::Departs),
        }
    }

    /// Takes a number.
    pub(crate) fn number(&mut self) -> Result<u32, ReadFault>
        ensures { ReadsAs false (rule.number self.old) result self.new }
    {
        match self.next() {
            Some(Token::Digits(digits)) => number_in(digits).ok_or(ReadFault::Departs),
            _ => Err(ReadFault::Departs),
        }
    }

    /// Takes a number that ends at 255.
    pub(crate) fn byte(&mut self) -> Result<u8, ReadFault>
        ensures { ReadsAs false (rule.byte self.old) result self.new }
    {
        let number = self.number()?;
        if number <= 255 {
            Ok(number as u8)
        } else {
            Err(ReadFault::Departs)
        }
    }

    /// Takes a truth value.
    pub(crate) fn flag(&mut self) -> Result<bool, ReadFault>
        ensures { ReadsAs false (rule.flag self.old) result self.new }
    {
        match self.number()? {
            0 => Ok(false),
            1 => Ok(true),
            _ => Err(ReadFault::Departs),
        }
    }

    /// Takes a string, of which it makes a copy.
    pub(crate) fn string(&mut self) -> Result<Bytes, ReadFault>
        ensures { ReadsAs true (rule.text self.old) result self.new }
    {
        match self.next() {
            Some(Token::Text(text)) => {
                if text.len() > u32::MAX as usize {
                    return Err(ReadFault::Departs);
                }
                Ok(Bytes::copy_of(self.alloc, text)?)
            }
            _ => Err(ReadFault::Departs),
        }
    }

    /// Takes eight binary digits.
    pub(crate) fn bits_8(&mut self) -> Result<u8, ReadFault>
        ensures { ReadsAs false (argument.bits 8 self.old) result self.new }
    {
        match self.next() {
            Some(Token::Digits(digits)) => match bits_in(digits, 8) {
                Some(bits) => Ok(bits as u8),
                None => Err(ReadFault::Departs),
            },
            _ => Err(ReadFault::Departs),
        }
    }

    /// Takes four binary digits, as the first four of eight.
    pub(crate) fn bits_4(&mut self) -> Result<u8, ReadFault>
        ensures { ReadsAs false (rule.first_bits self.old) result self.new }
    {
        match self.next() {
            Some(Token::Digits(digits)) => match bits_in(digits, 4) {
                Some(bits) => Ok(16 * bits as u8),
                None => Err(ReadFault::Departs),
            },
            _ => Err(ReadFault::Departs),
        }
    }

    /// Takes sixteen binary digits.
    pub(crate) fn bits_16(&mut self) -> Result<u16, ReadFault>
        ensures { ReadsAs false (argument.bits 16 self.old) result self.new }
    {
        match self.next() {
            Some(Token::Digits(digits)) => bits_in(digits, 16).ok_or(ReadFault::Departs),
            _ => Err(ReadFault::Departs),
        }
    }

    /// Finds that no token is left.
    pub(crate) fn end(&self) -> Result<(), ReadFault>
        ensures { Ends result self.now }
    {
        if self.len() == 0 {
            Ok(())
        } else {
            Err(ReadFault::Departs)
        }
    }

    /// The value in a box of its own.
    pub(crate) fn boxed<T: Drop>(&self, value: T) -> Result<Boxed<T>, ReadFault>
        ensures { Boxes value result }
    {
        Ok(Boxed::new(self.alloc, value)?)
    }
}
