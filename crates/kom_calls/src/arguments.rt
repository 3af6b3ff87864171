ghost use Rattle.std.specs.Prelude.{◌≡◌, length, true, false};
ghost use Rattle.kom_types.specs.calls.Arguments as argument;
ghost use Rattle.kom_framing.specs.Spans.{Takes};
ghost use Rattle.kom_calls.specs.Telling.{ReadsAs, Ends, Boxes};

use crate::bits::bits_in;
use crate::fault::ArgumentFault;
use kom_framing::{Line, Token, Tokens};
use kom_types::{Boxed, Bytes};
use std::alloc::Global;
use std::marker::Model;

/// The tokens of a line that are left.
#[derive(Drop)]
pub(crate) struct Arguments<'a> {
    tokens: Tokens<'a>,
    alloc: Global,
}

impl<'a> Model for Arguments<'a> {
    ghost use Rattle.std.specs.Prelude.{List};
    ghost use Rattle.kom_types.specs.Token.{Token};

    ghost Value = { List Token };

    ghost view = { λ a. a.tokens };
}

impl<'a> Arguments<'a> {
    /// All tokens of a line. What is read of them is allocated there.
    pub(crate) fn of(alloc: Global, line: &'a Line) -> Arguments<'a>
        ensures { result ≡ line.now.tokens }
    {
        Arguments {
            tokens: line.tokens(),
            alloc,
        }
    }

    /// Where what is read is allocated.
    pub(crate) fn allocator(&self) -> Global {
        self.alloc
    }

    /// How many tokens are left.
    pub(crate) fn len(&self) -> usize
        ensures { result ≡ length self.now }
    {
        self.tokens.len()
    }

    /// Takes the next token.
    pub(crate) fn next(&mut self) -> Option<Token<'a>>
        ensures { Takes result self.old self.new }
    {
        self.tokens.next()
    }

    /// Takes an integer.
    pub(crate) fn integer(&mut self) -> Result<u32, ArgumentFault>
        ensures { ReadsAs false (argument.integer self.old) result self.new }
    {
        self.tokens.integer().ok_or(ArgumentFault::Malformed)
    }

    /// Takes an integer that ends at 255.
    pub(crate) fn byte(&mut self) -> Result<u8, ArgumentFault>
        ensures { ReadsAs false (argument.byte self.old) result self.new }
    {
        let number = self.integer()?;
        if number <= 255 {
            Ok(number as u8)
        } else {
            Err(ArgumentFault::Malformed)
        }
    }

    /// Takes a truth value.
    pub(crate) fn flag(&mut self) -> Result<bool, ArgumentFault>
        ensures { ReadsAs false (argument.flag self.old) result self.new }
    {
        match self.integer()? {
            0 => Ok(false),
            1 => Ok(true),
            _ => Err(ArgumentFault::BadBool),
        }
    }

    /// Takes a string, of which it makes a copy.
    pub(crate) fn string(&mut self) -> Result<Bytes, ArgumentFault>
        ensures { ReadsAs true (argument.string self.old) result self.new }
    {
        match self.next() {
            Some(Token::Text(text)) => Ok(Bytes::copy_of(self.alloc, text)?),
            _ => Err(ArgumentFault::Malformed),
        }
    }

    /// Takes eight binary digits.
    pub(crate) fn bits_8(&mut self) -> Result<u8, ArgumentFault>
        ensures { ReadsAs false (argument.bits 8 self.old) result self.new }
    {
        match self.next() {
            Some(Token::Digits(digits)) => match bits_in(digits, 8) {
                Some(bits) => Ok(bits as u8),
                None => Err(ArgumentFault::Malformed),
            },
            _ => Err(ArgumentFault::Malformed),
        }
    }

    /// Takes sixteen binary digits.
    pub(crate) fn bits_16(&mut self) -> Result<u16, ArgumentFault>
        ensures { ReadsAs false (argument.bits 16 self.old) result self.new }
    {
        match self.next() {
            Some(Token::Digits(digits)) => bits_in(digits, 16).ok_or(ArgumentFault::Malformed),
            _ => Err(ArgumentFault::Malformed),
        }
    }

    /// Takes the bits of a conference's type: eight binary digits, or the first four.
    pub(crate) fn conference_type(&mut self) -> Result<u8, ArgumentFault>
        ensures { ReadsAs false (argument.conference_type self.old) result self.new }
    {
        match self.next() {
            Some(Token::Digits(digits)) => match bits_in(digits, 8) {
                Some(bits) => Ok(bits as u8),
                None => match bits_in(digits, 4) {
                    Some(bits) => Ok(16 * bits as u8),
                    None => Err(ArgumentFault::Malformed),
                },
            },
            _ => Err(ArgumentFault::Malformed),
        }
    }

    /// Finds that no token is left.
    pub(crate) fn end(&mut self) -> Result<(), ArgumentFault>
        ensures { Ends result self.old }
    {
        if self.len() == 0 {
            Ok(())
        } else {
            Err(ArgumentFault::Malformed)
        }
    }

    /// The value in a box of its own.
    pub(crate) fn boxed<T: Drop>(&self, value: T) -> Result<Boxed<T>, ArgumentFault>
        ensures { Boxes value result }
    {
        Ok(Boxed::new(self.alloc, value)?)
    }
}
