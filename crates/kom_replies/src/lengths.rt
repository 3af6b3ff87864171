ghost use Rattle.std.specs.Prelude.{◌≡◌, ◌<◌, ◌≤◌, ◌^◌, ◌-◌, ◌+◌, length, min};
ghost use Rattle.kom_types.specs.Printing.{print_of};
ghost use Rattle.kom_replies.specs.Lengths.{cap_at_u64};

use crate::printer::put_words;
use crate::sinks::Sink;
use kom_framing::digit_count;
use kom_types::Item;
use std::convert::Infallible;
use std::marker::Model;

/// How many bytes an item prints to, as many as a `u64` holds at most. Takes no memory.
pub fn printed_len(item: &Item) -> u64
    ensures { result ≡ min (length (print_of item.now)) (2 ^ 64 - 1) }
{
    let mut length = Length(0);
    let Ok(()) = put_words(item, &mut length);
    length.0
}

/// How many bytes words take, each with the space or the line feed after it: as many as a `u64`
/// holds at most.
#[derive(Drop)]
pub(crate) struct Length(u64);

impl Model for Length {
    ghost use Rattle.std.specs.Prelude.{ℕ};

    ghost Value = { ℕ };

    ghost view = { λ l. l.0 };
}

impl Length {
    /// Adds a word of so many bytes, and what is after it.
    fn add(&mut self, bytes: usize)
        requires { bytes < 2 ^ 64 - 1 }
        ensures { self.new ≡ cap_at_u64 (self.old + (bytes + 1)) }
    {
        self.0 = self.0.saturating_add(bytes as u64 + 1);
    }
}

impl Sink for Length {
    ghost use Rattle.kom_replies.specs.Lengths.{put_length};

    type Refusal = Infallible;

    ghost with_word = { put_length };

    // a sum tells of no bytes
    ghost begins = { λ _ _. Unit {0} };

    fn word(&mut self, word: &[u8]) -> Result<(), Infallible> {
        self.add(word.len());
        Ok(())
    }

    fn number(&mut self, value: u32) -> Result<(), Infallible> {
        self.len(value as usize)
    }

    fn numbers(&mut self, values: &[u32]) -> Result<(), Infallible> {
        let mut length = self.0;
        for value in values {
            length = length.saturating_add(digit_count(u64::from(*value)) as u64 + 1);
        }
        self.0 = length;
        Ok(())
    }

    fn len(&mut self, len: usize) -> Result<(), Infallible> {
        self.add(digit_count(len as u64));
        Ok(())
    }

    fn signed(&mut self, _sign: u8, value: u32) -> Result<(), Infallible> {
        self.add(1 + digit_count(u64::from(value)));
        Ok(())
    }

    fn bits(&mut self, width: u8, _value: u16) -> Result<(), Infallible> {
        self.add(width as usize);
        Ok(())
    }

    fn text(&mut self, bytes: &[u8]) -> Result<(), Infallible> {
        self.add(digit_count(bytes.len() as u64) + 1 + bytes.len());
        Ok(())
    }
}
