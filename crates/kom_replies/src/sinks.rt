ghost use Rattle.std.specs.Prelude.{◌≡◌, ◌≤◌, true, ◌∷◌, OnOk, flat_map};
ghost use Rattle.std.specs.Fmt.{decimal};
ghost use Rattle.kom_types.specs.ByteKind.{is_sign};
ghost use Rattle.kom_types.specs.spellings.Words.{bit_string, hollerith, number, time};
ghost use Rattle.kom_framing.specs.Writing.{put_word};
ghost use Rattle.kom_replies.specs.Sinks.{with_words, Keeps};

use itoa::Buffer;
use kom_framing::Writer;
use kom_types::{Memory, Moment, Time};

/// So many numbers a writer has room for at once.
const MOST_NUMBERS: usize = 256;

/// Where the words of an item are put: a writer, or the sum of their lengths.
pub(crate) trait Sink {
    ghost use Rattle.std.specs.Prelude.{ℕ, List};

    /// Why a word is refused.
    type Refusal: Drop;

    // what a word leaves
    ghost with_word: { List ℕ → Self → Self };

    // what was put begins with these bytes
    ghost begins: { List ℕ → Self → Type 0 };

    /// Puts a word as it stands.
    fn word(&mut self, word: &[u8]) -> Result<(), Self::Refusal>
        ensures ok { OnOk result (self.new ≡ with_word word.now self.old) }
        ensures keeps { Keeps begins self.old self.new };

    /// Puts an integer.
    fn number(&mut self, value: u32) -> Result<(), Self::Refusal>
        ensures ok { OnOk result (self.new ≡ with_word (decimal value) self.old) }
        ensures keeps { Keeps begins self.old self.new };

    /// Puts integers, one after the other.
    fn numbers(&mut self, values: &[u32]) -> Result<(), Self::Refusal>
        ensures ok { OnOk result
            (self.new ≡ with_words with_word (flat_map number values.now) self.old) }
        ensures keeps { Keeps begins self.old self.new };

    /// Puts the length of an array.
    fn len(&mut self, len: usize) -> Result<(), Self::Refusal>
        ensures ok { OnOk result (self.new ≡ with_word (decimal len) self.old) }
        ensures keeps { Keeps begins self.old self.new };

    /// Puts a sign and the number after it, which are one word.
    fn signed(&mut self, sign: u8, value: u32) -> Result<(), Self::Refusal>
        requires { is_sign sign ≡ true }
        ensures ok { OnOk result (self.new ≡ with_word (sign ∷ decimal value) self.old) }
        ensures keeps { Keeps begins self.old self.new };

    /// Puts the last `width` bits of a number, the highest first.
    fn bits(&mut self, width: u8, value: u16) -> Result<(), Self::Refusal>
        requires some { 1 ≤ width }
        requires within { width ≤ 16 }
        ensures ok { OnOk result (self.new ≡ with_word (bit_string value width) self.old) }
        ensures keeps { Keeps begins self.old self.new };

    /// Puts a string.
    fn text(&mut self, bytes: &[u8]) -> Result<(), Self::Refusal>
        ensures ok { OnOk result (self.new ≡ with_word (hollerith bytes.now) self.old) }
        ensures keeps { Keeps begins self.old self.new };
}

impl Sink for Writer {
    ghost use Rattle.kom_framing.specs.Writing.{put_word};
    ghost use Rattle.kom_replies.specs.Items.{Begins};

    type Refusal = Memory;

    ghost with_word = { put_word };

    ghost begins = { Begins };

    fn word(&mut self, word: &[u8]) -> Result<(), Memory> {
        Writer::word(self, word)
    }

    fn number(&mut self, value: u32) -> Result<(), Memory> {
        Writer::number(self, value)
    }

    fn numbers(&mut self, values: &[u32]) -> Result<(), Memory> {
        let mut left = values;
        while left.len() > MOST_NUMBERS {
            let (first, others) = left.split_at(MOST_NUMBERS);
            Writer::numbers(self, first)?;
            left = others;
        }
        Writer::numbers(self, left)
    }

    fn len(&mut self, len: usize) -> Result<(), Memory> {
        Writer::word(self, Buffer::new().format(len).as_bytes())
    }

    fn signed(&mut self, sign: u8, value: u32) -> Result<(), Memory> {
        self.mark(sign)?;
        Writer::number(self, value)
    }

    fn bits(&mut self, width: u8, value: u16) -> Result<(), Memory> {
        Writer::bits(self, value, width)
    }

    fn text(&mut self, bytes: &[u8]) -> Result<(), Memory> {
        Writer::text(self, bytes)
    }
}

/// Puts integers.
pub(crate) fn put_numbers<S: Sink>(values: &[u32], out: &mut S) -> Result<(), S::Refusal>
    ensures ok { OnOk result
        (out.new ≡ with_words S.with_word (flat_map number values.now) out.old) }
    ensures keeps { Keeps S.begins out.old out.new }
{
    out.numbers(values)
}

/// Puts a time.
pub(crate) fn put_time<S: Sink>(moment: Moment, out: &mut S) -> Result<(), S::Refusal>
    ensures ok { OnOk result (out.new ≡ with_words S.with_word (time moment) out.old) }
    ensures keeps { Keeps S.begins out.old out.new }
{
    let time = Time::of(moment);
    let parts = [
        u32::from(time.seconds),
        u32::from(time.minutes),
        u32::from(time.hours),
        u32::from(time.day),
        u32::from(time.month),
        time.year,
        u32::from(time.weekday),
        u32::from(time.yearday),
        u32::from(time.dst),
    ];
    put_numbers(&parts, out)
}
