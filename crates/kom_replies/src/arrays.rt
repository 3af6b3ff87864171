ghost use Rattle.std.specs.Prelude.{◌≡◌, OnOk};
ghost use Rattle.kom_types.specs.spellings.Words.{number, array, array_count};
ghost use Rattle.kom_replies.specs.Sinks.{with_words, Keeps};

use crate::sinks::Sink;
use crate::spelled::Spelled;

impl Spelled for u32 {
    ghost spelling = { number };

    fn put<S: Sink>(&self, out: &mut S) -> Result<(), S::Refusal> {
        out.number(*self)
    }

    fn put_all<S: Sink>(values: &[u32], out: &mut S) -> Result<(), S::Refusal> {
        out.numbers(values)
    }
}

/// Puts an array.
pub(crate) fn put_array<T: Spelled, S: Sink>(values: &[T], out: &mut S) -> Result<(), S::Refusal>
    ensures ok { OnOk result
        (out.new ≡ with_words S.with_word (array T.spelling values.now) out.old) }
    ensures keeps { Keeps S.begins out.old out.new }
{
    if values.is_empty() {
        return put_count(0, out);
    }
    out.len(values.len())?;
    out.word(b"{")?;
    T::put_all(values, out)?;
    out.word(b"}")
}

/// Puts an array whose elements were not asked for.
pub(crate) fn put_count<S: Sink>(count: u32, out: &mut S) -> Result<(), S::Refusal>
    ensures ok { OnOk result (out.new ≡ with_words S.with_word (array_count count) out.old) }
    ensures keeps { Keeps S.begins out.old out.new }
{
    out.number(count)?;
    out.word(b"*")
}
