ghost use Rattle.std.specs.Prelude.{◌≡◌, OnOk, flat_map};
ghost use Rattle.kom_replies.specs.Sinks.{with_words, Keeps};

use crate::sinks::Sink;

/// A value that is spelled as some words of a line.
pub(crate) trait Spelled {
    ghost use Rattle.kom_types.specs.spellings.Words.{Words};

    ghost spelling: { Self → Words };

    /// Puts the words of values, one after the other. A refusal may leave a part of them.
    fn put_all<S: Sink>(values: &[Self], out: &mut S) -> Result<(), S::Refusal>
        ensures ok { OnOk result
            (out.new ≡ with_words S.with_word (flat_map spelling values.now) out.old) }
        ensures keeps { Keeps S.begins out.old out.new }
    {
        for value in values {
            value.put(out)?;
        }
        Ok(())
    }

    /// Puts the value's words. A refusal may leave a part of them.
    fn put<S: Sink>(&self, out: &mut S) -> Result<(), S::Refusal>
        ensures ok { OnOk result (out.new ≡ with_words S.with_word (spelling self.now) out.old) }
        ensures keeps { Keeps S.begins out.old out.new };
}
