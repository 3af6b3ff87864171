ghost use Rattle.std.specs.Prelude.{◌≡◌, OnOk};
ghost use Rattle.kom_types.specs.spellings.Replies.{words_of_reply, result_words};
ghost use Rattle.kom_types.specs.spellings.Words.{array};
ghost use Rattle.kom_replies.specs.Sinks.{with_words, Keeps};

use crate::arrays::put_array;
use crate::sinks::{Sink, put_numbers, put_time};
use crate::spelled::Spelled;
use kom_types::{Boxed, Reply, Sequence};

/// Puts a good reply, or a refusal.
pub(crate) fn put_reply<S: Sink>(
    reference: u32,
    body: &Reply,
    out: &mut S,
) -> Result<(), S::Refusal>
    ensures ok { OnOk result
        (out.new ≡ with_words S.with_word (words_of_reply reference body.now) out.old) }
    ensures keeps { Keeps S.begins out.old out.new }
{
    if let Reply::Refused(code, status) = body {
        out.signed(b'%', reference)?;
        return put_numbers(&[*code, *status], out);
    }
    out.signed(b'=', reference)?;
    put_result(body, out)
}

/// Puts the result of a good reply; a refusal has none.
fn put_result<S: Sink>(body: &Reply, out: &mut S) -> Result<(), S::Refusal>
    ensures ok { OnOk result (out.new ≡ with_words S.with_word (result_words body.now) out.old) }
    ensures keeps { Keeps S.begins out.old out.new }
{
    match body {
        Reply::Done => Ok(()),
        Reply::Refused(_code, _status) => Ok(()),
        Reply::Number(value) => out.number(*value),
        Reply::Time(moment) => put_time(*moment, out),
        Reply::Text(of) => out.text(of.get().as_slice()),
        Reply::Numbers(of) => put_boxed_array(of, out),
        Reply::Marks(of) => put_boxed_array(of, out),
        Reply::TextStat(of) => put_boxed(of, out),
        Reply::Mapping(of) => put_boxed(of, out),
        Reply::Conference(of) => put_boxed(of, out),
        Reply::UConference(of) => put_boxed(of, out),
        Reply::ConferenceNames(of) => put_boxed_array(of, out),
        Reply::Person(of) => put_boxed(of, out),
        Reply::Membership(of) => put_boxed(of, out),
        Reply::Memberships(of) => put_boxed_array(of, out),
        Reply::Members(of) => put_boxed_array(of, out),
        Reply::DynamicSessions(of) => put_boxed_array(of, out),
        Reply::StaticSession(of) => put_boxed(of, out),
        Reply::VersionInfo(of) => put_boxed(of, out),
        Reply::Info(of) => put_boxed(of, out),
    }
}

/// Puts a value in a box.
fn put_boxed<T: Spelled + Drop, S: Sink>(of: &Boxed<T>, out: &mut S) -> Result<(), S::Refusal>
    ensures ok { OnOk result (out.new ≡ with_words S.with_word (T.spelling of.now) out.old) }
    ensures keeps { Keeps S.begins out.old out.new }
{
    of.get().put(out)
}

/// Puts an array in a box.
fn put_boxed_array<T: Spelled + Drop, S: Sink>(
    of: &Boxed<Sequence<T>>,
    out: &mut S,
) -> Result<(), S::Refusal>
    ensures ok { OnOk result (out.new ≡ with_words S.with_word (array T.spelling of.now) out.old) }
    ensures keeps { Keeps S.begins out.old out.new }
{
    put_array(of.get().as_slice(), out)
}
