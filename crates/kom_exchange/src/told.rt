ghost use Rattle.std.specs.Prelude.{◌≡◌, IfSome};

use crate::reading::Fetched;
use kom_letters::{Charset, charset_of};
use kom_types::{AuxRow, Bytes, Reply, TextStat};

/// The tag of an aux-item that is a text's content type.
const CONTENT_TYPE: u32 = 1;

/// The bit of a deleted aux-item.
const DELETED: u8 = 0x80;

/// A text as the server told it, and the charset of its body.
pub struct Told {
    pub stat: TextStat,
    pub body: Bytes,
    pub charset: Charset,
}

impl Drop for Told {
    fn drop(self) {
        let Told {
            stat,
            body,
            charset: _,
        } = self;
        drop((stat, body));
    }
}

/// The charset of a text that has these aux-items.
pub fn charset_by(items: &[AuxRow], body: &[u8]) -> Charset {
    let mut items = items.iter();
    match items.find(|item| item.tag == CONTENT_TYPE && item.flags & DELETED == 0) {
        Some(item) => charset_of(Some(item.content.as_slice()), body),
        None => charset_of(None, body),
    }
}

/// A text by the replies to what asks for it, and what came of that.
#[tactic(auto, using(crate::proofs::Telling::told_stat))]
pub(crate) fn told_by(stat: Reply, body: Reply) -> (Option<Told>, Fetched)
    ensures stat_is { IfSome result.0 (λ told. stat ≡ Reply.TextStat told.stat) }
    ensures body_is { IfSome result.0 (λ told. body ≡ Reply.Text told.body) }
{
    match stat {
        Reply::TextStat(stat) => told_with(stat.into_inner(), body),
        Reply::Refused(code, status) => (None, Fetched::Refused(code, status)),
        _ => (None, Fetched::Nothing),
    }
}

fn told_with(stat: TextStat, body: Reply) -> (Option<Told>, Fetched)
    ensures stat_is { IfSome result.0 (λ told. told.stat ≡ stat) }
    ensures body_is { IfSome result.0 (λ told. body ≡ Reply.Text told.body) }
{
    match body {
        Reply::Text(body) => (Some(told_of(stat, body.into_inner())), Fetched::Told),
        Reply::Refused(code, status) => (None, Fetched::Refused(code, status)),
        _ => (None, Fetched::Nothing),
    }
}

fn told_of(stat: TextStat, body: Bytes) -> Told
    ensures stat_is { result.stat ≡ stat }
    ensures body_is { result.body ≡ body }
{
    let charset = charset_by(stat.aux_items.as_slice(), body.as_slice());
    Told {
        stat,
        body,
        charset,
    }
}

/// What is told of a text, if a reply is that.
pub(crate) fn stat_by(reply: Reply) -> Option<TextStat>
    ensures { IfSome result (λ stat. reply ≡ Reply.TextStat stat) }
{
    match reply {
        Reply::TextStat(stat) => Some(stat.into_inner()),
        _ => None,
    }
}
