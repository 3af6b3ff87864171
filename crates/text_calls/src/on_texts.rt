ghost use Rattle.std.specs.Prelude.{◌≡◌, length, IfOk};
ghost use Rattle.kom_model.specs.calls.Call.{Meets};
ghost use Rattle.kom_model.specs.calls.Texts as Texts;

use crate::deleting::gone_text;
use crate::owning::owns_text;
use access_rights::{login_guard, text_guard, unless};
use kom_model::CallError;
use kom_state::{Asked, StoredRows};
use kom_types::{Boxed, Bytes, Counter, Decision, Effect, Memory, Reply, Sequence, errors};
use std::alloc::Global;

/// Call 25, get-text: the bytes of a text from one place to another, that one too.
pub fn get_text(asked: &Asked<'_>, text: u32, start: u32, end: u32) -> Result<Decision, CallError>
    ensures { Meets (Texts.get_text asked.now text start end) result }
{
    let caller = asked.caller();
    let rows = asked.rows();
    login_guard(&caller)?;
    text_guard(rows, &caller, text)?;
    unless(
        start as usize <= length_of(rows, text),
        errors::INDEX_OUT_OF_RANGE,
        start,
    )?;
    let alloc = asked.allocator();
    let bytes = copy_of_part(alloc, rows, text, start, end)?;
    let reply = Reply::Text(Boxed::new(alloc, bytes)?);
    let mut effects = Sequence::new(alloc);
    effects.push(Effect::Counted {
        number: caller.person,
        counter: Counter::TextFetches,
        by: 1,
    })?;
    Ok(Decision {
        reply,
        effects,
        changes: Sequence::new(alloc),
    })
}

/// How many bytes a text has.
fn length_of(rows: &StoredRows, text: u32) -> usize
    ensures { result ≡ length (Texts.body_of rows.now.db text) }
{
    match rows.text(text) {
        None => 0,
        Some(row) => row.body.len(),
    }
}

/// The bytes of a text from one place to another, that one too, as far as there are some.
fn copy_of_part(
    alloc: Global,
    rows: &StoredRows,
    text: u32,
    start: u32,
    end: u32,
) -> Result<Bytes, Memory>
    ensures { IfOk result
        (λ bytes. bytes ≡ Texts.bytes_between start end (Texts.body_of rows.now.db text)) }
{
    match rows.text(text) {
        None => Ok(Bytes::new(alloc)),
        Some(row) => Bytes::copy_of(alloc, part(row.body.as_slice(), start, end)),
    }
}

fn part(bytes: &[u8], start: u32, end: u32) -> &[u8]
    ensures { result.now ≡ Texts.bytes_between start end bytes.now }
{
    let start = (start as usize).min(bytes.len());
    let end = (end as usize + 1).min(bytes.len());
    if start < end { &bytes[start..end] } else { &[] }
}

/// Call 29, delete-text: all that hangs on a text goes before it.
pub fn delete_text(asked: &Asked<'_>, text: u32) -> Result<Decision, CallError>
    ensures { Meets (Texts.delete_text asked.now text) result }
{
    let caller = asked.caller();
    let rows = asked.rows();
    login_guard(&caller)?;
    text_guard(rows, &caller, text)?;
    unless(
        owns_text(rows, &caller, text),
        errors::PERMISSION_DENIED,
        text,
    )?;
    let alloc = asked.allocator();
    Ok(Decision {
        reply: Reply::Done,
        effects: gone_text(alloc, rows, text)?,
        changes: Sequence::new(alloc),
    })
}
