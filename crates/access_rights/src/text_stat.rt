//! What is told of a text beside its body.
ghost use Rattle.std.specs.Prelude.{◌≡◌, ◌++◌, [], map, IfOk, if◌then◌else◌};
ghost use Rattle.std.specs.List.{flat_map};
ghost use Rattle.kom_model.specs.Db.{links_from, links_into};
ghost use Rattle.kom_model.specs.Shown as Shown;
ghost use Rattle.kom_model.specs.Shown.{shows_recipient, recipients_shown, recipient_infos};
ghost use Rattle.kom_model.specs.Shown.{recipient_info, from_infos, into_info, sent_infos};

use crate::items::{items_shown, text_adder};
use crate::texts::{BLIND, shows_recipient};
use kom_model::{Rows, TextHead, Viewer};
use kom_types::{
    Memory, MiscInfo, MiscInfos, Moment, Recipient, Sequence, TextLink, TextRow, TextStat,
};
use std::alloc::Global;

/// The tag of a recipient of a copy.
const COPY: u8 = 1;

/// A text, as it is told to who reads it: the time grows with all that it is linked to. (Protocol
/// A, "Texts".)
pub fn shown_stat<R: Rows>(
    alloc: Global,
    rows: &R,
    viewer: &Viewer,
    row: &TextRow,
) -> Result<TextStat, Memory>
    ensures { IfOk result (λ stat. stat ≡ Shown.shown_stat (R.db rows.now) viewer.now row.now) }
{
    let head = TextHead {
        number: row.number,
        author: row.author,
        created: row.created,
        lines: row.lines as usize,
        chars: row.body.len(),
    };
    stat_of(alloc, rows, viewer, &head)
}

/// The same of a text whose row may not stand among the others yet.
pub fn stat_of<R: Rows>(
    alloc: Global,
    rows: &R,
    viewer: &Viewer,
    head: &TextHead,
) -> Result<TextStat, Memory>
    ensures { IfOk result (λ stat. stat ≡ Shown.stat_of (R.db rows.now) viewer.now head.now) }
{
    let by = text_adder(rows, viewer, head.number);
    Ok(TextStat {
        created: head.created,
        author: head.author,
        lines: told_count(head.lines),
        chars: told_count(head.chars),
        marks: told_count(rows.mark_count(head.number)),
        misc_infos: misc_infos(alloc, rows, viewer, head)?,
        aux_items: items_shown(alloc, rows, true, head.number, &by)?,
    })
}

/// How many there are of something, as it is told: at most 4294967295.
pub fn told_count(count: usize) -> u32
    ensures { result ≡ Shown.told_count count }
{
    count.min(u32::MAX as usize) as u32
}

/// All that a text is linked to.
fn misc_infos<R: Rows>(
    alloc: Global,
    rows: &R,
    viewer: &Viewer,
    text: &TextHead,
) -> Result<MiscInfos, Memory>
    ensures { IfOk result (λ infos. infos ≡ Shown.misc_infos (R.db rows.now) viewer.now text.now) }
{
    let infos = Vec::with_capacity(alloc, most_infos(rows, text.number))?;
    let mut infos = Sequence::of(infos);
    push_recipients(&mut infos, rows, viewer, text)?;
    push_from(&mut infos, rows, text.number, false)?;
    push_into(&mut infos, rows, text.number, false)?;
    push_from(&mut infos, rows, text.number, true)?;
    push_into(&mut infos, rows, text.number, true)?;
    Ok(infos)
}

/// At most how many things are told of a text: four of a recipient, three of a link from it, one of
/// a link into it.
fn most_infos<R: Rows>(rows: &R, text: u32) -> usize {
    let recipients = rows.recipient_count(text);
    let from = rows
        .count_from(text, false)
        .saturating_add(rows.count_from(text, true));
    let into = rows
        .count_into(text, false)
        .saturating_add(rows.count_into(text, true));
    recipients
        .saturating_mul(4)
        .saturating_add(from.saturating_mul(3))
        .saturating_add(into)
}

/// Adds what is told of the recipients that are shown to who looks.
fn push_recipients<R: Rows>(
    infos: &mut MiscInfos,
    rows: &R,
    viewer: &Viewer,
    text: &TextHead,
) -> Result<(), Memory>
    ensures { IfOk result (λ done. infos.new ≡ infos.old ++ flat_map recipient_infos
        (recipients_shown (R.db rows.now) viewer.now text.now.author text.now.number)) }
{
    for place in 0..rows.recipient_count(text.number) {
        if let Some(row) = rows.recipient(text.number, place) {
            push_shown(infos, rows, viewer, text.author, &row)?;
        }
    }
    Ok(())
}

/// Adds what is told of a recipient of a text of this author, if it is shown to who looks.
fn push_shown<R: Rows>(
    infos: &mut MiscInfos,
    rows: &R,
    viewer: &Viewer,
    author: u32,
    row: &Recipient,
) -> Result<(), Memory>
    ensures { IfOk result (λ done. infos.new ≡ infos.old
        ++ (if shows_recipient (R.db rows.now) viewer.now author row.now
        then recipient_infos row.now else [])) }
{
    if shows_recipient(rows, viewer, author, row) {
        push_recipient(infos, row)?;
    }
    Ok(())
}

fn push_recipient(infos: &mut MiscInfos, row: &Recipient) -> Result<(), Memory>
    ensures { IfOk result (λ done. infos.new ≡ infos.old ++ recipient_infos row.now) }
{
    infos.push(recipient_info(row.tag, row.conference))?;
    infos.push(MiscInfo::Local(row.local))?;
    push_sent(infos, row.sender, row.at)
}

fn recipient_info(tag: u8, conference: u32) -> MiscInfo
    ensures { result ≡ recipient_info tag conference }
{
    match tag {
        BLIND => MiscInfo::BlindRecipient(conference),
        COPY => MiscInfo::CopyRecipient(conference),
        _ => MiscInfo::Recipient(conference),
    }
}

/// Adds who added a recipient or a link later, and when.
fn push_sent(infos: &mut MiscInfos, sender: u32, at: Moment) -> Result<(), Memory>
    ensures { IfOk result (λ done. infos.new ≡ infos.old ++ sent_infos sender at) }
{
    if sender != 0 {
        infos.push(MiscInfo::SentBy(sender))?;
        infos.push(MiscInfo::SentAt(at))?;
    }
    Ok(())
}

/// Adds what is told of the links from a text: those of a comment, or of a footnote.
fn push_from<R: Rows>(
    infos: &mut MiscInfos,
    rows: &R,
    text: u32,
    footnote: bool,
) -> Result<(), Memory>
    ensures { IfOk result (λ done. infos.new
        ≡ infos.old ++ flat_map from_infos (links_from (R.db rows.now) text footnote)) }
{
    for place in 0..rows.count_from(text, footnote) {
        if let Some(row) = rows.link_from(text, footnote, place) {
            push_link(infos, &row)?;
        }
    }
    Ok(())
}

fn push_link(infos: &mut MiscInfos, row: &TextLink) -> Result<(), Memory>
    ensures { IfOk result (λ done. infos.new ≡ infos.old ++ from_infos row.now) }
{
    infos.push(if row.footnote {
        MiscInfo::FootnoteTo(row.parent)
    } else {
        MiscInfo::CommentTo(row.parent)
    })?;
    push_sent(infos, row.sender, row.at)
}

/// Adds what is told of the links into a text: of its comments, or its footnotes.
fn push_into<R: Rows>(
    infos: &mut MiscInfos,
    rows: &R,
    text: u32,
    footnote: bool,
) -> Result<(), Memory>
    ensures { IfOk result (λ done. infos.new
        ≡ infos.old ++ map into_info (links_into (R.db rows.now) text footnote)) }
{
    for place in 0..rows.count_into(text, footnote) {
        if let Some(row) = rows.link_into(text, footnote, place) {
            infos.push(into_info(&row))?;
        }
    }
    Ok(())
}

fn into_info(row: &TextLink) -> MiscInfo
    ensures { result ≡ into_info row.now }
{
    if row.footnote {
        MiscInfo::FootnoteIn(row.child)
    } else {
        MiscInfo::CommentIn(row.child)
    }
}
