//! Where a text stands, and what answers it.
ghost use Rattle.std.specs.Prelude.{◌≡◌, ◌≤◌, ◌++◌, [], IfOk, OnOk, length, nat_lt, take_while};
ghost use Rattle.std.specs.Option.{option_to_list};
ghost use Rattle.std.specs.List.{filter_map};
ghost use Rattle.kom_reader.specs.Links.{parts_of, part_by, group_after, answers_of};
ghost use Rattle.kom_reader.specs.Links.{footnote_in, comment_in, all_rising, with_rising};

use kom_types::{Memory, MiscInfo};
use std::alloc::Global;

/// A conference in which a text stands, and its local number there.
#[derive(Clone, Copy)]
pub struct Part {
    pub conference: u32,
    pub local: u32,
}

/// The conferences in which a text stands, of what it is linked to.
#[tactic(auto, using(crate::proofs::Passing::parts_step, crate::proofs::Passing::parts_end))]
pub fn parts_of(alloc: Global, links: &[MiscInfo]) -> Result<Vec<Part>, Memory>
    ensures { IfOk result (λ parts. parts.items ≡ parts_of links.now) }
{
    let mut parts = Vec::new(alloc);
    let mut group = None;
    for link in links {
        push_part(&mut parts, group, *link)?;
        group = group_after(group, *link);
    }
    Ok(parts)
}

fn push_part(parts: &mut Vec<Part>, group: Option<u32>, link: MiscInfo) -> Result<(), Memory>
    ensures { OnOk result (parts.new.items ≡ parts.old.items ++ part_by group link) }
{
    match (group, link) {
        (Some(conference), MiscInfo::Local(local)) => {
            parts.push(Part { conference, local })?;
            Ok(())
        }
        _ => Ok(()),
    }
}

/// The recipient of which the links after one tell.
fn group_after(group: Option<u32>, link: MiscInfo) -> Option<u32>
    ensures { result ≡ group_after group link }
{
    match link {
        MiscInfo::Recipient(conference)
        | MiscInfo::CopyRecipient(conference)
        | MiscInfo::BlindRecipient(conference) => Some(conference),
        _ => group,
    }
}

/// The footnotes of a text and then its comments, each rising.
pub(crate) fn answers_of(alloc: Global, links: &[MiscInfo]) -> Result<Vec<u32>, Memory>
    ensures { IfOk result (λ texts. texts.items ≡ answers_of links.now) }
{
    let mut texts = footnotes_of(alloc, links)?;
    let comments = comments_of(alloc, links)?;
    texts.extend_from_slice(comments.as_slice())?;
    Ok(texts)
}

#[tactic(auto, using(crate::proofs::Passing::footnotes_step, crate::proofs::Passing::footnotes_end))]
fn footnotes_of(alloc: Global, links: &[MiscInfo]) -> Result<Vec<u32>, Memory>
    ensures { IfOk result
        (λ texts. texts.items ≡ all_rising [] (filter_map footnote_in links.now)) }
{
    let mut texts = Vec::new(alloc);
    for link in links {
        put_some(&mut texts, footnote_in(*link))?;
    }
    Ok(texts)
}

#[tactic(auto, using(crate::proofs::Passing::comments_step, crate::proofs::Passing::comments_end))]
fn comments_of(alloc: Global, links: &[MiscInfo]) -> Result<Vec<u32>, Memory>
    ensures { IfOk result (λ texts. texts.items ≡ all_rising [] (filter_map comment_in links.now)) }
{
    let mut texts = Vec::new(alloc);
    for link in links {
        put_some(&mut texts, comment_in(*link))?;
    }
    Ok(texts)
}

fn put_some(texts: &mut Vec<u32>, text: Option<u32>) -> Result<(), Memory>
    ensures { OnOk result (texts.new.items ≡ all_rising texts.old.items (option_to_list text)) }
{
    match text {
        Some(text) => put_rising(texts, text),
        None => Ok(()),
    }
}

/// Puts a text behind those that are lower.
fn put_rising(texts: &mut Vec<u32>, text: u32) -> Result<(), Memory>
    ensures { OnOk result (texts.new.items ≡ with_rising texts.old.items text) }
{
    let rank = rank_of(texts.as_slice(), text);
    texts.insert(rank, text)?;
    Ok(())
}

fn rank_of(texts: &[u32], text: u32) -> usize
    ensures value { result ≡ length (take_while (λ other. nat_lt other text) texts.now) }
    ensures within { result ≤ length texts.now }
{
    texts.iter().take_while(|other| **other < text).count()
}

fn footnote_in(link: MiscInfo) -> Option<u32>
    ensures { result ≡ footnote_in link }
{
    match link {
        MiscInfo::FootnoteIn(text) => Some(text),
        _ => None,
    }
}

fn comment_in(link: MiscInfo) -> Option<u32>
    ensures { result ≡ comment_in link }
{
    match link {
        MiscInfo::CommentIn(text) => Some(text),
        _ => None,
    }
}
