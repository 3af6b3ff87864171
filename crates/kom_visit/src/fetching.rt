//! The rows that are unread at a login.
ghost use Rattle.std.specs.Prelude.{◌≡◌};

use crate::drafts::Drafts;
use crate::replies::mapping_in;
use crate::visitor::Visitor;
use kom_exchange::{VisitEnd, Waiting};
use kom_links::{Link, Sink};
use kom_reader::{Place, Row};
use kom_records::ResultKind;
use kom_types::{Block, Mapping, Membership, RangesShown, ReadRange};
use std::alloc::{AllocError, Global};
use std::sync::Wait;

/// How many requests are sent at once, at most.
const TOGETHER: usize = 128;

/// How many texts the server is asked for in one request: as many as it tells.
const LONGEST_MAPPING: u32 = 255;

/// From how many conferences on a line tells how far the fetching is.
const MANY: usize = 500;

/// The bit of a passive membership.
const PASSIVE: u8 = 0x40;

/// Texts of a conference that are to be asked for: those from a local number on, by the place of
/// its membership.
#[derive(Clone, Copy, Debug)]
struct Part {
    place: usize,
    first: u32,
}

impl<W: Waiting, K: Link, L: Link, S: Sink, D: Drafts> Visitor<W, K, L, S, D> {
    /// Takes up the memberships, and learns which texts are unread in those of these conferences.
    pub(crate) fn fetch_rows<R: Wait>(
        &mut self,
        rt: &R,
        memberships: &[Membership],
        unread: &[u32],
    ) -> Result<(), VisitEnd>
        ensures { self.new.exchange.columns ≡ self.old.exchange.columns }
    {
        for membership in memberships {
            self.reader.enter(place_of(membership))?;
        }
        let mut parts = parts_of(self.alloc, memberships, unread)?;
        self.tell_many(parts.len())?;
        for _ in 0..u64::MAX {
            if parts.is_empty() {
                return Ok(());
            }
            parts = self.fetch_parts(rt, memberships, parts.as_slice())?;
        }
        Ok(())
    }

    /// Says that there is much to fetch, if there is.
    fn tell_many(&mut self, count: usize) -> Result<(), VisitEnd>
        ensures { self.new.exchange.columns ≡ self.old.exchange.columns }
    {
        if count < MANY {
            return Ok(());
        }
        let text = count_line(self.alloc, count)?;
        self.tell_line(
            text.as_str(),
            " conferences have unread texts: they are fetched.",
        )
    }

    /// Learns the rows of some parts. Those that stand behind them are returned.
    fn fetch_parts<R: Wait>(
        &mut self,
        rt: &R,
        memberships: &[Membership],
        parts: &[Part],
    ) -> Result<Vec<Part>, VisitEnd>
        ensures { self.new.exchange.columns ≡ self.old.exchange.columns }
    {
        let mut later = Vec::new(self.alloc);
        for together in parts.chunks(TOGETHER) {
            self.ask_parts(memberships, together)?;
            self.send(rt)?;
            self.take_parts(rt, memberships, together, &mut later)?;
        }
        Ok(later)
    }

    /// Asks for some parts.
    fn ask_parts(&mut self, memberships: &[Membership], parts: &[Part]) -> Result<(), VisitEnd>
        ensures { self.new.exchange.columns ≡ self.old.exchange.columns }
    {
        for part in parts {
            if let Some(membership) = memberships.get(part.place) {
                self.exchange
                    .request(103, &[membership.conference, part.first, LONGEST_MAPPING])?;
            }
        }
        Ok(())
    }

    /// Awaits some parts. Those that stand behind them are added.
    fn take_parts<R: Wait>(
        &mut self,
        rt: &R,
        memberships: &[Membership],
        parts: &[Part],
        later: &mut Vec<Part>,
    ) -> Result<(), VisitEnd>
        ensures { self.new.exchange.columns ≡ self.old.exchange.columns }
    {
        for part in parts {
            if let Some(membership) = memberships.get(part.place) {
                if let Some(first) = self.take_part(rt, membership, part.first)? {
                    later.push(Part {
                        place: part.place,
                        first,
                    })?;
                }
            }
        }
        Ok(())
    }

    /// Awaits the texts of a membership from a local number on: from which one on there are more,
    /// if there are.
    fn take_part<R: Wait>(
        &mut self,
        rt: &R,
        membership: &Membership,
        first: u32,
    ) -> Result<Option<u32>, VisitEnd>
        ensures { self.new.exchange.columns ≡ self.old.exchange.columns }
    {
        let reply = self.reply(rt, ResultKind::Mapping)?;
        match mapping_in(reply) {
            Some(mapping) => {
                self.learn_mapping(membership, &mapping)?;
                Ok(end_behind(&mapping, first))
            }
            None => Ok(None),
        }
    }

    /// Adds the rows of a mapping that are not read.
    fn learn_mapping(&mut self, membership: &Membership, mapping: &Mapping) -> Result<(), VisitEnd>
        ensures { self.new.exchange.columns ≡ self.old.exchange.columns }
    {
        match &mapping.block {
            Block::Sparse(pairs) => {
                for pair in pairs.as_slice() {
                    self.learn_row(membership, pair.local, pair.text)?;
                }
            }
            Block::Dense { first, texts } => {
                let mut local = *first;
                for text in texts.as_slice() {
                    self.learn_row(membership, local, *text)?;
                    local = local.saturating_add(1);
                }
            }
        }
        Ok(())
    }

    fn learn_row(&mut self, membership: &Membership, local: u32, text: u32) -> Result<(), VisitEnd>
        ensures { self.new.exchange.columns ≡ self.old.exchange.columns }
    {
        if text != 0 && !is_read(ranges_of(membership), local) {
            self.reader.learn(Row {
                conference: membership.conference,
                local,
                text,
            })?;
        }
        Ok(())
    }
}

/// The parts that are asked for first: of these conferences, those of which one is a member that
/// reads there.
fn parts_of(
    alloc: Global,
    memberships: &[Membership],
    unread: &[u32],
) -> Result<Vec<Part>, AllocError> {
    let mut parts = Vec::new(alloc);
    for (place, membership) in memberships.iter().enumerate() {
        if membership.kind & PASSIVE == 0 && unread.contains(&membership.conference) {
            let first = first_unread(ranges_of(membership));
            parts.push(Part { place, first })?;
        }
    }
    Ok(parts)
}

fn count_line(alloc: Global, count: usize) -> Result<String, AllocError> {
    format!(in alloc; "{count}")
}

/// Where a mapping ends behind a local number, if there are texts behind it.
fn end_behind(mapping: &Mapping, first: u32) -> Option<u32> {
    if mapping.later_texts_exist && mapping.end > first {
        Some(mapping.end)
    } else {
        None
    }
}

fn place_of(membership: &Membership) -> Place {
    Place {
        conference: membership.conference,
        priority: membership.priority,
        position: membership.position,
    }
}

fn ranges_of(membership: &Membership) -> &[ReadRange] {
    match &membership.ranges {
        RangesShown::All(ranges) => ranges.as_slice(),
        RangesShown::Count(_) => &[],
    }
}

/// The least local number that may be unread.
fn first_unread(ranges: &[ReadRange]) -> u32 {
    match ranges {
        [range, ..] if range.first == 1 => range.last.saturating_add(1),
        _ => 1,
    }
}

fn is_read(ranges: &[ReadRange], local: u32) -> bool {
    ranges
        .iter()
        .any(|range| range.first <= local && local <= range.last)
}
