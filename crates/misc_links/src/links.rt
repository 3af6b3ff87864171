ghost use Rattle.std.specs.Prelude.{◌≡◌, ◌≤◌, ◌<◌, [], ◌∷◌, ◌++◌, None, length, find, slice_get};
ghost use Rattle.std.specs.Prelude.{is_some, option_copied, IfOk, OnOk, OnErr};
ghost use Rattle.std.specs.Prelude.{filter_map, true, false};
ghost use Rattle.kom_types.specs.tables.Texts.{link_of, links_from, links_into, without_link};
ghost use Rattle.misc_links.specs.Keeping.{is_parent_at, is_child_at, link_at};
ghost use Rattle.misc_links.specs.Kinds.{list_at};
ghost use Rattle.misc_links.specs.Linked.{links_of_text, room_from, room_into};
ghost use Rattle.misc_links.specs.Linked.{HasRoom, KeepsRoom, UsesRoom};

use crate::kinds::KindLists;
use kom_types::{Memory, TextLink};
use row_slots::{SlotWalk, Slots};
use std::alloc::Global;
use std::marker::Model;

/// The links of comments and of footnotes to the texts that they are to, in the order of adding.
pub struct Links {
    rows: Slots<TextLink>,
    /// The places of the links from each text.
    from: KindLists,
    /// The places of the links into each text.
    into: KindLists,
    /// Where the lists of the links of a text take their memory from.
    alloc: Global,
}

// A call of its own, so that whoever lets the links go has one step to prove and not one for each
// part.
impl Drop for Links {
    fn drop(self) {
        let Links {
            rows,
            from,
            into,
            alloc: _,
        } = self;
        drop((rows, from, into));
    }
}

impl Model for Links {
    ghost use Rattle.std.specs.Prelude.{true, false};
    ghost use Rattle.row_slots.specs.Slots.{rows_in};
    ghost use Rattle.misc_links.specs.Keeping.{IsKept};
    ghost use Rattle.misc_links.specs.Kinds.{list_at, rooms_at};
    ghost use Rattle.misc_links.specs.Linked.{Linked};

    ghost Value = { Linked };

    ghost view = { λ a. record {
      links = rows_in a.rows.slots;
      spare = a.rows.spare;
      comments_from = rooms_at a.from false;
      footnotes_from = rooms_at a.from true;
      comments_into = rooms_at a.into false;
      footnotes_into = rooms_at a.into true;
    } };

    ghost invariant = { λ a. IsKept a.rows.slots (list_at a.from) (list_at a.into) };
}

impl Links {
    /// No links. Takes no memory.
    pub fn new(alloc: Global) -> Links
        ensures { result.links ≡ [] }
    {
        Links {
            rows: Slots::new(alloc),
            from: KindLists::new(alloc),
            into: KindLists::new(alloc),
            alloc,
        }
    }

    /// The link of a comment, or a footnote, to a text. The time grows with the links of that kind
    /// from the child, or with those into the parent where these are fewer.
    pub fn get(&self, child: u32, parent: u32, footnote: bool) -> Option<&TextLink>
        ensures { option_copied result ≡ link_of child parent footnote self.now.links }
    {
        if self.count_from(child, footnote) <= self.count_into(parent, footnote) {
            self.get_from(child, parent, footnote)
        } else {
            self.get_into(child, parent, footnote)
        }
    }

    /// The same, by the links from the child.
    fn get_from(&self, child: u32, parent: u32, footnote: bool) -> Option<&TextLink>
        ensures { option_copied result ≡ link_of child parent footnote self.now.links }
    {
        let place = place_into(&self.rows, self.from.list(child, footnote), parent)?;
        self.rows.get(place)
    }

    /// The same, by the links into the parent.
    fn get_into(&self, child: u32, parent: u32, footnote: bool) -> Option<&TextLink>
        ensures { option_copied result ≡ link_of child parent footnote self.now.links }
    {
        let place = place_from(&self.rows, self.into.list(parent, footnote), child)?;
        self.rows.get(place)
    }

    /// All links, in the order of adding.
    pub fn rows(&self) -> SlotWalk<'_, TextLink>
        ensures { result ≡ self.now.links }
    {
        self.rows.rows()
    }

    /// How many texts a text is a comment, or a footnote, to, in constant time.
    pub fn count_from(&self, text: u32, footnote: bool) -> usize
        ensures { result ≡ length (links_from text footnote self.now.links) }
    {
        self.from.list(text, footnote).len()
    }

    /// How many comments, or footnotes, a text has, in constant time.
    pub fn count_into(&self, text: u32, footnote: bool) -> usize
        ensures { result ≡ length (links_into text footnote self.now.links) }
    {
        self.into.list(text, footnote).len()
    }

    /// The link at a place among those of a text to others, in the order of adding, in constant
    /// time.
    pub fn nth_from(&self, text: u32, footnote: bool, place: usize) -> Option<&TextLink>
        ensures { option_copied result
            ≡ slice_get (links_from text footnote self.now.links) place }
    {
        let place = *self.from.list(text, footnote).get(place)?;
        self.rows.get(place)
    }

    /// The link at a place among those of the comments, or the footnotes, to a text, in the order
    /// of adding, in constant time.
    pub fn nth_into(&self, text: u32, footnote: bool, place: usize) -> Option<&TextLink>
        ensures { option_copied result
            ≡ slice_get (links_into text footnote self.now.links) place }
    {
        let place = *self.into.list(text, footnote).get(place)?;
        self.rows.get(place)
    }

    /// The links from a text and into it, in the order of adding. The time grows with their number,
    /// times its logarithm.
    pub fn of_text(&self, text: u32) -> Result<Vec<TextLink>, Memory>
        ensures { IfOk result (λ links. links.items ≡ links_of_text text self.now.links) }
    {
        let mut places = places_touching(&self.from, &self.into, text, self.alloc)?;
        places.sort_unstable();
        places.dedup();
        links_at(&self.rows, &places, self.alloc)
    }

    /// Adds a link after the others. Takes no memory.
    pub fn add(&mut self, link: TextLink)
        requires absent { link_of link.child link.parent link.footnote self.old.links ≡ None }
        requires room { HasRoom self.old link.child link.parent link.footnote }
        ensures links { self.new.links ≡ self.old.links ++ link ∷ [] }
        ensures room { UsesRoom self.old self.new link.child link.parent link.footnote }
    {
        let (child, parent, footnote) = (link.child, link.parent, link.footnote);
        let place = self.rows.push(link).unwrap();
        self.from.push(child, footnote, place);
        self.into.push(parent, footnote, place);
    }

    /// Takes a link out, and returns whether it was there. The time grows with the links from the
    /// child, and those into the parent, of that kind.
    pub fn remove(&mut self, child: u32, parent: u32, footnote: bool) -> bool
        ensures there { result ≡ is_some (link_of child parent footnote self.old.links) }
        ensures links { self.new.links ≡ without_link child parent footnote self.old.links }
        ensures room { KeepsRoom self.old self.new }
    {
        let places = self.from.list(child, footnote);
        let Some(place) = place_into(&self.rows, places, parent) else {
            return false;
        };
        let _link = self.rows.take(place);
        self.from.remove(child, footnote, place);
        self.into.remove(parent, footnote, place);
        true
    }

    /// Makes room for so many more links in all.
    pub fn reserve(&mut self, additional: usize) -> Result<(), Memory>
        ensures links { self.new.links ≡ self.old.links }
        ensures ok { OnOk result (additional ≤ self.new.spare) }
        ensures err { OnErr result (self.old.spare < additional) }
        ensures room { KeepsRoom self.old self.new }
    {
        self.rows.reserve(additional)?;
        Ok(())
    }

    /// Makes room for so many more links of a kind from a text in its list.
    pub fn reserve_from(
        &mut self,
        text: u32,
        footnote: bool,
        additional: usize,
    ) -> Result<(), Memory>
        ensures links { self.new.links ≡ self.old.links }
        ensures ok { OnOk result (additional ≤ room_from self.new text footnote) }
        ensures err { OnErr result (room_from self.old text footnote < additional) }
        ensures room { KeepsRoom self.old self.new }
    {
        self.from.reserve(text, footnote, additional)
    }

    /// Makes room for so many more links of a kind into a text in its list.
    pub fn reserve_into(
        &mut self,
        text: u32,
        footnote: bool,
        additional: usize,
    ) -> Result<(), Memory>
        ensures links { self.new.links ≡ self.old.links }
        ensures ok { OnOk result (additional ≤ room_into self.new text footnote) }
        ensures err { OnErr result (room_into self.old text footnote < additional) }
        ensures room { KeepsRoom self.old self.new }
    {
        self.into.reserve(text, footnote, additional)
    }

    /// Gives back memory of links that are gone: it looks at so many texts of each list. The room
    /// for more links may go.
    pub fn sweep(&mut self, steps: usize)
        ensures { self.new.links ≡ self.old.links }
    {
        self.rows.settle();
        self.from.sweep(steps);
        self.into.sweep(steps);
    }
}

/// The place of the link into a text, among those at some places.
fn place_into(rows: &Slots<TextLink>, places: &[u32], parent: u32) -> Option<u32>
    ensures { result ≡ find (is_parent_at rows.now.slots parent) places.now }
{
    places.iter().copied().find(
        |place| matches!(rows.get(*place), Some(link) if link.parent == parent),
    )
}

/// The place of the link from a text, among those at some places.
fn place_from(rows: &Slots<TextLink>, places: &[u32], child: u32) -> Option<u32>
    ensures { result ≡ find (is_child_at rows.now.slots child) places.now }
{
    places.iter().copied().find(
        |place| matches!(rows.get(*place), Some(link) if link.child == child),
    )
}

/// The places of the links from a text and of those into it, in no order.
fn places_touching(
    from: &KindLists,
    into: &KindLists,
    text: u32,
    alloc: Global,
) -> Result<Vec<u32>, Memory>
    ensures { IfOk result (λ places. places.items
        ≡ (list_at from.now text false ++ list_at from.now text true)
        ++ (list_at into.now text false ++ list_at into.now text true)) }
{
    let mut places = Vec::new(alloc);
    from.append_to(text, &mut places)?;
    into.append_to(text, &mut places)?;
    Ok(places)
}

/// The links at some places.
fn links_at(rows: &Slots<TextLink>, places: &[u32], alloc: Global) -> Result<Vec<TextLink>, Memory>
    ensures { IfOk result (λ links. links.items ≡ filter_map (link_at rows.now.slots) places.now) }
{
    let links = places
        .iter()
        .filter_map(|place| link_in(rows, *place))
        .collect(alloc)?;
    Ok(links)
}

/// The link at a place.
fn link_in(rows: &Slots<TextLink>, place: u32) -> Option<TextLink>
    ensures { result ≡ link_at rows.now.slots place }
{
    rows.get(place).copied()
}
