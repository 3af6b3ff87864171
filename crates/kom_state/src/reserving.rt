ghost use Rattle.std.specs.Prelude.{◌≡◌, ◌++◌, OnOk, IfOk, count_by, option_copied};
ghost use Rattle.std.specs.List.{filter_map, list_all};
ghost use Rattle.texts.specs.Needs.{HasRoom as HasTextRoom};
ghost use Rattle.kom_state.specs.Room.{all_needs, needs_of};
ghost use Rattle.kom_state.specs.Room.{HasRoom, IsOrderly, IsReady, HasMemberRoom};
ghost use Rattle.kom_state.specs.Room.{adds_conference, adds_person, key_set};
ghost use Rattle.kom_state.specs.Room.{sets_membership, name_given, is_roomless};

mod items;
mod needs;

use crate::reserving::items::reserve_items;
use crate::reserving::needs::{FEW, reserve_needs};
use crate::stored_rows::StoredRows;
use kom_types::{Effect, Memory};
use memberships::Memberships;
use name_lookup::Names;
use std::alloc::Global;
use texts::{Need, Texts};

impl StoredRows {
    /// Takes the room that effects need, of which one at most gives a name. Room that was taken
    /// before may go.
    pub fn reserve(&mut self, effects: &[Effect]) -> Result<(), Memory>
        requires { IsOrderly effects.now }
        ensures db { self.new.db ≡ self.old.db }
        ensures ok { OnOk result (HasRoom self.new.room effects.now) }
    {
        self.sweep(effects);
        reserve_texts(&mut self.texts, effects, self.alloc)?;
        if are_of_texts(effects) {
            return Ok(());
        }
        let conferences = effects
            .iter()
            .filter(|effect| adds_conference(effect))
            .count();
        self.conferences.reserve(conferences)?;
        let persons = effects.iter().filter(|effect| adds_person(effect)).count();
        self.persons.reserve(persons)?;
        reserve_memberships(&mut self.memberships, effects)?;
        reserve_items(&mut self.items, effects)?;
        reserve_name(&mut self.names, effects)
    }

    /// Gives back memory of rows that are gone, with the room that was taken before. For each row
    /// that goes it looks at two keys of each table, so it comes to all of them before as many as
    /// half of them have lost their last row. Where nothing comes or goes there is nothing to do.
    fn sweep(&mut self, effects: &[Effect])
        ensures { self.new.db ≡ self.old.db }
    {
        if !effects
            .iter()
            .any(|effect| adds_slot(effect) || takes_away(effect))
        {
            return;
        }
        let going = effects.iter().filter(|effect| takes_away(effect)).count();
        self.texts.sweep(going.saturating_mul(2));
        self.items.sweep(going.saturating_mul(2));
        self.memberships.sweep(going.saturating_mul(2));
    }
}

/// Whether no effect needs room but that for texts.
fn are_of_texts(effects: &[Effect]) -> bool
    ensures { result ≡ list_all is_roomless effects.now }
{
    effects.iter().all(|effect| is_roomless(effect))
}

/// Whether an effect needs no room but that for texts.
fn is_roomless(effect: &Effect) -> bool
    ensures { result ≡ is_roomless effect.now }
{
    match effect {
        Effect::ConfAdded { .. }
        | Effect::ConfNamed { .. }
        | Effect::PersonAdded { .. }
        | Effect::MemberSet { .. }
        | Effect::AuxAdded { .. } => false,
        _ => true,
    }
}

/// Whether an effect adds a row to a table whose slots are put into blocks.
fn adds_slot(effect: &Effect) -> bool {
    matches!(
        effect,
        Effect::RecipientAdded(_)
            | Effect::LinkAdded(_)
            | Effect::MarkSet { .. }
            | Effect::AuxAdded { .. }
    )
}

/// Whether an effect takes away something that hung on a text or a conference.
fn takes_away(effect: &Effect) -> bool {
    matches!(
        effect,
        Effect::RecipientGone { .. }
            | Effect::LinkGone { .. }
            | Effect::MarkGone { .. }
            | Effect::AuxGone { .. }
            | Effect::MemberGone { .. }
            | Effect::ConfGone { .. }
    )
}

/// Makes room for all that effects add to texts.
fn reserve_texts(texts: &mut Texts, effects: &[Effect], alloc: Global) -> Result<(), Memory>
    ensures rows { texts.new.rows ≡ texts.old.rows }
    ensures ok { OnOk result (HasTextRoom texts.new.room (all_needs effects.now)) }
{
    let needs = all_needs(effects, alloc)?;
    reserve_needs(texts, needs.as_slice(), alloc)
}

/// All that effects need of the room for texts.
fn all_needs(effects: &[Effect], alloc: Global) -> Result<Vec<Need>, Memory>
    ensures { IfOk result (λ needs. needs.items ≡ all_needs effects.now) }
{
    let mut needs = Vec::new(alloc);
    for effect in effects {
        push_needs(&mut needs, effect)?;
    }
    Ok(needs)
}

/// Adds what an effect needs of the room for texts.
fn push_needs(needs: &mut Vec<Need>, effect: &Effect) -> Result<(), Memory>
    ensures { IfOk result (λ done. needs.new.items ≡ needs.old.items ++ needs_of effect.now) }
{
    match effect {
        Effect::TextAdded { .. } => {
            // Recipients and links mostly come with a text.
            needs.reserve(FEW)?;
            needs.push(Need::Text)?;
        }
        Effect::RecipientAdded(given) => {
            needs.push(Need::Recipient)?;
            needs.push(Need::RecipientOf(given.text))?;
            needs.push(Need::Local(given.conference))?;
        }
        Effect::LinkAdded(given) => {
            needs.push(Need::Link)?;
            needs.push(Need::LinkFrom(given.child, given.footnote))?;
            needs.push(Need::LinkInto(given.parent, given.footnote))?;
        }
        Effect::MarkSet { person, text, .. } => {
            needs.push(Need::Mark)?;
            needs.push(Need::MarkOf(*person))?;
            needs.push(Need::MarkOn(*text))?;
        }
        Effect::Created { person, .. } => needs.push(Need::Created(*person))?,
        _ => {}
    }
    Ok(())
}

/// Makes room for all memberships that effects set, of each person and in each conference.
fn reserve_memberships(memberships: &mut Memberships, effects: &[Effect]) -> Result<(), Memory>
    ensures rows { memberships.new.rows ≡ memberships.old.rows }
    ensures reads { memberships.new.reads ≡ memberships.old.reads }
    ensures ok { OnOk result (HasMemberRoom memberships.new effects.now) }
{
    let count = membership_count(effects);
    for effect in effects {
        if let Some((person, conference)) = key_set(effect) {
            memberships.reserve(person, conference, count)?;
        }
    }
    Ok(())
}

/// Makes the name ready that effects give, if one does.
fn reserve_name(names: &mut Names, effects: &[Effect]) -> Result<(), Memory>
    requires { IsOrderly effects.now }
    ensures names { names.new.names ≡ names.old.names }
    ensures ok { OnOk result (IsReady names.new.ready (filter_map name_given effects.now)) }
{
    for effect in effects {
        if let Some(name) = name_given(effect) {
            return names.reserve(name);
        }
    }
    Ok(())
}

fn adds_conference(effect: &Effect) -> bool
    ensures { result ≡ adds_conference effect.now }
{
    matches!(effect, Effect::ConfAdded { .. })
}

fn adds_person(effect: &Effect) -> bool
    ensures { result ≡ adds_person effect.now }
{
    matches!(effect, Effect::PersonAdded { .. })
}

fn membership_count(effects: &[Effect]) -> usize
    ensures { result ≡ count_by sets_membership effects.now }
{
    effects
        .iter()
        .filter(|effect| key_set(effect).is_some())
        .count()
}

/// The person and the conference whose membership an effect sets.
fn key_set(effect: &Effect) -> Option<(u32, u32)>
    ensures { result ≡ key_set effect.now }
{
    match effect {
        Effect::MemberSet {
            person,
            conference,
            ..
        } => Some((*person, *conference)),
        _ => None,
    }
}

/// The name that an effect gives to a conference.
fn name_given(effect: &Effect) -> Option<&[u8]>
    ensures { option_copied result ≡ name_given effect.now }
{
    match effect {
        Effect::ConfAdded { name, .. } | Effect::ConfNamed { name, .. } => Some(name.as_slice()),
        _ => None,
    }
}
