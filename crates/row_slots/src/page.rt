ghost use Rattle.std.specs.Prelude.{◌≡◌, ◌≢◌, ℕ, ◌+◌, ◌≤◌, ◌<◌, ◌==◌, [], ◌∷◌, ◌++◌, length};
ghost use Rattle.std.specs.Prelude.{nat_eq, not, position, slice_get, IsSome, IfOk, IsTrue, OnOk};
ghost use Rattle.std.specs.List.{list_any, AllByRecursion};
ghost use Rattle.std.specs.Set.{remove_key, is_member};
ghost use Rattle.row_slots.specs.DenseLists.{page_list, page_room, IsUnusedList};

use smallvec::SmallVec;
use std::alloc::{AllocError, Global};

/// How many keys a page is for.
pub(crate) const PAGE: usize = 64;

/// The lists of the keys of a page, of all of them or of none.
pub(crate) type Page = Vec<SmallVec<u32, 4>>;

/// A page of empty lists.
pub(crate) fn unused_page(alloc: Global) -> Result<Page, AllocError>
    ensures len { IfOk result (λ page. length page.items ≡ 64) }
    ensures unused { IfOk result (λ page. AllByRecursion IsUnusedList page.items) }
{
    let mut page = Vec::with_capacity(alloc, PAGE)?;
    for _ in 0..PAGE {
        page.push(SmallVec::new(alloc))?;
    }
    Ok(page)
}

/// Whether some list of a page has a number.
pub(crate) fn is_used(page: &Page) -> bool
    ensures { result ≡ list_any (λ list. not (length list.items == 0)) page.now.items }
{
    page.iter().any(|list| !list.is_empty())
}

/// Makes room in the list at a place of a page.
pub(crate) fn grow_at(page: &mut Page, place: usize, additional: usize) -> Result<(), AllocError>
    requires { IsSome (slice_get page.old.items place) }
    ensures there { IsSome (slice_get page.new.items place) }
    ensures list { page_list page.new place ≡ page_list page.old place }
    ensures ok { OnOk result (additional ≤ page_room page.new place) }
    ensures room { page_room page.old place ≤ page_room page.new place }
    ensures others { (other : ℕ) → other ≢ place
        → slice_get page.new.items other ≡ slice_get page.old.items other }
{
    page[place].reserve(additional)
}

/// Puts a number at the end of the list at a place of a page. Takes no memory.
pub(crate) fn push_at(page: &mut Page, place: usize, number: u32)
    requires { 0 < page_room page.old place }
    ensures there { IsSome (slice_get page.new.items place) }
    ensures list { page_list page.new place ≡ page_list page.old place ++ number ∷ [] }
    ensures room { page_room page.old place ≤ page_room page.new place + 1 }
    ensures others { (other : ℕ) → other ≢ place
        → slice_get page.new.items other ≡ slice_get page.old.items other }
{
    page[place].push(number).unwrap();
}

/// Takes a number out of the list at a place of a page, which has it.
pub(crate) fn remove_at(page: &mut Page, place: usize, number: u32)
    requires there { IsSome (slice_get page.old.items place) }
    requires member { IsTrue (is_member nat_eq (page_list page.old place) number) }
    ensures there { IsSome (slice_get page.new.items place) }
    ensures list { page_list page.new place
        ≡ remove_key (nat_eq number) (page_list page.old place) }
    ensures room { page_room page.new place ≡ page_room page.old place + 1 }
    ensures others { (other : ℕ) → other ≢ place
        → slice_get page.new.items other ≡ slice_get page.old.items other }
{
    let at = position_at(page, place, number).unwrap();
    let list = &mut page[place];
    prove!(list.len() <= list.capacity());
    list.remove(at);
}

/// The place of a number in the list at a place of a page. The time grows with the list.
fn position_at(page: &Page, place: usize, number: u32) -> Option<usize>
    ensures { result ≡ position (nat_eq number) (page_list page.now place) }
{
    list_at(page, place)
        .iter()
        .position(|other| number == *other)
}

/// The list at a place of a page, empty past its end.
fn list_at(page: &Page, place: usize) -> &[u32]
    ensures { result.now ≡ page_list page.now place }
{
    match page.get(place) {
        Some(list) => list.as_slice(),
        None => &[],
    }
}
