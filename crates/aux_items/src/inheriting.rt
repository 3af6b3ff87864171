//! What a comment inherits.
ghost use Rattle.std.specs.Prelude.{◌≡◌, ◌+◌, ◌-◌, ◌++◌, length, take, IfOk, OnOk, OnErr};
ghost use Rattle.kom_types.specs.AuxItems as Items;

use crate::kinds::kind_of;
use crate::list::ItemList;
use crate::standing::Standing;
use kom_types::bits::INHERITED_ITEM;
use kom_types::{AuxRow, AuxRows, Bytes, Memory, Sequence};
use std::alloc::Global;
use std::mem;

/// Puts what a new text inherits from one that it comments after the items that it has: a copy of
/// each, with its contents. (Protocol A, "Auxiliary Information".)
pub fn inherit<R: ItemList>(alloc: Global, rows: &mut AuxRows, parent: &R) -> Result<(), Memory>
    ensures ok { OnOk result (rows.new ≡ Items.inherit rows.old (R.items parent.now)) }
    ensures err { OnErr result (rows.new ≡ rows.old) }
{
    let own = rows.len();
    let outcome = inherit_all(alloc, rows, parent);
    if outcome.is_err() {
        keep_first(alloc, rows, own);
    }
    outcome
}

/// Keeps so many items, the first.
fn keep_first(alloc: Global, rows: &mut AuxRows, count: usize)
    ensures { rows.new ≡ take count rows.old }
{
    let mut items = mem::replace(rows, Sequence::new(alloc)).into_vec();
    items.truncate(count);
    *rows = Sequence::of(items);
}

/// Out of memory, some items may have been added.
fn inherit_all<R: ItemList>(alloc: Global, rows: &mut AuxRows, parent: &R) -> Result<(), Memory>
    ensures ok { OnOk result (rows.new ≡ Items.inherit rows.old (R.items parent.now)) }
    ensures own { take (length rows.old) rows.new ≡ rows.old }
{
    for place in 0..parent.count() {
        if let Some(item) = parent.item(place) {
            inherit_one(alloc, rows, item)?;
        }
    }
    Ok(())
}

fn inherit_one(alloc: Global, rows: &mut AuxRows, item: &AuxRow) -> Result<(), Memory>
    ensures ok { OnOk result (rows.new ≡ Items.with_inherited rows.old item.now) }
    ensures err { OnErr result (rows.new ≡ rows.old) }
{
    match kind_of(item.tag) {
        None => Ok(()),
        Some(known) => {
            let beside = Standing::all(rows);
            if passes_on(item) && beside.takes(&known, item.creator) {
                let number = rows.len() as u32 + 1;
                rows.push(inherited_item(alloc, number, item)?)?;
            }
            Ok(())
        }
    }
}

/// Whether the comments of a text inherit an item.
fn passes_on(item: &AuxRow) -> bool
    ensures { result ≡ Items.passes_on item.now }
{
    item.flags & INHERITED_ITEM != 0 && item.limit != 1
}

/// The item as it is inherited: it may be so once less, if there is a limit.
fn inherited_item(alloc: Global, number: u32, item: &AuxRow) -> Result<AuxRow, Memory>
    ensures { IfOk result (λ row. row
        ≡ record item.now { number = number; limit = item.now.limit - 1 }) }
{
    Ok(AuxRow {
        number,
        tag: item.tag,
        creator: item.creator,
        at: item.at,
        flags: item.flags,
        limit: item.limit.saturating_sub(1),
        content: Bytes::copy_of(alloc, item.content.as_slice())?,
    })
}
