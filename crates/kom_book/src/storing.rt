// The acts of a server that a store keeps.
ghost use Rattle.std.specs.Prelude.{◌≡◌, ◌<◌, ◌^◌, ◌↔◌, None, IsTrue, is_some, false};
ghost use Rattle.kom_types.specs.declared.acts.Act.TheVariants as act;
ghost use Rattle.kom_model.specs.Legal.{HasUser};
ghost use Rattle.kom_model.specs.Out.{taken_by};
ghost use Rattle.kom_journal.specs.Images.{images_at, moment};
ghost use Rattle.kom_book.specs.Making.{BookComes, StopsCome, book_of};

use arrayvec::ArrayVec;
use batch_log::FlushFault;
use kom_core::Core;
use kom_disk::Disk;
use kom_journal::Journal;
use kom_state::Unkept;
use kom_types::{Act, Entry, Item, Made, NotMade, Why};

/// Makes the act of an entry on a core that a store keeps, or returns why it is not made. What a
/// call changes waits in the store, and a flush is one of the store. Where the store refuses it,
/// its record is short.
pub(crate) fn make_stored<D: Disk + Drop>(
    core: &mut Core,
    store: &mut Journal<D>,
    refused: &mut Option<FlushFault>,
    entry: &Entry,
    items: &mut ArrayVec<Item, 64>,
) -> Result<Made, NotMade>
    requires room { core.old.state.entries < 2 ^ 62 }
    requires user { HasUser entry.now.act }
    requires marked { core.old.state.store_refused ≡ is_some refused.old }
    requires whole { refused.old ≡ None → store.old.refused ≡ false }
    ensures comes { BookComes D.faults (book_of core.old store.old refused.old) entry.now
        (book_of core.new store.new refused.new) result }
    ensures stops { IsTrue D.tells
        → StopsCome (moment D.moment) (images_at D.images_at)
        (book_of core.old store.old refused.old) (book_of core.new store.new refused.new) result }
    ensures taken { items.new.items ≡ taken_by core.old.state entry.now.act }
{
    if !is_flush(&entry.act) {
        return core.make_kept(entry, items, store);
    }
    if refused.is_some() {
        items.clear();
        return Err(NotMade::Gone(Why::Stopped));
    }
    match store.flush() {
        Ok(()) => core.make_kept(entry, items, &mut Unkept),
        Err(fault) => {
            items.clear();
            *refused = Some(fault);
            Ok(core.refuse_flush(entry))
        }
    }
}

fn is_flush(what: &Act) -> bool
    ensures { IsTrue result ↔ (what.now ≡ act.Flush) }
{
    matches!(what, Act::Flush)
}
