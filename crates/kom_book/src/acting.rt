ghost use Rattle.std.specs.Prelude.{◌≡◌, ◌<◌, ◌^◌, ◌||◌, IfSome};
ghost use Rattle.kom_model.specs.Legal.{HasUser, IsByOwner};
ghost use Rattle.kom_model.specs.Out.{taken_by};
ghost use Rattle.hall_desk.specs.Acts.{Comes};
ghost use Rattle.kom_journal.specs.Images.{images_at, moment};
ghost use Rattle.kom_book.specs.Books.{GoesOn, Stays, state_in, record_of};

use crate::book::Book;
use crate::ticked::Ticked;
use arrayvec::ArrayVec;
use hall_desk::Acts;
use kom_disk::Disk;
use kom_types::{Entry, Item, NotMade};

impl<D: Disk + Drop> Acts for Book<D> {
    ghost use Rattle.std.proofs.Common.{refl};

    ghost made = { record_of };

    ghost server = { state_in };

    fn make(&mut self, entry: &Entry, items: &mut ArrayVec<Item, 64>) -> Result<Ticked<D>, NotMade>
        requires room { (state_in self.old).entries < 2 ^ 62 }
        requires own { IsByOwner (state_in self.old) entry.now }
        requires user { HasUser entry.now.act }
        ensures comes { Comes (GoesOn (moment D.moment) (images_at D.images_at) D.tells D.faults)
            Stays record_of state_in self.old entry.now self.new result }
        ensures taken { items.new.items ≡ taken_by (state_in self.old) entry.now.act }
    {
        let made = match self.inner.make(entry, items) {
            Ok(made) => made,
            Err(why) => return Err(why),
        };
        let store = self.inner.store();
        Ok(Ticked { made, store })
    }

    fn stopped(&self) -> bool
        ensures { result ≡ ((state_in self.now).stopped || (state_in self.now).store_refused) }
    {
        self.inner.stopped()
    }

    fn news(&self) -> u64 {
        self.inner.news()
    }

    fn next_news(&self, pass: u32, above: u32, since: u64) -> Option<u32>
        ensures { IfSome result (λ session. above < session) }
    {
        self.inner.next_news(pass, above, since)
    }

    fn session(entry: &Ticked<D>) -> u32 {
        entry.made.session()
    }

    fn is_short(entry: &Ticked<D>) -> bool {
        entry.made.is_short()
    }

    ghost names = { λ entry. refl };

    ghost leads = { λ opening history value leads. leads.0.led };
}
