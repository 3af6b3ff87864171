use crate::book::Book;
use crate::ticked::Ticked;
use kom_disk::Disk;
use kom_state_lock::Booked;

impl<D: Disk + Drop> Booked for Book<D> {
    ghost use Rattle.kom_journal.specs.Images.{images_at, moment};
    ghost use Rattle.kom_book.specs.Books.{GoesOn, Stays, LeadsOn};
    ghost use Rattle.kom_book.specs.Leading as leading;
    ghost use Rattle.kom_book.specs.StopLeading as stops;

    type Entry = Ticked<D>;

    ghost pass_of = { λ entry. entry.made.entry.pass };

    ghost follows = { λ old entry new.
        GoesOn (moment D.moment) (images_at D.images_at) D.tells D.faults old entry new };

    ghost stays = { λ old new. Stays old new };

    ghost led = { λ opening history book.
        LeadsOn (moment D.moment) (images_at D.images_at) D.tells D.faults opening history book };

    ghost itself_stays = { leading.itself_stays };

    ghost empty_leads = { λ opening. (
      leading.empty_leads D.faults opening,
      λ told. stops.empty_stops (moment D.moment) (images_at D.images_at) opening,
    ) };

    ghost staying_leads = { λ opening history old new leads stays. (
      leading.staying_leads D.faults opening history old new leads.0 stays,
      λ told. stops.staying_stops (moment D.moment) (images_at D.images_at) opening history old new
          (leads.1 told)
          stays,
    ) };

    ghost following_leads = { λ opening history old entry new leads follows. (
      leading.following_leads D.faults opening history old entry new leads.0 follows.0,
      λ told. stops.following_stops (moment D.moment) (images_at D.images_at) D.faults opening
          history old entry new
          leads.0 follows.0 (leads.1 told) (follows.1 told),
    ) };
}
