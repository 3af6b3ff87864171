ghost use Rattle.std.specs.Prelude.{◌≡◌, refl};
ghost use Rattle.std.proofs.Common.{◌∙◌};
ghost use Rattle.kom_hub.specs.Seats.{seat_view, Leaves};
ghost use Rattle.kom_hub.specs.Going.{leaves_itself, leaves_further};

use crate::place::Place;
use arrayvec::ArrayVec;
use kom_links::{Deed, Desk};
use kom_types::{Call, Item, Moment, NotMade};

/// A desk as one guest of many sees it: its own session alone.
#[derive(Drop)]
pub struct Seat<'k, 'p, K: Desk> {
    pub desk: &'k mut K,
    pub place: &'p mut Place,
}

impl<'k, 'p, K: Desk> Desk for Seat<'k, 'p, K> {
    ghost view = { λ seat. seat_view seat.place.now (K.view seat.desk.now) };

    ghost goes_on = { λ old new. (new.desk.ghost_name ≡ old.desk.ghost_name)
        × (new.place.ghost_name ≡ old.place.ghost_name)
        × K.goes_on old.desk.now new.desk.now
        × Leaves old.place.now (K.view old.desk.now) new.place.now (K.view new.desk.now) };

    ghost goes_on_itself = { λ seat. (
      refl,
      refl,
      K.goes_on_itself seat.desk.now,
      leaves_itself seat.place.now (K.view seat.desk.now),
    ) };

    ghost goes_on_further = { λ first second third one two. (
      two.0 ∙ one.0,
      two.1 ∙ one.1,
      K.goes_on_further _ _ _ one.2 two.2,
      leaves_further _ _ _ _ _ _ one.3 two.3,
    ) };

    fn connect(&mut self, moment: Moment, user: &[u8], host: &[u8]) -> Result<u32, NotMade> {
        if self.place.session != 0 {
            self.place.tell(Deed::Connect, Err(NotMade::Memory));
            return Err(NotMade::Memory);
        }
        if self.place.is_spent {
            self.place.tell(Deed::Connect, Err(NotMade::Memory));
            return Err(NotMade::Memory);
        }
        match self.desk.connect(moment, user, host) {
            Ok(number) => {
                self.place.session = number;
                self.place.tell(Deed::Connect, Ok(()));
                Ok(number)
            }
            Err(fault) => {
                self.place.tell(Deed::Connect, Err(fault));
                Err(fault)
            }
        }
    }

    fn call(
        &mut self,
        moment: Moment,
        session: u32,
        reference: u32,
        call: Call,
    ) -> Result<(), NotMade> {
        let answer = self.desk.call(moment, session, reference, call);
        self.place.tell(Deed::Call(session), answer);
        answer
    }

    fn broken(&mut self, moment: Moment, session: u32) -> Result<(), NotMade> {
        let answer = self.desk.broken(moment, session);
        self.place.tell(Deed::Broken(session), answer);
        answer
    }

    fn drain_into(
        &mut self,
        moment: Moment,
        session: u32,
        into: &mut ArrayVec<Item, 64>,
    ) -> Result<(), NotMade> {
        let answer = self.desk.drain_into(moment, session, into);
        self.place
            .tell(Deed::Drain(session, into.is_empty()), answer);
        answer
    }

    fn flush(&mut self, moment: Moment) -> Result<(), NotMade> {
        if self.place.session == 0 {
            self.place.is_spent = true;
            self.place.tell(Deed::Flush, Err(NotMade::Memory));
            return Err(NotMade::Memory);
        }
        let answer = self.desk.flush(moment);
        self.place.tell(Deed::Flush, answer);
        answer
    }

    fn close(&mut self, moment: Moment, session: u32) -> Result<(), NotMade> {
        let answer = self.desk.close(moment, session);
        self.place.tell(Deed::Close(session), answer);
        answer
    }

    fn stopped(&mut self) -> Result<bool, NotMade> {
        let answer = self.desk.stopped();
        self.place.asked(answer);
        answer
    }
}
