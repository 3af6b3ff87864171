ghost use Rattle.std.specs.Prelude.{◌≡◌, ◌++◌, ◌<◌, false, IfOk};
ghost use Rattle.kom_model.specs.Sending.{accepts, delivered_to};
ghost use Rattle.async_fanout.specs.Delivered.{brings};

use kom_model::Viewer;
use kom_state::Asked;
use kom_types::{Item, Memory, Message, Seat};
use std::alloc::Global;
use std::marker::Model;

/// An item for a session.
#[derive(Drop)]
pub struct Delivery {
    pub session: u32,
    pub item: Item,
}

impl Model for Delivery {
    ghost use Rattle.kom_model.specs.Sending.{Delivery as Sent};

    ghost Value = { Sent };

    ghost view = { λ delivery. record { session = delivery.session; item = delivery.item } };
}

/// A message as it is sent: its number, and what it tells who looks.
pub(crate) trait Tells {
    ghost use Rattle.kom_model.specs.Sending.{Sending};

    ghost sending: { Self → Sending };

    /// The number of the message.
    fn number(&self) -> u32
        ensures number { result ≡ (sending self.now).number }
        ensures below { result < 32 };

    /// What it tells who looks: `None` if nothing.
    fn told(&self, alloc: Global, viewer: &Viewer) -> Result<Option<Message>, Memory>
        ensures { IfOk result (λ told. told ≡ (sending self.now).told viewer.now) };
}

/// Adds what a message brings to each session, by rising session: the time grows with the sessions
/// that accept it.
pub(crate) fn deliver<M: Tells>(
    asked: &Asked<'_>,
    message: &M,
    into: &mut Vec<Delivery>,
) -> Result<(), Memory>
    ensures { IfOk result (λ done. into.new.items ≡ into.old.items
        ++ delivered_to asked.now.db asked.now.seats (M.sending message.now)) }
{
    let number = message.number();
    for place in 0..asked.sessions().len() {
        let Some(seat) = asked.sessions().nth_accepting(number, place) else {
            return Ok(());
        };
        deliver_to(asked, message, seat, into)?;
    }
    Ok(())
}

/// Adds what a message brings to a session that accepts it.
fn deliver_to<M: Tells>(
    asked: &Asked<'_>,
    message: &M,
    seat: &Seat,
    into: &mut Vec<Delivery>,
) -> Result<(), Memory>
    ensures { IfOk result (λ done. into.new.items
        ≡ into.old.items ++ brings asked.now.db (M.sending message.now) seat.now) }
{
    if seat.person == 0 {
        return Ok(());
    }
    let viewer = asked.viewer(seat);
    if let Some(told) = message.told(asked.allocator(), &viewer)? {
        into.push(Delivery {
            session: seat.number,
            item: Item::Message(told),
        })?;
    }
    Ok(())
}
