ghost use Rattle.std.specs.Prelude.{◌≡◌, ◌-◌, ◌^◌, length, min};
ghost use Rattle.kom_types.specs.Printing.{print_of};
ghost use Rattle.kom_types.specs.Sessions.{waiting_limits, queue};
ghost use Rattle.kom_model.specs.After.{with_session, queue_all};

use super::ServerState;
use async_fanout::Delivery;
use kom_replies::printed_len;
use kom_types::Item;

impl ServerState {
    /// Queues items one by one for their sessions.
    pub(super) fn queue_all(&mut self, deliveries: Vec<Delivery>)
        ensures { self.new ≡ queue_all waiting_limits deliveries.items self.old }
    {
        for delivery in deliveries {
            let Delivery { session, item } = delivery;
            self.queue(session, item);
        }
    }

    /// Queues an item for a session, if that is there.
    pub(super) fn queue(&mut self, session: u32, item: Item)
        ensures { self.new
            ≡ with_session session (queue waiting_limits self.old.entries item) self.old }
    {
        let len = printed_len(&item);
        self.queue_measured(session, item, len);
    }

    /// The same of an item that prints to so many bytes.
    pub(super) fn queue_measured(&mut self, session: u32, item: Item, len: u64)
        requires { len ≡ min (length (print_of item)) (2 ^ 64 - 1) }
        ensures { self.new
            ≡ with_session session (queue waiting_limits self.old.entries item) self.old }
    {
        if self.sessions.get(session).is_some() {
            self.sessions.queue(session, item, len, self.entries);
        } else {
            drop(item);
        }
    }
}
