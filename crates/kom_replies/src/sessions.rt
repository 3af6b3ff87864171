ghost use Rattle.kom_types.specs.spellings.Sessions.{dynamic_session, static_session};

use crate::sinks::{Sink, put_numbers, put_time};
use crate::spelled::Spelled;
use kom_types::{DynamicSession, StaticSession};

impl Spelled for DynamicSession {
    ghost spelling = { dynamic_session };

    fn put<S: Sink>(&self, out: &mut S) -> Result<(), S::Refusal> {
        let numbers = [self.session, self.person, self.working, self.idle];
        put_numbers(&numbers, out)?;
        out.bits(8, u16::from(self.flags))?;
        out.text(self.doing.as_slice())
    }
}

impl Spelled for StaticSession {
    ghost spelling = { static_session };

    fn put<S: Sink>(&self, out: &mut S) -> Result<(), S::Refusal> {
        out.text(self.user.as_slice())?;
        out.text(self.host.as_slice())?;
        out.text(self.ident_user.as_slice())?;
        put_time(self.connected, out)
    }
}
