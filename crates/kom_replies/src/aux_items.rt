ghost use Rattle.kom_types.specs.spellings.AuxItems.{aux_item};

use crate::sinks::{Sink, put_numbers, put_time};
use crate::spelled::Spelled;
use kom_types::AuxRow;

impl Spelled for AuxRow {
    ghost spelling = { aux_item };

    fn put<S: Sink>(&self, out: &mut S) -> Result<(), S::Refusal> {
        put_numbers(&[self.number, self.tag, self.creator], out)?;
        put_time(self.at, out)?;
        out.bits(8, u16::from(self.flags))?;
        out.number(self.limit)?;
        out.text(self.content.as_slice())
    }
}
