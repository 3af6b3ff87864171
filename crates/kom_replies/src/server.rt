ghost use Rattle.kom_types.specs.spellings.Server.{info, version_info};

use crate::arrays::put_array;
use crate::sinks::{Sink, put_numbers};
use crate::spelled::Spelled;
use kom_types::{Info, VersionInfo};

impl Spelled for VersionInfo {
    ghost spelling = { version_info };

    fn put<S: Sink>(&self, out: &mut S) -> Result<(), S::Refusal> {
        out.number(self.protocol)?;
        out.text(self.software.as_slice())?;
        out.text(self.version.as_slice())
    }
}

impl Spelled for Info {
    ghost spelling = { info };

    fn put<S: Sink>(&self, out: &mut S) -> Result<(), S::Refusal> {
        let numbers = [
            self.version,
            self.conference_presentations,
            self.person_presentations,
            self.motds,
            self.news,
            self.motd_of_lyskom,
        ];
        put_numbers(&numbers, out)?;
        put_array(self.aux_items.as_slice(), out)
    }
}
