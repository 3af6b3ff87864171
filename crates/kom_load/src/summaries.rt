ghost use Rattle.std.specs.Prelude.{◌≡◌, IfOk};
ghost use Rattle.kom_load.specs.Summaries.{lines_of};

use kom_commands::push_line;
use kom_types::{Bytes, Memory};
use std::alloc::Global;

/// What a run came to: how many calls were made, how many of them answered with a good reply and
/// how many refused, and how many conferences and texts there are at its end.
#[derive(Clone, Copy, Debug)]
pub struct Summary {
    pub calls: u64,
    pub ok: u64,
    pub refused: u64,
    pub conferences: u64,
    pub texts: u64,
}

impl Summary {
    /// Its lines, as they are printed.
    pub fn lines(&self, alloc: Global) -> Result<Bytes, Memory>
        ensures { IfOk result (λ bytes. bytes ≡ lines_of self.now) }
    {
        let mut bytes = Vec::new(alloc);
        push_line(&mut bytes, b"calls", self.calls)?;
        push_line(&mut bytes, b"ok", self.ok)?;
        push_line(&mut bytes, b"refused", self.refused)?;
        push_line(&mut bytes, b"conferences", self.conferences)?;
        push_line(&mut bytes, b"texts", self.texts)?;
        Ok(Bytes::of(bytes))
    }
}
