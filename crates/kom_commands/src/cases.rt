ghost use Rattle.std.specs.Prelude.{◌≡◌};
ghost use Rattle.kom_commands.specs.Statuses.{status_of};

/// What went wrong as a command was carried out.
#[derive(Clone, Copy, Debug)]
pub struct Cases {
    /// The disk failed, was not opened, or the store on it refused a flush.
    pub store_failed: bool,
    /// The disk holds no store, or is not empty where one is to be made.
    pub is_unfit: bool,
    /// A gate failed, or the world.
    pub gate_failed: bool,
    /// Who was to sweep the store was not let in, or may not.
    pub is_refused: bool,
    /// A sweep was given up in the middle, and the store did not fail.
    pub is_given_up: bool,
    /// Memory ran out outside a session, or in a sweep.
    pub no_memory: bool,
}

impl Cases {
    /// The exit status, by these cases and whether the sink failed.
    pub fn status(self, sink_failed: bool) -> u8
        ensures { result ≡ status_of self sink_failed }
    {
        if self.store_failed {
            3
        } else if self.is_unfit {
            4
        } else if self.gate_failed {
            5
        } else if self.is_refused {
            8
        } else if self.is_given_up {
            10
        } else if sink_failed {
            7
        } else if self.no_memory {
            6
        } else {
            0
        }
    }
}
