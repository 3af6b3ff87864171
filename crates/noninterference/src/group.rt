ghost use Rattle.std.specs.Prelude.{◌≡◌};
ghost use Rattle.kom_model.specs.Kinds.{is_among};

use kom_types::Numbers;
use std::marker::Model;

/// Persons, and the sessions that they use, by their numbers.
#[derive(Drop)]
pub struct Group {
    persons: Numbers,
    sessions: Numbers,
}

impl Model for Group {
    ghost use Rattle.kom_laws.specs.Groups as Groups;

    ghost Value = { Groups.Group };

    ghost view = { λ group. record { persons = group.persons; sessions = group.sessions } };
}

impl Group {
    pub fn new(persons: Numbers, sessions: Numbers) -> Group
        ensures { result ≡ record { persons = persons; sessions = sessions } }
    {
        Group { persons, sessions }
    }

    /// Whether the session is one of the group's.
    pub(crate) fn has_session(&self, session: u32) -> bool
        ensures { result ≡ is_among self.now.sessions session }
    {
        self.sessions.as_slice().iter().any(|one| *one == session)
    }
}
