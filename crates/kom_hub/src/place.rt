ghost use Rattle.std.specs.Prelude.{◌≡◌, ◌++◌, ◌∷◌, [], false};
ghost use Rattle.kom_links.specs.Answers.{said_stopped};
ghost use Rattle.kom_links.specs.declared.deeds.Deed.TheVariants as deeds;

use http_server::Log;
use kom_links::Deed;
use kom_types::{NotMade, Why};

/// What is kept of a seat between its turns: the session that was connected from it, 0 for none,
/// whether it is spent, and what was answered there, for clauses alone.
#[derive(Drop)]
pub struct Place {
    pub session: u32,
    /// It was flushed before anything was connected, which never comes. Nothing is connected then.
    pub is_spent: bool,
    pub answers: Log<Deed, Result<(), NotMade>>,
}

impl Place {
    /// A place from which no session was connected.
    pub fn new() -> Place
        ensures session { result.session ≡ 0 }
        ensures spent { result.is_spent ≡ false }
        ensures answers { result.answers.items ≡ [] }
    {
        Place {
            session: 0,
            is_spent: false,
            answers: Log::new(),
        }
    }

    /// A deed was answered so.
    pub(crate) fn tell(&mut self, deed: Deed, answer: Result<(), NotMade>)
        ensures { self.new ≡ record self.old {
          answers = record self.old.answers {
            items = self.old.answers.items ++ (deed, answer) ∷ [];
          };
        } }
    {
        self.answers = self.answers.and(&deed, &answer);
    }

    /// The question whether the desk is stopped was answered so: that it is counts as a fault.
    pub(crate) fn asked(&mut self, answer: Result<bool, NotMade>)
        ensures { self.new ≡ record self.old {
          answers = record self.old.answers {
            items = self.old.answers.items ++ (deeds.Ask, said_stopped answer) ∷ [];
          };
        } }
    {
        match answer {
            Ok(true) => self.tell(Deed::Ask, Err(NotMade::Gone(Why::Stopped))),
            Ok(false) => self.tell(Deed::Ask, Ok(())),
            Err(fault) => self.tell(Deed::Ask, Err(fault)),
        }
    }
}
