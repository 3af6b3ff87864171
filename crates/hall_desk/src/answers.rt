// What the calls of a desk answer where a turn ended so.
ghost use Rattle.std.specs.Prelude.{◌≡◌};
ghost use Rattle.kom_links.specs.Answers.{without_value, said_stopped};
ghost use Rattle.hall_desk.specs.Turns.{said_flush};

use kom_types::{Made, NotMade, Why};

/// The answer to an act.
pub(crate) fn answer_of(made: &Result<Made, NotMade>) -> Result<(), NotMade>
    ensures { result ≡ without_value made.now }
{
    match made {
        Ok(_made) => Ok(()),
        Err(fault) => Err(*fault),
    }
}

/// The answer to a flush: the desk is stopped where the store refused it.
pub(crate) fn flush_answer(made: Result<Made, NotMade>) -> Result<(), NotMade>
    ensures { result ≡ said_flush made }
{
    match made {
        Ok(made) => {
            if made.is_short() {
                Err(NotMade::Gone(Why::Stopped))
            } else {
                Ok(())
            }
        }
        Err(fault) => Err(fault),
    }
}

/// What is logged of the question whether the server is stopped: that it is counts as a fault.
pub(crate) fn stop_answer(stopped: Result<bool, NotMade>) -> Result<(), NotMade>
    ensures { result ≡ said_stopped stopped }
{
    match stopped {
        Ok(true) => Err(NotMade::Gone(Why::Stopped)),
        Ok(false) => Ok(()),
        Err(fault) => Err(fault),
    }
}
