ghost use Rattle.std.specs.Prelude.{◌≡◌};
ghost use Rattle.kom_model.specs.calls.Call.{Meets};
ghost use Rattle.kom_model.specs.calls.Server as Server;

use kom_model::CallError;
use kom_state::Asked;
use kom_types::{Boxed, Bytes, Decision, Info, Reply, Sequence, VersionInfo};

/// Call 35, get-time: the time of the entry.
pub fn get_time(asked: &Asked<'_>) -> Decision
    ensures { result ≡ (Server.get_time asked.now).rest }
{
    asked.answer(Reply::Time(asked.moment()))
}

/// Call 75, get-version-info: the protocol's version, and the server's name and version.
pub fn get_version_info(asked: &Asked<'_>) -> Result<Decision, CallError>
    ensures { Meets Server.get_version_info result }
{
    let alloc = asked.allocator();
    let of = VersionInfo {
        protocol: 11,
        software: Bytes::copy_of(alloc, b"komd")?,
        version: Bytes::copy_of(alloc, b"1.0")?,
    };
    Ok(asked.answer(Reply::VersionInfo(Boxed::new(alloc, of)?)))
}

/// Call 94, get-info: the four conferences that each server has at first.
pub fn get_info(asked: &Asked<'_>) -> Result<Decision, CallError>
    ensures { Meets Server.get_info result }
{
    let alloc = asked.allocator();
    let of = Info {
        version: 10000,
        conference_presentations: 1,
        person_presentations: 2,
        motds: 3,
        news: 4,
        motd_of_lyskom: 0,
        aux_items: Sequence::new(alloc),
    };
    Ok(asked.answer(Reply::Info(Boxed::new(alloc, of)?)))
}
