ghost use Rattle.std.specs.Prelude.{◌≡◌};
ghost use Rattle.kom_types.specs.calls.Sessions.{patterns};
ghost use Rattle.kom_calls.specs.Reads.{ReadsBy, pattern_of, Reads};

use crate::arguments::Arguments;
use crate::fault::ArgumentFault;
use crate::shapes::{number_and_string, one_number};
use kom_types::{Call, ClientVersion, LoginPassword};

/// The call about sessions that has this number, if one has.
pub(crate) fn session_call(
    number: u32,
    arguments: &mut Arguments<'_>,
) -> Result<Option<Call>, ArgumentFault>
    ensures { ReadsBy (pattern_of number patterns) arguments.old result arguments.new }
{
    match number {
        1 => {
            arguments.end()?;
            Ok(Some(Call::Logout))
        }
        2 => {
            let conference = one_number(arguments)?;
            Ok(Some(Call::ChangeConference { conference }))
        }
        4 => Ok(Some(change_what_i_am_doing(arguments)?)),
        42 => Ok(Some(enable(arguments)?)),
        53 => {
            let (recipient, message) = number_and_string(arguments)?;
            Ok(Some(Call::SendMessage { recipient, message }))
        }
        55 => {
            let session = one_number(arguments)?;
            Ok(Some(Call::Disconnect { session }))
        }
        56 => {
            arguments.end()?;
            Ok(Some(Call::WhoAmI))
        }
        62 => Ok(Some(login(arguments)?)),
        69 => Ok(Some(set_client_version(arguments)?)),
        70 => {
            let session = one_number(arguments)?;
            Ok(Some(Call::GetClientName { session }))
        }
        71 => {
            let session = one_number(arguments)?;
            Ok(Some(Call::GetClientVersion { session }))
        }
        80 => Ok(Some(accept_async(arguments)?)),
        81 => {
            arguments.end()?;
            Ok(Some(Call::QueryAsync))
        }
        82 => {
            arguments.end()?;
            Ok(Some(Call::UserActive))
        }
        83 => Ok(Some(who_is_on_dynamic(arguments)?)),
        84 => {
            let session = one_number(arguments)?;
            Ok(Some(Call::GetStaticSessionInfo { session }))
        }
        _ => Ok(None),
    }
}

/// Call 4.
fn change_what_i_am_doing(arguments: &mut Arguments<'_>) -> Result<Call, ArgumentFault>
    ensures { Reads (pattern_of 4 patterns) arguments.old result }
{
    let doing = arguments.string()?;
    arguments.end()?;
    Ok(Call::ChangeWhatIAmDoing { doing })
}

/// Call 42.
fn enable(arguments: &mut Arguments<'_>) -> Result<Call, ArgumentFault>
    ensures { Reads (pattern_of 42 patterns) arguments.old result }
{
    let level = arguments.byte()?;
    arguments.end()?;
    Ok(Call::Enable { level })
}

/// Call 62. The password is hashed here, so that who decides the call has it hashed already.
fn login(arguments: &mut Arguments<'_>) -> Result<Call, ArgumentFault>
    ensures { Reads (pattern_of 62 patterns) arguments.old result }
{
    let person = arguments.integer()?;
    let password = arguments.string()?;
    let invisible = arguments.flag()?;
    arguments.end()?;
    let password = arguments.boxed(LoginPassword::of(person, password))?;
    Ok(Call::Login {
        person,
        password,
        invisible,
    })
}

/// Call 69.
fn set_client_version(arguments: &mut Arguments<'_>) -> Result<Call, ArgumentFault>
    ensures { Reads (pattern_of 69 patterns) arguments.old result }
{
    let name = arguments.string()?;
    let version = arguments.string()?;
    arguments.end()?;
    let client = arguments.boxed(ClientVersion { name, version })?;
    Ok(Call::SetClientVersion(client))
}

/// Call 80.
fn accept_async(arguments: &mut Arguments<'_>) -> Result<Call, ArgumentFault>
    ensures { Reads (pattern_of 80 patterns) arguments.old result }
{
    let numbers = arguments.numbers()?;
    arguments.end()?;
    Ok(Call::AcceptAsync { numbers })
}

/// Call 83.
fn who_is_on_dynamic(arguments: &mut Arguments<'_>) -> Result<Call, ArgumentFault>
    ensures { Reads (pattern_of 83 patterns) arguments.old result }
{
    let visible = arguments.flag()?;
    let invisible = arguments.flag()?;
    let idle = arguments.integer()?;
    arguments.end()?;
    Ok(Call::WhoIsOnDynamic {
        visible,
        invisible,
        idle,
    })
}
