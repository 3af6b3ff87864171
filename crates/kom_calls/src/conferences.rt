ghost use Rattle.std.specs.Prelude.{◌≡◌};
ghost use Rattle.kom_types.specs.calls.Conferences.{patterns};
ghost use Rattle.kom_calls.specs.Reads.{ReadsBy, pattern_of, Reads};

use crate::arguments::Arguments;
use crate::fault::ArgumentFault;
use crate::shapes::{number_and_string, one_number, two_numbers};
use kom_types::{Call, NewConference};

/// The call about conferences that has this number, if one has.
pub(crate) fn conference_call(
    number: u32,
    arguments: &mut Arguments<'_>,
) -> Result<Option<Call>, ArgumentFault>
    ensures { ReadsBy (pattern_of number patterns) arguments.old result arguments.new }
{
    match number {
        3 => {
            let (conference, name) = number_and_string(arguments)?;
            Ok(Some(Call::ChangeName { conference, name }))
        }
        11 => {
            let conference = one_number(arguments)?;
            Ok(Some(Call::DeleteConf { conference }))
        }
        16 => {
            let (conference, text) = two_numbers(arguments)?;
            Ok(Some(Call::SetPresentation { conference, text }))
        }
        17 => {
            let (conference, text) = two_numbers(arguments)?;
            Ok(Some(Call::SetEtcMotd { conference, text }))
        }
        18 => {
            let (conference, supervisor) = two_numbers(arguments)?;
            Ok(Some(Call::SetSupervisor {
                conference,
                supervisor,
            }))
        }
        19 => {
            let (conference, submitters) = two_numbers(arguments)?;
            Ok(Some(Call::SetPermittedSubmitters {
                conference,
                submitters,
            }))
        }
        20 => {
            let (conference, super_conference) = two_numbers(arguments)?;
            Ok(Some(Call::SetSuperConf {
                conference,
                super_conference,
            }))
        }
        21 => Ok(Some(set_conf_type(arguments)?)),
        22 => {
            let (conference, nice) = two_numbers(arguments)?;
            Ok(Some(Call::SetGarbNice { conference, nice }))
        }
        76 => Ok(Some(lookup_z_name(arguments)?)),
        78 => {
            let conference = one_number(arguments)?;
            Ok(Some(Call::GetUconfStat { conference }))
        }
        88 => Ok(Some(create_conf(arguments)?)),
        91 => {
            let conference = one_number(arguments)?;
            Ok(Some(Call::GetConfStat { conference }))
        }
        97 => {
            let (conference, expire) = two_numbers(arguments)?;
            Ok(Some(Call::SetExpire { conference, expire }))
        }
        105 => {
            let (conference, days) = two_numbers(arguments)?;
            Ok(Some(Call::SetKeepCommented { conference, days }))
        }
        114 => {
            arguments.end()?;
            Ok(Some(Call::FirstUnusedConfNo))
        }
        116 => {
            let start = one_number(arguments)?;
            Ok(Some(Call::FindNextConfNo { start }))
        }
        117 => {
            let start = one_number(arguments)?;
            Ok(Some(Call::FindPreviousConfNo { start }))
        }
        _ => Ok(None),
    }
}

/// Call 21.
fn set_conf_type(arguments: &mut Arguments<'_>) -> Result<Call, ArgumentFault>
    ensures { Reads (pattern_of 21 patterns) arguments.old result }
{
    let conference = arguments.integer()?;
    let kind = arguments.conference_type()?;
    arguments.end()?;
    Ok(Call::SetConfType { conference, kind })
}

/// Call 76.
fn lookup_z_name(arguments: &mut Arguments<'_>) -> Result<Call, ArgumentFault>
    ensures { Reads (pattern_of 76 patterns) arguments.old result }
{
    let name = arguments.string()?;
    let persons = arguments.flag()?;
    let conferences = arguments.flag()?;
    arguments.end()?;
    Ok(Call::LookupZName {
        name,
        persons,
        conferences,
    })
}

/// Call 88.
fn create_conf(arguments: &mut Arguments<'_>) -> Result<Call, ArgumentFault>
    ensures { Reads (pattern_of 88 patterns) arguments.old result }
{
    let name = arguments.string()?;
    let kind = arguments.conference_type()?;
    let aux_items = arguments.aux_inputs()?;
    arguments.end()?;
    let conference = arguments.boxed(NewConference {
        name,
        kind,
        aux_items,
    })?;
    Ok(Call::CreateConf(conference))
}
