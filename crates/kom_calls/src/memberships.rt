ghost use Rattle.std.specs.Prelude.{◌≡◌};
ghost use Rattle.kom_types.specs.calls.Memberships.{patterns};
ghost use Rattle.kom_calls.specs.Reads.{ReadsBy, pattern_of, Reads};

use crate::arguments::Arguments;
use crate::fault::ArgumentFault;
use crate::shapes::{one_number, three_numbers, two_numbers};
use kom_types::Call;

/// The call about memberships that has this number, if one has.
pub(crate) fn membership_call(
    number: u32,
    arguments: &mut Arguments<'_>,
) -> Result<Option<Call>, ArgumentFault>
    ensures { ReadsBy (pattern_of number patterns) arguments.old result arguments.new }
{
    match number {
        15 => {
            let (conference, person) = two_numbers(arguments)?;
            Ok(Some(Call::SubMember { conference, person }))
        }
        27 => Ok(Some(mark_as_read(arguments)?)),
        40 => {
            let (conference, count) = two_numbers(arguments)?;
            Ok(Some(Call::SetUnread { conference, count }))
        }
        52 => {
            let person = one_number(arguments)?;
            Ok(Some(Call::GetUnreadConfs { person }))
        }
        77 => {
            let (conference, local) = two_numbers(arguments)?;
            Ok(Some(Call::SetLastRead { conference, local }))
        }
        100 => Ok(Some(add_member(arguments)?)),
        101 => {
            let (conference, first, count) = three_numbers(arguments)?;
            Ok(Some(Call::GetMembers {
                conference,
                first,
                count,
            }))
        }
        102 => Ok(Some(set_membership_type(arguments)?)),
        107 => Ok(Some(query_read_texts(arguments)?)),
        108 => Ok(Some(get_membership(arguments)?)),
        109 => {
            let (conference, local) = two_numbers(arguments)?;
            Ok(Some(Call::MarkAsUnread { conference, local }))
        }
        110 => Ok(Some(set_read_ranges(arguments)?)),
        _ => Ok(None),
    }
}

/// Call 27.
fn mark_as_read(arguments: &mut Arguments<'_>) -> Result<Call, ArgumentFault>
    ensures { Reads (pattern_of 27 patterns) arguments.old result }
{
    let conference = arguments.integer()?;
    let locals = arguments.numbers()?;
    arguments.end()?;
    Ok(Call::MarkAsRead { conference, locals })
}

/// Call 100.
fn add_member(arguments: &mut Arguments<'_>) -> Result<Call, ArgumentFault>
    ensures { Reads (pattern_of 100 patterns) arguments.old result }
{
    let conference = arguments.integer()?;
    let person = arguments.integer()?;
    let priority = arguments.byte()?;
    let place = arguments.integer()?;
    let kind = arguments.bits_8()?;
    arguments.end()?;
    Ok(Call::AddMember {
        conference,
        person,
        priority,
        place,
        kind,
    })
}

/// Call 102.
fn set_membership_type(arguments: &mut Arguments<'_>) -> Result<Call, ArgumentFault>
    ensures { Reads (pattern_of 102 patterns) arguments.old result }
{
    let person = arguments.integer()?;
    let conference = arguments.integer()?;
    let kind = arguments.bits_8()?;
    arguments.end()?;
    Ok(Call::SetMembershipType {
        person,
        conference,
        kind,
    })
}

/// Call 107.
fn query_read_texts(arguments: &mut Arguments<'_>) -> Result<Call, ArgumentFault>
    ensures { Reads (pattern_of 107 patterns) arguments.old result }
{
    let person = arguments.integer()?;
    let conference = arguments.integer()?;
    let want_ranges = arguments.flag()?;
    let most = arguments.integer()?;
    arguments.end()?;
    Ok(Call::QueryReadTexts {
        person,
        conference,
        want_ranges,
        most,
    })
}

/// Call 108.
fn get_membership(arguments: &mut Arguments<'_>) -> Result<Call, ArgumentFault>
    ensures { Reads (pattern_of 108 patterns) arguments.old result }
{
    let person = arguments.integer()?;
    let first = arguments.integer()?;
    let count = arguments.integer()?;
    let want_ranges = arguments.flag()?;
    let most = arguments.integer()?;
    arguments.end()?;
    Ok(Call::GetMembership {
        person,
        first,
        count,
        want_ranges,
        most,
    })
}

/// Call 110.
fn set_read_ranges(arguments: &mut Arguments<'_>) -> Result<Call, ArgumentFault>
    ensures { Reads (pattern_of 110 patterns) arguments.old result }
{
    let conference = arguments.integer()?;
    let ranges = arguments.read_ranges()?;
    arguments.end()?;
    Ok(Call::SetReadRanges { conference, ranges })
}
