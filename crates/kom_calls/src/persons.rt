ghost use Rattle.std.specs.Prelude.{◌≡◌};
ghost use Rattle.kom_types.specs.calls.Persons.{patterns};
ghost use Rattle.kom_calls.specs.Reads.{ReadsBy, pattern_of, Reads};

use crate::arguments::Arguments;
use crate::fault::ArgumentFault;
use crate::shapes::{one_number, two_numbers};
use kom_types::{Call, NewPerson, PasswordChange};

/// The call about persons that has this number, if one has.
pub(crate) fn person_call(
    number: u32,
    arguments: &mut Arguments<'_>,
) -> Result<Option<Call>, ArgumentFault>
    ensures { ReadsBy (pattern_of number patterns) arguments.old result arguments.new }
{
    match number {
        7 => Ok(Some(set_priv_bits(arguments)?)),
        8 => Ok(Some(set_passwd(arguments)?)),
        49 => {
            let person = one_number(arguments)?;
            Ok(Some(Call::GetPersonStat { person }))
        }
        57 => {
            let (person, text) = two_numbers(arguments)?;
            Ok(Some(Call::SetUserArea { person, text }))
        }
        89 => Ok(Some(create_person(arguments)?)),
        106 => Ok(Some(set_pers_flags(arguments)?)),
        _ => Ok(None),
    }
}

/// Call 7.
fn set_priv_bits(arguments: &mut Arguments<'_>) -> Result<Call, ArgumentFault>
    ensures { Reads (pattern_of 7 patterns) arguments.old result }
{
    let person = arguments.integer()?;
    let privileges = arguments.bits_16()?;
    arguments.end()?;
    Ok(Call::SetPrivBits { person, privileges })
}

/// Call 8.
fn set_passwd(arguments: &mut Arguments<'_>) -> Result<Call, ArgumentFault>
    ensures { Reads (pattern_of 8 patterns) arguments.old result }
{
    let person = arguments.integer()?;
    let old_password = arguments.string()?;
    let new_password = arguments.string()?;
    arguments.end()?;
    let change = arguments.boxed(PasswordChange {
        person,
        old_password,
        new_password,
    })?;
    Ok(Call::SetPasswd(change))
}

/// Call 89.
fn create_person(arguments: &mut Arguments<'_>) -> Result<Call, ArgumentFault>
    ensures { Reads (pattern_of 89 patterns) arguments.old result }
{
    let name = arguments.string()?;
    let password = arguments.string()?;
    let flags = arguments.bits_8()?;
    let aux_items = arguments.aux_inputs()?;
    arguments.end()?;
    let person = arguments.boxed(NewPerson {
        name,
        password,
        flags,
        aux_items,
    })?;
    Ok(Call::CreatePerson(person))
}

/// Call 106.
fn set_pers_flags(arguments: &mut Arguments<'_>) -> Result<Call, ArgumentFault>
    ensures { Reads (pattern_of 106 patterns) arguments.old result }
{
    let person = arguments.integer()?;
    let flags = arguments.bits_8()?;
    arguments.end()?;
    Ok(Call::SetPersFlags { person, flags })
}
