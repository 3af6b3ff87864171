ghost use Rattle.std.specs.Prelude.{◌≡◌, true, false};
ghost use Rattle.kom_types.specs.calls.Arguments as argument;
ghost use Rattle.kom_calls.specs.Reads.{ReadsOne, ReadsTwo, ReadsThree};

use crate::arguments::Arguments;
use crate::fault::ArgumentFault;
use kom_types::Bytes;

/// Takes a number, after which no token is left.
pub(crate) fn one_number(arguments: &mut Arguments<'_>) -> Result<u32, ArgumentFault>
    ensures { ReadsOne false argument.integer arguments.old result }
{
    let first = arguments.integer()?;
    arguments.end()?;
    Ok(first)
}

/// Takes two numbers, after which no token is left.
pub(crate) fn two_numbers(arguments: &mut Arguments<'_>) -> Result<(u32, u32), ArgumentFault>
    ensures { ReadsTwo false argument.integer argument.integer arguments.old result }
{
    let first = arguments.integer()?;
    let second = arguments.integer()?;
    arguments.end()?;
    Ok((first, second))
}

/// Takes three numbers, after which no token is left.
pub(crate) fn three_numbers(arguments: &mut Arguments<'_>) -> Result<(u32, u32, u32), ArgumentFault>
    ensures { let integer = argument.integer in
        ReadsThree false integer integer integer arguments.old result }
{
    let first = arguments.integer()?;
    let second = arguments.integer()?;
    let third = arguments.integer()?;
    arguments.end()?;
    Ok((first, second, third))
}

/// Takes a number and a string, after which no token is left.
pub(crate) fn number_and_string(
    arguments: &mut Arguments<'_>,
) -> Result<(u32, Bytes), ArgumentFault>
    ensures { ReadsTwo true argument.integer argument.string arguments.old result }
{
    let first = arguments.integer()?;
    let second = arguments.string()?;
    arguments.end()?;
    Ok((first, second))
}
