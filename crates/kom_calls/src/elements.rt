ghost use Rattle.std.specs.Prelude.{◌≡◌, List, true, false};
ghost use Rattle.kom_types.specs.Token.{Token};
ghost use Rattle.kom_types.specs.calls.Arguments as argument;
ghost use Rattle.kom_types.specs.calls.Arguments.{Taken};
ghost use Rattle.kom_calls.specs.Telling.{ReadsAs};

use crate::arguments::Arguments;
use crate::fault::ArgumentFault;
use kom_types::{AuxInput, MiscInput, Numbers, ReadRange};

/// What an array has many of.
pub(crate) trait Element: Drop {
    ghost reads: { List Token → Taken Self };

    /// Takes one.
    fn take_from(arguments: &mut Arguments<'_>) -> Result<Self, ArgumentFault>
        ensures { ReadsAs true (reads arguments.old) result arguments.new };
}

impl Element for u32 {
    ghost reads = { argument.integer };

    fn take_from(arguments: &mut Arguments<'_>) -> Result<u32, ArgumentFault> {
        Ok(arguments.integer()?)
    }
}

impl Element for ReadRange {
    ghost reads = { argument.read_range };

    fn take_from(arguments: &mut Arguments<'_>) -> Result<ReadRange, ArgumentFault> {
        let first = arguments.integer()?;
        let last = arguments.integer()?;
        Ok(ReadRange { first, last })
    }
}

impl Element for MiscInput {
    ghost reads = { argument.misc_input };

    fn take_from(arguments: &mut Arguments<'_>) -> Result<MiscInput, ArgumentFault> {
        let tag = arguments.integer()?;
        let value = misc_value(arguments, tag)?;
        Ok(MiscInput { tag, value })
    }
}

impl Element for AuxInput {
    ghost reads = { argument.aux_input };

    fn take_from(arguments: &mut Arguments<'_>) -> Result<AuxInput, ArgumentFault> {
        let tag = arguments.integer()?;
        let flags = arguments.bits_8()?;
        let inherit_limit = arguments.integer()?;
        let content = arguments.string()?;
        Ok(AuxInput {
            tag,
            flags,
            inherit_limit,
            content,
        })
    }
}

/// Takes the value of a link with this tag.
fn misc_value(arguments: &mut Arguments<'_>, tag: u32) -> Result<u32, ArgumentFault>
    ensures { ReadsAs true (argument.misc_value tag arguments.old) result arguments.new }
{
    match tag {
        0 | 1 | 2 | 3 | 4 | 5 | 6 | 8 | 15 => Ok(arguments.integer()?),
        7 | 9 => Ok(time(arguments)?),
        _ => Err(ArgumentFault::Malformed),
    }
}

/// Takes a time, of which nothing is kept.
fn time(arguments: &mut Arguments<'_>) -> Result<u32, ArgumentFault>
    ensures { ReadsAs true (argument.time arguments.old) result arguments.new }
{
    let _parts: Numbers = arguments.elements(8)?;
    let _summer = arguments.flag()?;
    Ok(0)
}
