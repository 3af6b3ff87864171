ghost use Rattle.std.specs.Prelude.{◌≡◌};
ghost use Rattle.kom_types.specs.calls.AuxItems.{patterns};
ghost use Rattle.kom_calls.specs.Reads.{ReadsBy, pattern_of};
ghost use Rattle.kom_calls.specs.Reads.{ReadsChange};

use crate::arguments::Arguments;
use crate::fault::ArgumentFault;
use kom_types::{AuxChange, Boxed, Call};

/// The call about aux-items that has this number, if one has.
pub(crate) fn aux_item_call(
    number: u32,
    arguments: &mut Arguments<'_>,
) -> Result<Option<Call>, ArgumentFault>
    ensures { ReadsBy (pattern_of number patterns) arguments.old result arguments.new }
{
    match number {
        92 => {
            let change = aux_change(arguments)?;
            Ok(Some(Call::ModifyTextInfo(change)))
        }
        93 => {
            let change = aux_change(arguments)?;
            Ok(Some(Call::ModifyConfInfo(change)))
        }
        96 => {
            arguments.end()?;
            Ok(Some(Call::QueryPredefinedAuxItems))
        }
        _ => Ok(None),
    }
}

/// Takes a change of an object's aux-items, after which no token is left.
fn aux_change(arguments: &mut Arguments<'_>) -> Result<Boxed<AuxChange>, ArgumentFault>
    ensures { ReadsChange arguments.old result }
{
    let object = arguments.integer()?;
    let delete = arguments.numbers()?;
    let add = arguments.aux_inputs()?;
    arguments.end()?;
    Ok(arguments.boxed(AuxChange {
        object,
        delete,
        add,
    })?)
}
