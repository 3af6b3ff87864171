ghost use Rattle.std.specs.Prelude.{◌≡◌};
ghost use Rattle.kom_types.specs.calls.Server.{patterns};
ghost use Rattle.kom_calls.specs.Reads.{ReadsBy, pattern_of};

use crate::arguments::Arguments;
use crate::fault::ArgumentFault;
use crate::shapes::one_number;
use kom_types::Call;

/// The call about the server that has this number, if one has.
pub(crate) fn server_call(
    number: u32,
    arguments: &mut Arguments<'_>,
) -> Result<Option<Call>, ArgumentFault>
    ensures { ReadsBy (pattern_of number patterns) arguments.old result arguments.new }
{
    match number {
        35 => {
            arguments.end()?;
            Ok(Some(Call::GetTime))
        }
        43 => {
            arguments.end()?;
            Ok(Some(Call::SyncKom))
        }
        44 => {
            let value = one_number(arguments)?;
            Ok(Some(Call::ShutdownKom { value }))
        }
        75 => {
            arguments.end()?;
            Ok(Some(Call::GetVersionInfo))
        }
        85 => {
            arguments.end()?;
            Ok(Some(Call::GetCollateTable))
        }
        94 => {
            arguments.end()?;
            Ok(Some(Call::GetInfo))
        }
        _ => Ok(None),
    }
}
