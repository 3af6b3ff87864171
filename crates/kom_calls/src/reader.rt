ghost use Rattle.std.specs.Prelude.{◌≡◌, IfOk};
ghost use Rattle.kom_types.specs.Reading.{patterns, reading_of};
ghost use Rattle.kom_calls.specs.Reads.{ReadsBy, IsKnown, pattern_of};
ghost use Rattle.kom_calls.specs.Lines.{TellsReading, NeedsRoom};

use crate::arguments::Arguments;
use crate::aux_items::aux_item_call;
use crate::conferences::conference_call;
use crate::fault::ArgumentFault;
use crate::memberships::membership_call;
use crate::persons::person_call;
use crate::server::server_call;
use crate::sessions::session_call;
use crate::texts::text_call;
use kom_framing::Line;
use kom_types::Call;
use std::alloc::Global;

/// Why a line is no call that the server knows. A reference that is told is the line's.
#[derive(Clone, Copy, Debug, PartialEq, Eq)]
pub enum CallFault {
    /// No call has this number.
    Unknown(u32),
    /// An integer that is neither 0 nor 1 stands in place of a truth value.
    BadBool(u32),
    /// An array is too long.
    LongArray(u32),
    /// The line departs from the pattern of its call, or has no reference and call number.
    Malformed,
    /// Memory ran out for a string or an array.
    Memory,
}

/// The reference of a line, and its call with the arguments, which are allocated there.
pub fn read_call(alloc: Global, line: &Line) -> Result<(u32, Call), CallFault>
    ensures reading { TellsReading (reading_of line.now.tokens) result }
    ensures known { IfOk result (λ read. IsKnown read.1) }
    ensures room { NeedsRoom result line.now.tokens }
{
    let mut arguments = Arguments::of(alloc, line);
    let Ok(reference) = arguments.integer() else {
        return Err(CallFault::Malformed);
    };
    let Ok(number) = arguments.integer() else {
        return Err(CallFault::Malformed);
    };
    match call_by_number(number, &mut arguments) {
        Ok(Some(call)) => Ok((reference, call)),
        Ok(None) => Err(CallFault::Unknown(reference)),
        Err(ArgumentFault::Malformed) => Err(CallFault::Malformed),
        Err(ArgumentFault::BadBool) => Err(CallFault::BadBool(reference)),
        Err(ArgumentFault::LongArray) => Err(CallFault::LongArray(reference)),
        Err(ArgumentFault::Memory) => Err(CallFault::Memory),
    }
}

/// The call that has this number, if one has.
fn call_by_number(number: u32, arguments: &mut Arguments<'_>) -> Result<Option<Call>, ArgumentFault>
    ensures { ReadsBy (pattern_of number patterns) arguments.old result arguments.new }
{
    if let Some(call) = session_call(number, arguments)? {
        return Ok(Some(call));
    }
    if let Some(call) = server_call(number, arguments)? {
        return Ok(Some(call));
    }
    if let Some(call) = person_call(number, arguments)? {
        return Ok(Some(call));
    }
    if let Some(call) = conference_call(number, arguments)? {
        return Ok(Some(call));
    }
    if let Some(call) = text_call(number, arguments)? {
        return Ok(Some(call));
    }
    if let Some(call) = membership_call(number, arguments)? {
        return Ok(Some(call));
    }
    aux_item_call(number, arguments)
}
