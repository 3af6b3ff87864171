ghost use Rattle.std.specs.Prelude.{◌≡◌};
ghost use Rattle.kom_types.specs.calls.Texts.{patterns};
ghost use Rattle.kom_calls.specs.Reads.{ReadsBy, pattern_of, Reads};
ghost use Rattle.kom_calls.specs.Reads.{ReadsText};

use crate::arguments::Arguments;
use crate::fault::ArgumentFault;
use crate::shapes::{one_number, three_numbers, two_numbers};
use kom_types::{Boxed, Call, NewText};

/// The call about texts that has this number, if one has.
pub(crate) fn text_call(
    number: u32,
    arguments: &mut Arguments<'_>,
) -> Result<Option<Call>, ArgumentFault>
    ensures { ReadsBy (pattern_of number patterns) arguments.old result arguments.new }
{
    match number {
        23 => {
            arguments.end()?;
            Ok(Some(Call::GetMarks))
        }
        25 => {
            let (text, start, end) = three_numbers(arguments)?;
            Ok(Some(Call::GetText { text, start, end }))
        }
        29 => {
            let text = one_number(arguments)?;
            Ok(Some(Call::DeleteText { text }))
        }
        30 => {
            let (text, conference, kind) = three_numbers(arguments)?;
            Ok(Some(Call::AddRecipient {
                text,
                conference,
                kind,
            }))
        }
        31 => {
            let (text, conference) = two_numbers(arguments)?;
            Ok(Some(Call::SubRecipient { text, conference }))
        }
        32 => {
            let (text, parent) = two_numbers(arguments)?;
            Ok(Some(Call::AddComment { text, parent }))
        }
        33 => {
            let (text, parent) = two_numbers(arguments)?;
            Ok(Some(Call::SubComment { text, parent }))
        }
        37 => {
            let (text, parent) = two_numbers(arguments)?;
            Ok(Some(Call::AddFootnote { text, parent }))
        }
        38 => {
            let (text, parent) = two_numbers(arguments)?;
            Ok(Some(Call::SubFootnote { text, parent }))
        }
        60 => {
            let start = one_number(arguments)?;
            Ok(Some(Call::FindNextTextNo { start }))
        }
        61 => {
            let start = one_number(arguments)?;
            Ok(Some(Call::FindPreviousTextNo { start }))
        }
        72 => Ok(Some(mark_text(arguments)?)),
        73 => {
            let text = one_number(arguments)?;
            Ok(Some(Call::UnmarkText { text }))
        }
        86 => {
            let text = new_text(arguments)?;
            Ok(Some(Call::CreateText(text)))
        }
        87 => {
            let text = new_text(arguments)?;
            Ok(Some(Call::CreateAnonymousText(text)))
        }
        90 => {
            let text = one_number(arguments)?;
            Ok(Some(Call::GetTextStat { text }))
        }
        103 => {
            let (conference, first, count) = three_numbers(arguments)?;
            Ok(Some(Call::LocalToGlobal {
                conference,
                first,
                count,
            }))
        }
        104 => {
            let (author, first, count) = three_numbers(arguments)?;
            Ok(Some(Call::MapCreatedTexts {
                author,
                first,
                count,
            }))
        }
        115 => {
            arguments.end()?;
            Ok(Some(Call::FirstUnusedTextNo))
        }
        121 => {
            let (conference, ceiling, count) = three_numbers(arguments)?;
            Ok(Some(Call::LocalToGlobalReverse {
                conference,
                ceiling,
                count,
            }))
        }
        _ => Ok(None),
    }
}

/// Call 72.
fn mark_text(arguments: &mut Arguments<'_>) -> Result<Call, ArgumentFault>
    ensures { Reads (pattern_of 72 patterns) arguments.old result }
{
    let text = arguments.integer()?;
    let kind = arguments.byte()?;
    arguments.end()?;
    Ok(Call::MarkText { text, kind })
}

/// Takes the parts of a text that is to be made, after which no token is left.
fn new_text(arguments: &mut Arguments<'_>) -> Result<Boxed<NewText>, ArgumentFault>
    ensures { ReadsText arguments.old result }
{
    let body = arguments.string()?;
    let misc_inputs = arguments.misc_inputs()?;
    let aux_items = arguments.aux_inputs()?;
    arguments.end()?;
    Ok(arguments.boxed(NewText {
        body,
        misc_inputs,
        aux_items,
    })?)
}
