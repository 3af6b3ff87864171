ghost use Rattle.std.specs.Prelude.{◌≡◌, ◌≤◌, length};
ghost use Rattle.kom_types.specs.declared.limits.TheConstants.{LONGEST_BODY};
ghost use Rattle.kom_types.specs.tables.Texts.{fresh_text};

use kom_types::{Bytes, Moment, TextRow, lines_of};

/// The row of a text that is made at this moment. Its author is 0 if it is anonymous.
pub fn fresh_text(number: u32, author: u32, created: Moment, body: Bytes) -> TextRow
    requires { length body ≤ LONGEST_BODY }
    ensures { result ≡ fresh_text number author created body }
{
    let lines = lines_of(body.as_slice()) as u32;
    TextRow {
        number,
        author,
        created,
        body,
        lines,
        created_local: 0,
        next_item: 1,
    }
}
