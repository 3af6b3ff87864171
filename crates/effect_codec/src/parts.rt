// The parts of a snapshot as bytes, written from lists that are borrowed.
ghost use Rattle.std.specs.Prelude.{◌≡◌, ◌+◌, ◌≤◌, ◌++◌, length, vec_len, vec_capacity};
ghost use Rattle.kom_types.specs.Parts.{part_of};
ghost use Rattle.effect_codec.specs.Parts.{coded_part, IsPartInRange, IsPartShort};

use crate::raised::{RAISED_LEN, append_raised};
use crate::sizes::{bytes_len, coded_len};
use crate::writing::{
    append, append_conference, append_item, append_login, append_read, append_text,
};
use kom_types::PartRef;

/// How many bytes a part has.
pub fn part_len(part: &PartRef<'_>) -> u64
    ensures { result ≡ length (coded_part (part_of part.now)) }
{
    match part {
        PartRef::Plain(effect) => coded_len(effect),
        PartRef::ConferenceAdded { name, .. } => 26 + bytes_len(name),
        PartRef::LoggedIn { user, .. } => 17 + bytes_len(user),
        PartRef::TextAdded { body, .. } => 21 + bytes_len(body),
        PartRef::ReadSet { ranges, .. } => 21 + 8 * ranges.len() as u64,
        PartRef::ItemAdded { item, .. } => 35 + bytes_len(item.content.as_slice()),
        PartRef::Raised(_) => RAISED_LEN as u64,
    }
}

/// Puts the bytes of a part at the end. Takes no memory.
pub fn append_part(out: &mut Vec<u8>, part: &PartRef<'_>)
    requires lengths { IsPartShort (part_of part.now) }
    requires room { vec_len out.old + length (coded_part (part_of part.now))
        ≤ vec_capacity out.old }
    ensures items { out.new.items ≡ out.old.items ++ coded_part (part_of part.now) }
    ensures capacity { vec_capacity out.old ≤ vec_capacity out.new }
    ensures range { IsPartInRange (part_of part.now) }
{
    match part {
        PartRef::Plain(effect) => append(out, effect),
        PartRef::ConferenceAdded {
            number,
            name,
            kind,
            at,
            creator,
            supervisor,
        } => append_conference(out, *number, name, *kind, *at, *creator, *supervisor),
        PartRef::LoggedIn { number, at, user } => append_login(out, *number, *at, user),
        PartRef::TextAdded {
            number,
            author,
            at,
            body,
        } => append_text(out, *number, *author, *at, body),
        PartRef::ReadSet {
            person,
            conference,
            at,
            ranges,
        } => append_read(out, *person, *conference, *at, ranges),
        PartRef::ItemAdded {
            on_text,
            object,
            item,
        } => append_item(out, *on_text, *object, item),
        PartRef::Raised(given) => append_raised(out, *given),
    }
}
