// What of a conference or a person is set or counted, as the number of a part and its value.
ghost use Rattle.std.specs.Prelude.{◌≡◌};
ghost use Rattle.effect_codec.specs.Fields.{OneOf, IsIn};
ghost use Rattle.effect_codec.specs.Table as table;

use kom_types::limits::LAST_MOMENT;
use kom_types::{ConfField, Counter, Moment, PersonField};

const NUMBER: u64 = u32::MAX as u64;

const HALF: u64 = u16::MAX as u64;

const BYTE: u64 = u8::MAX as u64;

// The greatest value of each part of a conference, of each part of a person, and of each counter.
pub(crate) const CONF_PARTS: [u64; 10] = [
    NUMBER,
    NUMBER,
    NUMBER,
    NUMBER,
    NUMBER,
    BYTE,
    NUMBER,
    NUMBER,
    NUMBER,
    LAST_MOMENT,
];

pub(crate) const PERSON_PARTS: [u64; 3] = [HALF, BYTE, NUMBER];

pub(crate) const COUNTERS: [u64; 7] = [u64::MAX; 7];

pub(crate) fn conf_setting(field: ConfField) -> (u8, u64)
    ensures part { result.0 ≡ (table.conf_setting field).part }
    ensures value { result.1 ≡ (table.conf_setting field).value }
    ensures range { IsIn (OneOf table.conf_parts) (table.conf_setting field) }
{
    match field {
        ConfField::Presentation(text) => (1, u64::from(text)),
        ConfField::Motd(text) => (2, u64::from(text)),
        ConfField::Supervisor(conference) => (3, u64::from(conference)),
        ConfField::PermittedSubmitters(conference) => (4, u64::from(conference)),
        ConfField::SuperConference(conference) => (5, u64::from(conference)),
        ConfField::Kind(kind) => (6, u64::from(kind)),
        ConfField::Nice(days) => (7, u64::from(days)),
        ConfField::KeepCommented(days) => (8, u64::from(days)),
        ConfField::Expire(days) => (9, u64::from(days)),
        ConfField::LastWritten(at) => (10, at.seconds()),
    }
}

pub(crate) fn person_setting(field: PersonField) -> (u8, u64)
    ensures part { result.0 ≡ (table.person_setting field).part }
    ensures value { result.1 ≡ (table.person_setting field).value }
    ensures range { IsIn (OneOf table.person_parts) (table.person_setting field) }
{
    match field {
        PersonField::Privileges(privileges) => (1, u64::from(privileges)),
        PersonField::Flags(flags) => (2, u64::from(flags)),
        PersonField::UserArea(text) => (3, u64::from(text)),
    }
}

pub(crate) fn counter_number(counter: Counter) -> u8
    ensures { result ≡ table.counter_number counter }
{
    match counter {
        Counter::TimePresent => 1,
        Counter::CreatedLines => 2,
        Counter::CreatedBytes => 3,
        Counter::ReadTexts => 4,
        Counter::TextFetches => 5,
        Counter::CreatedPersons => 6,
        Counter::CreatedConferences => 7,
    }
}

pub(crate) fn conf_field(part: u8, value: u64) -> ConfField
    requires { IsIn (OneOf table.conf_parts) (table.set_part part value) }
    ensures { result ≡ table.conf_field (table.set_part part value) }
{
    match part {
        1 => ConfField::Presentation(value as u32),
        2 => ConfField::Motd(value as u32),
        3 => ConfField::Supervisor(value as u32),
        4 => ConfField::PermittedSubmitters(value as u32),
        5 => ConfField::SuperConference(value as u32),
        6 => ConfField::Kind(value as u8),
        7 => ConfField::Nice(value as u32),
        8 => ConfField::KeepCommented(value as u32),
        9 => ConfField::Expire(value as u32),
        _ => ConfField::LastWritten(Moment::at_most(value)),
    }
}

pub(crate) fn person_field(part: u8, value: u64) -> PersonField
    requires { IsIn (OneOf table.person_parts) (table.set_part part value) }
    ensures { result ≡ table.person_field (table.set_part part value) }
{
    match part {
        1 => PersonField::Privileges(value as u16),
        2 => PersonField::Flags(value as u8),
        _ => PersonField::UserArea(value as u32),
    }
}

pub(crate) fn counter_of(part: u8) -> Counter
    ensures { result ≡ table.counter_of part }
{
    match part {
        1 => Counter::TimePresent,
        2 => Counter::CreatedLines,
        3 => Counter::CreatedBytes,
        4 => Counter::ReadTexts,
        5 => Counter::TextFetches,
        6 => Counter::CreatedPersons,
        _ => Counter::CreatedConferences,
    }
}
