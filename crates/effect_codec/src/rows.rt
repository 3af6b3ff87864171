// The effects of the table's rows, each read from its fields.
ghost use Rattle.effect_codec.specs.Coding.{row_at, kind_at};
ghost use Rattle.effect_codec.specs.Giving.{Gives};
ghost use Rattle.effect_codec.specs.Table as table;

use crate::reader::Reader;
use crate::settings::{CONF_PARTS, COUNTERS, PERSON_PARTS, conf_field, counter_of, person_field};
use crate::stop::Stop;
use kom_types::limits::{LONGEST_BODY, LONGEST_CONTENT, LONGEST_NAME, LONGEST_USER_NAME};
use kom_types::{AuxRow, Effect, Recipient, TextLink};

/// The effect of this kind that the bytes begin with.
pub(crate) fn effect_of(kind: u8, from: &mut Reader<'_>) -> Result<Effect, Stop>
    ensures { Gives (λ x. x) (kind_at (table.row_of kind) from.old) result from.new }
{
    match kind {
        1 => conf_added(from),
        2 => conf_gone(from),
        3 => conf_named(from),
        4 => conf_set(from),
        5 => person_added(from),
        6 => person_gone(from),
        7 => person_set(from),
        8 => password(from),
        9 => logged_in(from),
        10 => counted(from),
        11 => text_added(from),
        12 => text_gone(from),
        13 => recipient_added(from),
        14 => recipient_gone(from),
        15 => link_added(from),
        16 => link_gone(from),
        17 => member_set(from),
        18 => member_gone(from),
        19 => read_set(from),
        20 => mark_set(from),
        21 => mark_gone(from),
        22 => aux_added(from),
        23 => aux_gone(from),
        24 => created(from),
        _ => Err(Stop::Wrong),
    }
}

fn conf_added(from: &mut Reader<'_>) -> Result<Effect, Stop>
    ensures { Gives (λ x. x) (row_at table.conf_added from.old) result from.new }
{
    Ok(Effect::ConfAdded {
        number: from.number()?,
        name: from.text(LONGEST_NAME)?,
        kind: from.byte()?,
        at: from.moment()?,
        creator: from.number()?,
        supervisor: from.number()?,
    })
}

fn conf_gone(from: &mut Reader<'_>) -> Result<Effect, Stop>
    ensures { Gives (λ x. x) (row_at table.conf_gone from.old) result from.new }
{
    Ok(Effect::ConfGone {
        number: from.number()?,
    })
}

fn conf_named(from: &mut Reader<'_>) -> Result<Effect, Stop>
    ensures { Gives (λ x. x) (row_at table.conf_named from.old) result from.new }
{
    Ok(Effect::ConfNamed {
        number: from.number()?,
        name: from.text(LONGEST_NAME)?,
    })
}

fn conf_set(from: &mut Reader<'_>) -> Result<Effect, Stop>
    ensures { Gives (λ x. x) (row_at table.conf_set from.old) result from.new }
{
    let number = from.number()?;
    let (part, value) = from.setting(&CONF_PARTS)?;
    Ok(Effect::ConfField {
        number,
        field: conf_field(part, value),
    })
}

fn person_added(from: &mut Reader<'_>) -> Result<Effect, Stop>
    ensures { Gives (λ x. x) (row_at table.person_added from.old) result from.new }
{
    Ok(Effect::PersonAdded {
        number: from.number()?,
        privileges: from.half()?,
        flags: from.byte()?,
        last_login: from.moment()?,
    })
}

fn person_gone(from: &mut Reader<'_>) -> Result<Effect, Stop>
    ensures { Gives (λ x. x) (row_at table.person_gone from.old) result from.new }
{
    Ok(Effect::PersonGone {
        number: from.number()?,
    })
}

fn person_set(from: &mut Reader<'_>) -> Result<Effect, Stop>
    ensures { Gives (λ x. x) (row_at table.person_set from.old) result from.new }
{
    let number = from.number()?;
    let (part, value) = from.setting(&PERSON_PARTS)?;
    Ok(Effect::PersonField {
        number,
        field: person_field(part, value),
    })
}

fn password(from: &mut Reader<'_>) -> Result<Effect, Stop>
    ensures { Gives (λ x. x) (row_at table.password from.old) result from.new }
{
    Ok(Effect::Password {
        number: from.number()?,
        hash: from.hash()?,
    })
}

fn logged_in(from: &mut Reader<'_>) -> Result<Effect, Stop>
    ensures { Gives (λ x. x) (row_at table.logged_in from.old) result from.new }
{
    Ok(Effect::LoggedIn {
        number: from.number()?,
        at: from.moment()?,
        user: from.text(LONGEST_USER_NAME as u32)?,
    })
}

fn counted(from: &mut Reader<'_>) -> Result<Effect, Stop>
    ensures { Gives (λ x. x) (row_at table.counter_raised from.old) result from.new }
{
    let number = from.number()?;
    let (part, by) = from.setting(&COUNTERS)?;
    Ok(Effect::Counted {
        number,
        counter: counter_of(part),
        by,
    })
}

fn text_added(from: &mut Reader<'_>) -> Result<Effect, Stop>
    ensures { Gives (λ x. x) (row_at table.text_added from.old) result from.new }
{
    Ok(Effect::TextAdded {
        number: from.number()?,
        author: from.number()?,
        at: from.moment()?,
        body: from.text(LONGEST_BODY)?,
    })
}

fn text_gone(from: &mut Reader<'_>) -> Result<Effect, Stop>
    ensures { Gives (λ x. x) (row_at table.text_gone from.old) result from.new }
{
    Ok(Effect::TextGone {
        number: from.number()?,
    })
}

fn recipient_added(from: &mut Reader<'_>) -> Result<Effect, Stop>
    ensures { Gives (λ x. x) (row_at table.recipient_added from.old) result from.new }
{
    Ok(Effect::RecipientAdded(Recipient {
        text: from.number()?,
        conference: from.number()?,
        tag: from.small()?,
        local: from.number()?,
        sender: from.number()?,
        at: from.moment()?,
    }))
}

fn recipient_gone(from: &mut Reader<'_>) -> Result<Effect, Stop>
    ensures { Gives (λ x. x) (row_at table.recipient_gone from.old) result from.new }
{
    Ok(Effect::RecipientGone {
        text: from.number()?,
        conference: from.number()?,
    })
}

fn link_added(from: &mut Reader<'_>) -> Result<Effect, Stop>
    ensures { Gives (λ x. x) (row_at table.link_added from.old) result from.new }
{
    Ok(Effect::LinkAdded(TextLink {
        child: from.number()?,
        parent: from.number()?,
        footnote: from.flag()?,
        sender: from.number()?,
        at: from.moment()?,
    }))
}

fn link_gone(from: &mut Reader<'_>) -> Result<Effect, Stop>
    ensures { Gives (λ x. x) (row_at table.link_gone from.old) result from.new }
{
    Ok(Effect::LinkGone {
        child: from.number()?,
        parent: from.number()?,
        footnote: from.flag()?,
    })
}

fn member_set(from: &mut Reader<'_>) -> Result<Effect, Stop>
    ensures { Gives (λ x. x) (row_at table.member_set from.old) result from.new }
{
    Ok(Effect::MemberSet {
        person: from.number()?,
        conference: from.number()?,
        position: from.number()?,
        priority: from.small()?,
        added_by: from.number()?,
        added_at: from.moment()?,
        kind: from.byte()?,
    })
}

fn member_gone(from: &mut Reader<'_>) -> Result<Effect, Stop>
    ensures { Gives (λ x. x) (row_at table.member_gone from.old) result from.new }
{
    Ok(Effect::MemberGone {
        person: from.number()?,
        conference: from.number()?,
    })
}

fn read_set(from: &mut Reader<'_>) -> Result<Effect, Stop>
    ensures { Gives (λ x. x) (row_at table.read_set from.old) result from.new }
{
    Ok(Effect::ReadSet {
        person: from.number()?,
        conference: from.number()?,
        at: from.moment()?,
        ranges: from.ranges()?,
    })
}

fn mark_set(from: &mut Reader<'_>) -> Result<Effect, Stop>
    ensures { Gives (λ x. x) (row_at table.mark_set from.old) result from.new }
{
    Ok(Effect::MarkSet {
        person: from.number()?,
        text: from.number()?,
        kind: from.small()?,
    })
}

fn mark_gone(from: &mut Reader<'_>) -> Result<Effect, Stop>
    ensures { Gives (λ x. x) (row_at table.mark_gone from.old) result from.new }
{
    Ok(Effect::MarkGone {
        person: from.number()?,
        text: from.number()?,
    })
}

fn aux_added(from: &mut Reader<'_>) -> Result<Effect, Stop>
    ensures { Gives (λ x. x) (row_at table.aux_added from.old) result from.new }
{
    let on_text = !from.flag()?;
    let object = from.number()?;
    let item = AuxRow {
        number: from.number()?,
        tag: from.number()?,
        creator: from.number()?,
        at: from.moment()?,
        flags: from.byte()?,
        limit: from.number()?,
        content: from.text(LONGEST_CONTENT as u32)?,
    };
    Ok(Effect::AuxAdded {
        on_text,
        object,
        item,
    })
}

fn aux_gone(from: &mut Reader<'_>) -> Result<Effect, Stop>
    ensures { Gives (λ x. x) (row_at table.aux_gone from.old) result from.new }
{
    Ok(Effect::AuxGone {
        on_text: !from.flag()?,
        object: from.number()?,
        number: from.number()?,
    })
}

fn created(from: &mut Reader<'_>) -> Result<Effect, Stop>
    ensures { Gives (λ x. x) (row_at table.text_numbered from.old) result from.new }
{
    Ok(Effect::Created {
        person: from.number()?,
        local: from.number()?,
        text: from.number()?,
    })
}
