ghost use Rattle.std.specs.Prelude.{◌≡◌, ◌+◌, ◌≤◌, ◌++◌, length, vec_len, vec_capacity};
ghost use Rattle.kom_types.specs.declared.effects.Effect.TheVariants as effect;
ghost use Rattle.effect_codec.specs.Coding.{coded_effect, IsInRange, IsShortEnough};

use crate::fields::{
    put, put_amount, put_byte, put_flag, put_half, put_numbers, put_ranges, put_setting, put_start,
    put_text,
};
use crate::settings::{conf_setting, counter_number, person_setting};
use kom_types::{AuxRow, Effect, Moment, ReadRange, Recipient, TextLink};

/// Puts the bytes of an effect at the end. Takes no memory.
pub fn append(out: &mut Vec<u8>, effect: &Effect)
    requires lengths { IsShortEnough effect.now }
    requires room { vec_len out.old + length (coded_effect effect.now) ≤ vec_capacity out.old }
    ensures items { out.new.items ≡ out.old.items ++ coded_effect effect.now }
    ensures capacity { vec_capacity out.old ≤ vec_capacity out.new }
    ensures range { IsInRange effect.now }
{
    match effect {
        Effect::ConfAdded {
            number,
            name,
            kind,
            at,
            creator,
            supervisor,
        } => append_conference(
            out,
            *number,
            name.as_slice(),
            *kind,
            *at,
            *creator,
            *supervisor,
        ),
        Effect::ConfGone { number } => {
            put_start(out, 2, &[*number]);
        }
        Effect::ConfNamed { number, name } => {
            put_start(out, 3, &[*number]);
            put_text(out, name.as_slice());
        }
        Effect::ConfField { number, field } => {
            put_start(out, 4, &[*number]);
            let (part, value) = conf_setting(*field);
            put_setting(out, part, value);
        }
        Effect::PersonAdded {
            number,
            privileges,
            flags,
            last_login,
        } => {
            put_start(out, 5, &[*number]);
            put_half(out, *privileges);
            put_byte(out, *flags);
            put_amount(out, last_login.seconds());
        }
        Effect::PersonGone { number } => {
            put_start(out, 6, &[*number]);
        }
        Effect::PersonField { number, field } => {
            put_start(out, 7, &[*number]);
            let (part, value) = person_setting(*field);
            put_setting(out, part, value);
        }
        Effect::Password { number, hash } => {
            put_start(out, 8, &[*number]);
            put(out, hash);
        }
        Effect::LoggedIn { number, at, user } => append_login(out, *number, *at, user.as_slice()),
        Effect::Counted {
            number,
            counter,
            by,
        } => {
            put_start(out, 10, &[*number]);
            put_setting(out, counter_number(*counter), *by);
        }
        Effect::TextAdded {
            number,
            author,
            at,
            body,
        } => append_text(out, *number, *author, *at, body.as_slice()),
        Effect::TextGone { number } => {
            put_start(out, 12, &[*number]);
        }
        Effect::RecipientAdded(row) => append_recipient(out, row),
        Effect::RecipientGone { text, conference } => {
            put_start(out, 14, &[*text, *conference]);
        }
        Effect::LinkAdded(row) => append_link(out, row),
        Effect::LinkGone {
            child,
            parent,
            footnote,
        } => {
            put_start(out, 16, &[*child, *parent]);
            put_flag(out, *footnote);
        }
        Effect::MemberSet {
            person,
            conference,
            position,
            priority,
            added_by,
            added_at,
            kind,
        } => {
            put_start(
                out,
                17,
                &[*person, *conference, *position, *priority as u32, *added_by],
            );
            put_amount(out, added_at.seconds());
            put_byte(out, *kind);
        }
        Effect::MemberGone { person, conference } => {
            put_start(out, 18, &[*person, *conference]);
        }
        Effect::ReadSet {
            person,
            conference,
            at,
            ranges,
        } => append_read(out, *person, *conference, *at, ranges.as_slice()),
        Effect::MarkSet { person, text, kind } => {
            put_start(out, 20, &[*person, *text, *kind as u32]);
        }
        Effect::MarkGone { person, text } => {
            put_start(out, 21, &[*person, *text]);
        }
        Effect::AuxAdded {
            on_text,
            object,
            item,
        } => {
            append_item(out, *on_text, *object, item);
        }
        Effect::AuxGone {
            on_text,
            object,
            number,
        } => {
            put_byte(out, 23);
            put_flag(out, !*on_text);
            put_numbers(out, &[*object, *number]);
        }
        Effect::Created {
            person,
            local,
            text,
        } => {
            put_start(out, 24, &[*person, *local, *text]);
        }
    }
}

pub(crate) fn append_conference(
    out: &mut Vec<u8>,
    number: u32,
    name: &[u8],
    kind: u8,
    at: Moment,
    creator: u32,
    supervisor: u32,
)
    requires lengths { IsShortEnough
        (effect.ConfAdded number name.now kind at creator supervisor) }
    requires room { vec_len out.old + length
        (coded_effect (effect.ConfAdded number name.now kind at creator supervisor))
        ≤ vec_capacity out.old }
    ensures items { out.new.items ≡ out.old.items
        ++ coded_effect (effect.ConfAdded number name.now kind at creator supervisor) }
    ensures capacity { vec_capacity out.old ≤ vec_capacity out.new }
    ensures range { IsInRange (effect.ConfAdded number name.now kind at creator supervisor) }
{
    put_start(out, 1, &[number]);
    put_text(out, name);
    put_byte(out, kind);
    put_amount(out, at.seconds());
    put_numbers(out, &[creator, supervisor]);
}

pub(crate) fn append_login(out: &mut Vec<u8>, number: u32, at: Moment, user: &[u8])
    requires lengths { IsShortEnough (effect.LoggedIn number at user.now) }
    requires room { vec_len out.old + length (coded_effect (effect.LoggedIn number at user.now))
        ≤ vec_capacity out.old }
    ensures items { out.new.items
        ≡ out.old.items ++ coded_effect (effect.LoggedIn number at user.now) }
    ensures capacity { vec_capacity out.old ≤ vec_capacity out.new }
    ensures range { IsInRange (effect.LoggedIn number at user.now) }
{
    put_start(out, 9, &[number]);
    put_amount(out, at.seconds());
    put_text(out, user);
}

pub(crate) fn append_text(out: &mut Vec<u8>, number: u32, author: u32, at: Moment, body: &[u8])
    requires lengths { IsShortEnough (effect.TextAdded number author at body.now) }
    requires room { vec_len out.old + length
        (coded_effect (effect.TextAdded number author at body.now)) ≤ vec_capacity out.old }
    ensures items { out.new.items
        ≡ out.old.items ++ coded_effect (effect.TextAdded number author at body.now) }
    ensures capacity { vec_capacity out.old ≤ vec_capacity out.new }
    ensures range { IsInRange (effect.TextAdded number author at body.now) }
{
    put_start(out, 11, &[number, author]);
    put_amount(out, at.seconds());
    put_text(out, body);
}

pub(crate) fn append_read(
    out: &mut Vec<u8>,
    person: u32,
    conference: u32,
    at: Moment,
    ranges: &[ReadRange],
)
    requires lengths { IsShortEnough (effect.ReadSet person conference at ranges.now) }
    requires room { vec_len out.old + length
        (coded_effect (effect.ReadSet person conference at ranges.now)) ≤ vec_capacity out.old }
    ensures items { out.new.items
        ≡ out.old.items ++ coded_effect (effect.ReadSet person conference at ranges.now) }
    ensures capacity { vec_capacity out.old ≤ vec_capacity out.new }
    ensures range { IsInRange (effect.ReadSet person conference at ranges.now) }
{
    put_start(out, 19, &[person, conference]);
    put_amount(out, at.seconds());
    put_ranges(out, ranges);
}

pub(crate) fn append_item(out: &mut Vec<u8>, on_text: bool, object: u32, item: &AuxRow)
    requires lengths { IsShortEnough (effect.AuxAdded on_text object item.now) }
    requires room { vec_len out.old + length
        (coded_effect (effect.AuxAdded on_text object item.now))
        ≤ vec_capacity out.old }
    ensures items { out.new.items ≡ out.old.items
        ++ coded_effect (effect.AuxAdded on_text object item.now) }
    ensures capacity { vec_capacity out.old ≤ vec_capacity out.new }
    ensures range { IsInRange (effect.AuxAdded on_text object item.now) }
{
    let AuxRow {
        number,
        tag,
        creator,
        at,
        flags,
        limit,
        content,
    } = item;
    put_byte(out, 22);
    put_flag(out, !on_text);
    put_numbers(out, &[object, *number, *tag, *creator]);
    put_amount(out, at.seconds());
    put_byte(out, *flags);
    put_numbers(out, &[*limit]);
    put_text(out, content.as_slice());
}

fn append_recipient(out: &mut Vec<u8>, row: &Recipient)
    requires { vec_len out.old + length (coded_effect (effect.RecipientAdded row.now))
        ≤ vec_capacity out.old }
    ensures items { out.new.items ≡ out.old.items ++ coded_effect (effect.RecipientAdded row.now) }
    ensures capacity { vec_capacity out.old ≤ vec_capacity out.new }
    ensures range { IsInRange (effect.RecipientAdded row.now) }
{
    let Recipient {
        text,
        conference,
        tag,
        local,
        sender,
        at,
    } = row;
    put_start(out, 13, &[*text, *conference, *tag as u32, *local, *sender]);
    put_amount(out, at.seconds());
}

fn append_link(out: &mut Vec<u8>, row: &TextLink)
    requires { vec_len out.old + length (coded_effect (effect.LinkAdded row.now))
        ≤ vec_capacity out.old }
    ensures items { out.new.items ≡ out.old.items ++ coded_effect (effect.LinkAdded row.now) }
    ensures capacity { vec_capacity out.old ≤ vec_capacity out.new }
    ensures range { IsInRange (effect.LinkAdded row.now) }
{
    let TextLink {
        child,
        parent,
        footnote,
        sender,
        at,
    } = row;
    put_start(out, 15, &[*child, *parent]);
    put_flag(out, *footnote);
    put_numbers(out, &[*sender]);
    put_amount(out, at.seconds());
}
