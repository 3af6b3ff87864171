//! The calls by which a field of a conference is set.
ghost use Rattle.std.specs.Prelude.{◌≡◌, ◌∷◌, []};
ghost use Rattle.kom_types.specs.declared.effects.Effect.TheVariants as effect;
ghost use Rattle.kom_model.specs.calls.Call.{Meets, done_with, without_guard};
ghost use Rattle.kom_model.specs.calls.Conferences as Calls;

use crate::owning::owner_guards;
use access_rights::{conference_or_none_guard, text_or_none_guard, type_guard, unless};
use kom_model::CallError;
use kom_state::{Asked, StoredRows};
use kom_types::bits::{is_letterbox, is_secret_conference};
use kom_types::{ConfField, Decision, Effect, errors};

/// Call 16, set-presentation: a text, or 0.
pub fn set_presentation(
    asked: &Asked<'_>,
    conference: u32,
    text: u32,
) -> Result<Decision, CallError>
    ensures { Meets (Calls.set_presentation asked.now conference text) result }
{
    let caller = asked.caller();
    let rows = asked.rows();
    owner_guards(rows, &caller, conference)?;
    text_or_none_guard(rows, &caller, text)?;
    set_field(asked, conference, ConfField::Presentation(text))
}

/// Call 17, set-etc-motd: a text, or 0.
pub fn set_etc_motd(asked: &Asked<'_>, conference: u32, text: u32) -> Result<Decision, CallError>
    ensures { Meets (Calls.set_etc_motd asked.now conference text) result }
{
    let caller = asked.caller();
    let rows = asked.rows();
    owner_guards(rows, &caller, conference)?;
    text_or_none_guard(rows, &caller, text)?;
    set_field(asked, conference, ConfField::Motd(text))
}

/// Call 18, set-supervisor: a conference, or 0.
pub fn set_supervisor(asked: &Asked<'_>, conference: u32, other: u32) -> Result<Decision, CallError>
    ensures { Meets (Calls.set_supervisor asked.now conference other) result }
{
    let caller = asked.caller();
    let rows = asked.rows();
    owner_guards(rows, &caller, conference)?;
    conference_or_none_guard(rows, &caller, other)?;
    set_field(asked, conference, ConfField::Supervisor(other))
}

/// Call 19, set-permitted-submitters: a conference, or 0.
pub fn set_permitted_submitters(
    asked: &Asked<'_>,
    conference: u32,
    other: u32,
) -> Result<Decision, CallError>
    ensures { Meets (Calls.set_permitted_submitters asked.now conference other) result }
{
    let caller = asked.caller();
    let rows = asked.rows();
    owner_guards(rows, &caller, conference)?;
    conference_or_none_guard(rows, &caller, other)?;
    set_field(asked, conference, ConfField::PermittedSubmitters(other))
}

/// Call 20, set-super-conf: a conference, or 0.
pub fn set_super_conf(asked: &Asked<'_>, conference: u32, other: u32) -> Result<Decision, CallError>
    ensures { Meets (Calls.set_super_conf asked.now conference other) result }
{
    let caller = asked.caller();
    let rows = asked.rows();
    owner_guards(rows, &caller, conference)?;
    conference_or_none_guard(rows, &caller, other)?;
    set_field(asked, conference, ConfField::SuperConference(other))
}

/// Call 21, set-conf-type.
pub fn set_conf_type(asked: &Asked<'_>, conference: u32, kind: u8) -> Result<Decision, CallError>
    ensures { Meets (Calls.set_conf_type asked.now conference kind) result }
{
    let rows = asked.rows();
    owner_guards(rows, &asked.caller(), conference)?;
    unless(
        may_become(rows, conference, kind),
        errors::LETTERBOX,
        conference,
    )?;
    type_guard(kind)?;
    set_field(asked, conference, ConfField::Kind(kind))
}

/// Whether a conference may get a type: a letterbox stays one and is not secret, and no other
/// becomes one.
fn may_become(rows: &StoredRows, conference: u32, kind: u8) -> bool
    ensures { result ≡ Calls.may_become rows.now.db conference kind }
{
    match rows.conference(conference) {
        None => false,
        Some(row) => {
            is_letterbox(kind) == is_letterbox(row.kind)
                && !(is_letterbox(kind) && is_secret_conference(kind))
        }
    }
}

/// Call 22, set-garb-nice: days.
pub fn set_garb_nice(asked: &Asked<'_>, conference: u32, days: u32) -> Result<Decision, CallError>
    ensures { Meets (Calls.set_garb_nice asked.now conference days) result }
{
    owner_guards(asked.rows(), &asked.caller(), conference)?;
    set_field(asked, conference, ConfField::Nice(days))
}

/// Call 97, set-expire: days.
pub fn set_expire(asked: &Asked<'_>, conference: u32, days: u32) -> Result<Decision, CallError>
    ensures { Meets (Calls.set_expire asked.now conference days) result }
{
    owner_guards(asked.rows(), &asked.caller(), conference)?;
    set_field(asked, conference, ConfField::Expire(days))
}

/// Call 105, set-keep-commented: days.
pub fn set_keep_commented(
    asked: &Asked<'_>,
    conference: u32,
    days: u32,
) -> Result<Decision, CallError>
    ensures { Meets (Calls.set_keep_commented asked.now conference days) result }
{
    owner_guards(asked.rows(), &asked.caller(), conference)?;
    set_field(asked, conference, ConfField::KeepCommented(days))
}

/// What each of them comes to once its guards have let it pass.
fn set_field(asked: &Asked<'_>, conference: u32, field: ConfField) -> Result<Decision, CallError>
    ensures { Meets (without_guard (done_with (effect.ConfField conference field ∷ []) [])) result }
{
    Ok(asked.with_effect(Effect::ConfField {
        number: conference,
        field,
    })?)
}
