ghost use Rattle.std.specs.Prelude.{◌≤◌, [], ◌∷◌, length, map, flat_map, OnOk};
ghost use Rattle.kom_types.specs.Parts.{Makes};
ghost use Rattle.kom_snapshot.specs.Snap.{conference_effects};
ghost use Rattle.kom_telling.specs.Takes.{Keeps, Takes};

use crate::sink::{PartSink, put_plain};
use kom_types::limits::LONGEST_NAME;
use kom_types::{ConfField, ConferenceRow, Effect, PartRef};

/// Tells a conference.
pub(crate) fn tell_conference<S: PartSink>(
    row: &ConferenceRow,
    sink: &mut S,
) -> Result<(), S::Refusal>
    requires { length row.now.name ≤ LONGEST_NAME }
    ensures told { OnOk result
        (Takes S.took sink.old sink.new (map Makes (conference_effects row.now))) }
    ensures keeps { Keeps S.becomes sink.old sink.new }
{
    sink.put(&PartRef::ConferenceAdded {
        number: row.number,
        name: row.name.as_slice(),
        kind: row.kind,
        at: row.created,
        creator: row.creator,
        supervisor: row.supervisor,
    })?;
    let fields = [
        ConfField::Presentation(row.presentation),
        ConfField::Motd(row.motd),
        ConfField::PermittedSubmitters(row.submitters),
        ConfField::SuperConference(row.super_conference),
        ConfField::Nice(row.nice),
        ConfField::KeepCommented(row.keep_commented),
        ConfField::Expire(row.expire),
        ConfField::LastWritten(row.last_written),
    ];
    tell_fields(row.number, &fields, sink)
}

fn tell_fields<S: PartSink>(
    number: u32,
    fields: &[ConfField],
    sink: &mut S,
) -> Result<(), S::Refusal>
    ensures told { OnOk result
        (Takes S.took sink.old sink.new (flat_map (λ field. Makes (Effect.ConfField number field) ∷
        []) fields.now)) }
    ensures keeps { Keeps S.becomes sink.old sink.new }
{
    for field in fields {
        put_plain(
            sink,
            Effect::ConfField {
                number,
                field: *field,
            },
        )?;
    }
    Ok(())
}
