ghost use Rattle.std.specs.Prelude.{◌≡◌, [], ◌∷◌, IfOk};
ghost use Rattle.std.specs.Fmt.{decimal};
ghost use Rattle.kom_load.specs.Generator.{call_of_index, made_conference, written_text, mark_call};

use itoa::Buffer;
use kom_types::{
    AuxInputs, Boxed, Bytes, Call, Memory, MiscInput, MiscInputs, NewConference, NewText, Numbers,
};
use std::alloc::Global;

/// The person that a run logs in as: the administrator of a new server.
const PERSON: u32 = 5;

const PRIORITY: u8 = 100;

/// The call of an index, from 1 on, of a run that made this conference last.
pub fn generated(index: u32, conference: u32, alloc: Global) -> Result<Call, Memory>
    ensures { IfOk result (λ call. call ≡ call_of_index index conference) }
{
    match index % 4 {
        1 => make_conference(index, alloc),
        2 => write_text(index, conference, alloc),
        3 => Ok(Call::AddMember {
            conference,
            person: PERSON,
            priority: PRIORITY,
            place: 0,
            kind: 0,
        }),
        _ => mark_as_read(conference, alloc),
    }
}

fn make_conference(index: u32, alloc: Global) -> Result<Call, Memory>
    ensures { IfOk result (λ call. call ≡ made_conference index) }
{
    let conference = NewConference {
        name: lettered(b'c', index, alloc)?,
        kind: 0,
        aux_items: AuxInputs::new(alloc),
    };
    Ok(Call::CreateConf(Boxed::new(alloc, conference)?))
}

fn write_text(index: u32, conference: u32, alloc: Global) -> Result<Call, Memory>
    ensures { IfOk result (λ call. call ≡ written_text index conference) }
{
    let text = NewText {
        body: lettered(b't', index, alloc)?,
        misc_inputs: recipient(conference, alloc)?,
        aux_items: AuxInputs::new(alloc),
    };
    Ok(Call::CreateText(Boxed::new(alloc, text)?))
}

/// The one link of a text that is sent to a conference.
fn recipient(conference: u32, alloc: Global) -> Result<MiscInputs, Memory>
    ensures { IfOk result (λ links. links ≡ record { tag = 0; value = conference } ∷ []) }
{
    let mut links = MiscInputs::new(alloc);
    links.push(MiscInput {
        tag: 0,
        value: conference,
    })?;
    Ok(links)
}

fn mark_as_read(conference: u32, alloc: Global) -> Result<Call, Memory>
    ensures { IfOk result (λ call. call ≡ mark_call conference) }
{
    let mut locals = Numbers::new(alloc);
    locals.push(1)?;
    Ok(Call::MarkAsRead { conference, locals })
}

/// A letter and the digits of a number.
fn lettered(letter: u8, index: u32, alloc: Global) -> Result<Bytes, Memory>
    ensures { IfOk result (λ bytes. bytes ≡ letter ∷ decimal index) }
{
    let mut bytes = Vec::new(alloc);
    bytes.push(letter)?;
    bytes.extend_from_slice(Buffer::new().format(index).as_bytes())?;
    Ok(Bytes::of(bytes))
}
