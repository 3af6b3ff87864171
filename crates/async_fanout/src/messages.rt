ghost use Rattle.std.specs.Prelude.{◌≡◌, ◌++◌, true, IfOk, IsOk};
ghost use Rattle.std.specs.List.{filter_map};
ghost use Rattle.kom_model.specs.ToWhom.{messages_of, sent_by, logged_out, logged_in};
ghost use Rattle.kom_model.specs.ToWhom.{is_refused as is_refused_reply};
ghost use Rattle.async_fanout.specs.Delivered.{all_brought, as_list};
ghost use Rattle.async_fanout.specs.Silent.{may_send as may_send_call, is_silent as is_silent_call};

use crate::deliveries::{Delivery, deliver};
use crate::on_sessions::{Login, Logout};
use crate::{
    on_aux_items, on_conferences, on_memberships, on_persons, on_server, on_sessions, on_texts,
};
use kom_model::SENDING_NUMBERS;
use kom_state::Asked;
use kom_types::{Call, Decision, Memory, Reply, SessionChange};

/// The messages of a call that came to this decision, message by message, and each by rising
/// session: for each message the time grows with the sessions that accept it. A silent call takes
/// no memory. (Protocol A, "Asynchronous Messages".)
#[tactic(auto, using(crate::proofs::Brought::silent_sends, crate::proofs::Brought::whole), unfolding(kom_model::specs::ToWhom::messages_of))]
pub fn fan_out(asked: &Asked<'_>, call: &Call, decision: &Decision) -> Result<Vec<Delivery>, Memory>
    ensures sends { IfOk result (λ sent.
        sent.items ≡ messages_of asked.now call.now decision.now) }
    ensures silent { is_silent_call call.now decision.now ≡ true → IsOk result }
{
    let mut sent = Vec::new(asked.allocator());
    if is_silent(call, decision) {
        return Ok(sent);
    }
    push_logouts(asked, decision.changes.as_slice(), &mut sent)?;
    push_logins(asked, decision.changes.as_slice(), &mut sent)?;
    if !is_refused(&decision.reply) {
        push_sent(asked, call, decision, &mut sent)?;
    }
    Ok(sent)
}

/// Whether a call that came to this decision sends nothing: it changes no session, and is refused
/// or of no kind that sends something.
pub fn is_silent(call: &Call, decision: &Decision) -> bool
    ensures { result ≡ is_silent_call call.now decision.now }
{
    decision.changes.is_empty() && (is_refused(&decision.reply) || !may_send(call))
}

fn is_refused(reply: &Reply) -> bool
    ensures { result ≡ is_refused_reply reply.now }
{
    matches!(reply, Reply::Refused(_, _))
}

/// Adds the messages of who is logged out.
fn push_logouts(
    asked: &Asked<'_>,
    changes: &[SessionChange],
    sent: &mut Vec<Delivery>,
) -> Result<(), Memory>
    ensures { IfOk result (λ done. sent.new.items ≡ sent.old.items
        ++ all_brought asked.now (filter_map (logged_out asked.now) changes.now)) }
{
    for change in changes {
        push_logout(asked, change, sent)?;
    }
    Ok(())
}

#[tactic(auto, using(crate::proofs::Brought::none, crate::proofs::Brought::one))]
fn push_logout(
    asked: &Asked<'_>,
    change: &SessionChange,
    sent: &mut Vec<Delivery>,
) -> Result<(), Memory>
    ensures { IfOk result (λ done. sent.new.items ≡ sent.old.items
        ++ all_brought asked.now (as_list (logged_out asked.now change.now))) }
{
    match change {
        SessionChange::Person(session, person, _) => match asked.sessions().seat(*session) {
            None => Ok(()),
            Some(seat) => {
                if *person != 0 {
                    return Ok(());
                }
                let message = Logout {
                    person: seat.person,
                    session: *session,
                };
                deliver(asked, &message, sent)
            }
        },
        _ => Ok(()),
    }
}

/// Adds the messages of who logs in, unless invisibly.
fn push_logins(
    asked: &Asked<'_>,
    changes: &[SessionChange],
    sent: &mut Vec<Delivery>,
) -> Result<(), Memory>
    ensures { IfOk result (λ done. sent.new.items ≡ sent.old.items
        ++ all_brought asked.now (filter_map logged_in changes.now)) }
{
    for change in changes {
        push_login(asked, change, sent)?;
    }
    Ok(())
}

#[tactic(auto, using(crate::proofs::Brought::none, crate::proofs::Brought::one))]
fn push_login(
    asked: &Asked<'_>,
    change: &SessionChange,
    sent: &mut Vec<Delivery>,
) -> Result<(), Memory>
    ensures { IfOk result (λ done. sent.new.items ≡ sent.old.items
        ++ all_brought asked.now (as_list (logged_in change.now))) }
{
    match change {
        SessionChange::Person(session, person, invisible) => {
            if *person == 0 || *invisible {
                return Ok(());
            }
            let message = Login {
                person: *person,
                session: *session,
            };
            deliver(asked, &message, sent)
        }
        _ => Ok(()),
    }
}

/// Adds what an accepted call sends beside.
#[tactic(auto, using(crate::proofs::Brought::none))]
fn push_sent(
    asked: &Asked<'_>,
    call: &Call,
    decision: &Decision,
    sent: &mut Vec<Delivery>,
) -> Result<(), Memory>
    ensures { IfOk result (λ done. sent.new.items ≡ sent.old.items
        ++ all_brought asked.now (sent_by asked.now decision.now call.now)) }
{
    if !may_send(call) {
        return Ok(());
    }
    match call {
        Call::ChangeName { conference, name } => {
            on_conferences::change_name(asked, *conference, name, sent)
        }
        Call::DeleteConf { .. } => on_memberships::leave(asked, decision.effects.as_slice(), sent),
        Call::SubMember { .. } => on_memberships::leave(asked, decision.effects.as_slice(), sent),
        Call::SetPresentation { conference, text } => {
            on_conferences::set_presentation(asked, *conference, *text, sent)
        }
        Call::SetEtcMotd { conference, text } => {
            on_conferences::set_etc_motd(asked, *conference, *text, sent)
        }
        Call::DeleteText { text } => on_texts::delete_text(asked, *text, sent),
        Call::AddRecipient {
            text,
            conference,
            kind,
        } => on_texts::add_recipient(asked, *text, *conference, *kind, sent),
        Call::SubRecipient { text, conference } => {
            on_texts::sub_recipient(asked, *text, *conference, sent)
        }
        Call::SyncKom => on_server::sync_kom(asked, sent),
        Call::SendMessage { recipient, message } => {
            on_sessions::send_message(asked, *recipient, message, sent)
        }
        Call::SetUserArea { person, text } => on_persons::set_user_area(
            asked, *person, *text, sent,
        ),
        Call::CreateText(_) => on_texts::make(asked, decision.effects.as_slice(), sent),
        Call::CreateAnonymousText(_) => on_texts::make(asked, decision.effects.as_slice(), sent),
        Call::ModifyTextInfo(change) => {
            on_aux_items::modify_text_info(asked, change, decision, sent)
        }
        Call::AddMember {
            conference,
            person,
            ..
        } => on_memberships::add_member(asked, *conference, *person, sent),
        _ => unreachable!(),
    }
}

/// Whether a call may send something beside who logs out and in.
fn may_send(call: &Call) -> bool
    ensures { result ≡ may_send_call call.now }
{
    SENDING_NUMBERS.contains(&call.number())
}
