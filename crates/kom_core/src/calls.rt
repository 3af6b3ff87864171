ghost use Rattle.std.specs.Prelude.{◌≡◌, true, Err};
ghost use Rattle.kom_types.specs.calls.Numbers.{number_of_call};
ghost use Rattle.kom_model.specs.declared.call_errors.CallError.TheVariants as error;
ghost use Rattle.kom_model.specs.declared.kinds.TheConstants.{FIRM_NUMBERS};
ghost use Rattle.kom_model.specs.Kinds.{is_among};
ghost use Rattle.kom_model.specs.Decide.{definition_of};
ghost use Rattle.kom_model.specs.calls.Call.{Meets};
ghost use Rattle.kom_core.specs.Deciding.{HadMemory};

use kom_model::{CallError, Refused};
use kom_state::Asked;
use kom_types::{Call, Decision};

/// What a call comes to by its definition, but for the last guard.
pub(crate) fn make(asked: &Asked<'_>, call: &Call) -> Result<Decision, CallError>
    ensures meets { Meets (definition_of asked.now call.now) result }
    ensures firm { is_among FIRM_NUMBERS (number_of_call call.now) ≡ true → HadMemory result }
{
    match call {
        Call::GetTime => Ok(query_calls::get_time(asked)),
        Call::WhoAmI => Ok(query_calls::who_am_i(asked)),
        Call::FirstUnusedConfNo => Ok(query_calls::first_unused_conf_no(asked)),
        Call::FindNextConfNo { start } => Ok(query_calls::find_next_conf_no(asked, *start)?),
        Call::FindPreviousConfNo { start } => {
            Ok(query_calls::find_previous_conf_no(asked, *start)?)
        }
        Call::FirstUnusedTextNo => Ok(query_calls::first_unused_text_no(asked)),
        Call::FindNextTextNo { start } => Ok(query_calls::find_next_text_no(asked, *start)?),
        Call::FindPreviousTextNo { start } => {
            Ok(query_calls::find_previous_text_no(asked, *start)?)
        }
        Call::QueryAsync => query_calls::query_async(asked),
        Call::GetClientName { session } => query_calls::get_client_name(asked, *session),
        Call::GetClientVersion { session } => query_calls::get_client_version(asked, *session),
        Call::GetVersionInfo => query_calls::get_version_info(asked),
        Call::GetInfo => query_calls::get_info(asked),
        Call::QueryPredefinedAuxItems => query_calls::query_predefined_aux_items(asked),
        Call::LookupZName {
            name,
            persons,
            conferences,
        } => query_calls::lookup_z_name(asked, name, *persons, *conferences),
        Call::GetUconfStat { conference } => query_calls::get_uconf_stat(asked, *conference),
        Call::GetCollateTable => query_calls::get_collate_table(asked),
        Call::GetPersonStat { person } => query_calls::get_person_stat(asked, *person),
        Call::GetTextStat { text } => query_calls::get_text_stat(asked, *text),
        Call::GetConfStat { conference } => query_calls::get_conf_stat(asked, *conference),
        Call::GetUnreadConfs { person } => query_calls::get_unread_confs(asked, *person),
        Call::GetMembers {
            conference,
            first,
            count,
        } => query_calls::get_members(asked, *conference, *first, *count),
        Call::QueryReadTexts {
            person,
            conference,
            want_ranges,
            most,
        } => query_calls::query_read_texts(asked, *person, *conference, *want_ranges, *most),
        Call::GetMembership {
            person,
            first,
            count,
            want_ranges,
            most,
        } => query_calls::get_membership(asked, *person, *first, *count, *want_ranges, *most),
        Call::GetMarks => query_calls::get_marks(asked),
        Call::LocalToGlobal {
            conference,
            first,
            count,
        } => query_calls::local_to_global(asked, *conference, *first, *count),
        Call::LocalToGlobalReverse {
            conference,
            ceiling,
            count,
        } => query_calls::local_to_global_reverse(asked, *conference, *ceiling, *count),
        Call::MapCreatedTexts {
            author,
            first,
            count,
        } => query_calls::map_created_texts(asked, *author, *first, *count),
        Call::WhoIsOnDynamic {
            visible,
            invisible,
            idle,
        } => query_calls::who_is_on_dynamic(asked, *visible, *invisible, *idle),
        Call::GetStaticSessionInfo { session } => {
            query_calls::get_static_session_info(asked, *session)
        }
        Call::Logout => person_calls::logout(asked),
        Call::Login {
            person,
            password,
            invisible,
        } => person_calls::login(asked, *person, password.get(), *invisible),
        Call::ChangeConference { conference } => {
            person_calls::change_conference(asked, *conference)
        }
        Call::ChangeWhatIAmDoing { doing } => person_calls::change_what_i_am_doing(asked, doing),
        Call::Enable { level } => person_calls::enable(asked, *level),
        Call::SetClientVersion(given) => person_calls::set_client_version(asked, given.get()),
        Call::AcceptAsync { numbers } => person_calls::accept_async(asked, numbers),
        Call::UserActive => person_calls::user_active(asked),
        Call::SetPrivBits { person, privileges } => {
            person_calls::set_priv_bits(asked, *person, *privileges)
        }
        Call::SetPasswd(given) => person_calls::set_passwd(asked, given.get()),
        Call::CreatePerson(given) => person_calls::create_person(asked, given.get()),
        Call::SetPersFlags { person, flags } => {
            person_calls::set_pers_flags(asked, *person, *flags)
        }
        Call::SetUserArea { person, text } => person_calls::set_user_area(asked, *person, *text),
        Call::SendMessage { recipient, message } => {
            person_calls::send_message(asked, *recipient, message)
        }
        Call::Disconnect { session } => person_calls::disconnect(asked, *session),
        Call::SyncKom => person_calls::sync_kom(asked),
        Call::ShutdownKom { .. } => person_calls::shutdown_kom(asked),
        Call::ChangeName { conference, name } => {
            conf_calls::change_name(asked, *conference, name)
        }
        Call::CreateConf(given) => conf_calls::create_conf(asked, given.get()),
        Call::DeleteConf { conference } => conf_calls::delete_conf(asked, *conference),
        Call::SetPresentation { conference, text } => {
            conf_calls::set_presentation(asked, *conference, *text)
        }
        Call::SetEtcMotd { conference, text } => {
            conf_calls::set_etc_motd(asked, *conference, *text)
        }
        Call::SetSupervisor {
            conference,
            supervisor,
        } => conf_calls::set_supervisor(asked, *conference, *supervisor),
        Call::SetPermittedSubmitters {
            conference,
            submitters,
        } => conf_calls::set_permitted_submitters(asked, *conference, *submitters),
        Call::SetSuperConf {
            conference,
            super_conference,
        } => conf_calls::set_super_conf(asked, *conference, *super_conference),
        Call::SetConfType { conference, kind } => {
            conf_calls::set_conf_type(asked, *conference, *kind)
        }
        Call::SetGarbNice { conference, nice } => {
            conf_calls::set_garb_nice(asked, *conference, *nice)
        }
        Call::SetExpire { conference, expire } => {
            conf_calls::set_expire(asked, *conference, *expire)
        }
        Call::SetKeepCommented { conference, days } => {
            conf_calls::set_keep_commented(asked, *conference, *days)
        }
        Call::ModifyConfInfo(change) => conf_calls::modify_conf_info(asked, change.get()),
        Call::SubMember { conference, person } => {
            member_calls::sub_member(asked, *conference, *person)
        }
        Call::MarkAsRead { conference, locals } => {
            member_calls::mark_as_read(asked, *conference, locals)
        }
        Call::SetUnread { conference, count } => {
            member_calls::set_unread(asked, *conference, *count)
        }
        Call::SetLastRead { conference, local } => {
            member_calls::set_last_read(asked, *conference, *local)
        }
        Call::AddMember {
            conference,
            person,
            priority,
            place,
            kind,
        } => member_calls::add_member(asked, *conference, *person, *priority, *place, *kind),
        Call::SetMembershipType {
            person,
            conference,
            kind,
        } => member_calls::set_membership_type(asked, *person, *conference, *kind),
        Call::MarkAsUnread { conference, local } => {
            member_calls::mark_as_unread(asked, *conference, *local)
        }
        Call::SetReadRanges { conference, ranges } => {
            member_calls::set_read_ranges(asked, *conference, ranges)
        }
        Call::GetText { text, start, end } => text_calls::get_text(asked, *text, *start, *end),
        Call::DeleteText { text } => text_calls::delete_text(asked, *text),
        Call::AddRecipient {
            text,
            conference,
            kind,
        } => text_calls::add_recipient(asked, *text, *conference, *kind),
        Call::SubRecipient { text, conference } => {
            text_calls::sub_recipient(asked, *text, *conference)
        }
        Call::AddComment { text, parent } => text_calls::add_comment(asked, *text, *parent),
        Call::SubComment { text, parent } => text_calls::sub_comment(asked, *text, *parent),
        Call::AddFootnote { text, parent } => text_calls::add_footnote(asked, *text, *parent),
        Call::SubFootnote { text, parent } => text_calls::sub_footnote(asked, *text, *parent),
        Call::MarkText { text, kind } => text_calls::mark_text(asked, *text, *kind),
        Call::UnmarkText { text } => text_calls::unmark_text(asked, *text),
        Call::CreateText(given) => text_calls::create_text(asked, given.get()),
        Call::CreateAnonymousText(given) => {
            text_calls::create_anonymous_text(asked, given.get())
        }
        Call::ModifyTextInfo(change) => text_calls::modify_text_info(asked, change.get()),
        Call::Refused(code, status) => refuse(*code, *status),
    }
}

fn refuse(code: u32, status: u32) -> Result<Decision, CallError>
    ensures { result ≡ Err (error.Refused (record { code = code; status = status })) }
{
    Err(CallError::Refused(Refused { code, status }))
}
