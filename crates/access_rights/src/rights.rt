ghost use Rattle.std.specs.Prelude.{◌≡◌};
ghost use Rattle.kom_model.specs.Rights as Rights;
ghost use Rattle.kom_model.specs.Rights.{is_member, is_active_member, stands_for};
ghost use Rattle.kom_model.specs.Rights.{belongs, is_let_in};
ghost use Rattle.kom_model.specs.Shown.{working_shown};
ghost use Rattle.kom_types.specs.tables.Conferences.{is_read_protected};
ghost use Rattle.kom_types.specs.tables.Memberships.{is_invitation};

use kom_model::{Rows, Viewer};
use kom_types::Seat;
use kom_types::bits::{INVITATION, READ_PROTECTED, is_secret_conference};

/// Whether a person supervises a conference. (Protocol A, "Security".)
#[tactic(auto, using(crate::proofs::Heads::supervises_none, crate::proofs::Heads::supervises_some))]
pub fn supervises<R: Rows>(rows: &R, person: u32, conference: u32) -> bool
    ensures { result ≡ Rights.supervises (R.db rows.now) person conference }
{
    match rows.conference(conference) {
        None => false,
        Some(head) => stands_for(rows, person, head.supervisor),
    }
}

/// Whether a conference is shown to who looks. (Protocol A, "Security".)
#[tactic(auto, using(crate::proofs::Heads::sees_none, crate::proofs::Heads::sees_some))]
pub fn sees<R: Rows>(rows: &R, viewer: &Viewer, conference: u32) -> bool
    ensures { result ≡ Rights.sees (R.db rows.now) viewer.now conference }
{
    match rows.conference(conference) {
        None => false,
        Some(head) => {
            !is_secret_conference(head.kind) || is_let_in(rows, viewer, conference, head.supervisor)
        }
    }
}

/// Whether the texts of a conference are shown to who looks. (Protocol A, "Security".)
#[tactic(auto, using(crate::proofs::Heads::reads_none, crate::proofs::Heads::reads_some))]
pub fn reads_conference<R: Rows>(rows: &R, viewer: &Viewer, conference: u32) -> bool
    ensures { result ≡ Rights.reads_conference (R.db rows.now) viewer.now conference }
{
    match rows.conference(conference) {
        None => false,
        Some(head) => {
            !is_read_protected(head.kind) || is_let_in(rows, viewer, conference, head.supervisor)
        }
    }
}

/// The conference that a session is in, or 0 if that is not shown to who looks. (Protocol A,
/// "Security".)
pub fn working_shown<R: Rows>(rows: &R, viewer: &Viewer, seat: &Seat) -> u32
    ensures { result ≡ working_shown (R.db rows.now) viewer.now seat.now }
{
    if sees(rows, viewer, seat.working) {
        seat.working
    } else {
        0
    }
}

fn is_read_protected(kind: u8) -> bool
    ensures { result ≡ is_read_protected kind }
{
    kind & READ_PROTECTED != 0
}

/// Whether a conference that names this supervisor is shown though it is not open to all.
fn is_let_in<R: Rows>(rows: &R, viewer: &Viewer, conference: u32, supervisor: u32) -> bool
    ensures { result ≡ is_let_in (R.db rows.now) viewer.now conference supervisor }
{
    viewer.strong || belongs(rows, viewer.person, conference, supervisor)
}

/// Whether the person belongs to a conference that names this supervisor.
fn belongs<R: Rows>(rows: &R, person: u32, conference: u32, supervisor: u32) -> bool
    ensures { result ≡ belongs (R.db rows.now) person conference supervisor }
{
    is_member(rows, person, conference)
        || stands_for(rows, person, supervisor)
        || person == conference
}

/// Whether the person is the supervisor that is named, or an active member of it.
pub(crate) fn stands_for<R: Rows>(rows: &R, person: u32, supervisor: u32) -> bool
    ensures { result ≡ stands_for (R.db rows.now) person supervisor }
{
    person != 0 && (person == supervisor || is_active_member(rows, person, supervisor))
}

pub(crate) fn is_member<R: Rows>(rows: &R, person: u32, conference: u32) -> bool
    ensures { result ≡ is_member (R.db rows.now) person conference }
{
    rows.membership_kind(person, conference).is_some()
}

/// Whether the person is a member and was not only invited.
pub(crate) fn is_active_member<R: Rows>(rows: &R, person: u32, conference: u32) -> bool
    ensures { result ≡ is_active_member (R.db rows.now) person conference }
{
    match rows.membership_kind(person, conference) {
        None => false,
        Some(kind) => kind & INVITATION == 0,
    }
}
