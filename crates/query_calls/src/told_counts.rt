//! How many there are of what is shown, as it is told.
ghost use Rattle.std.specs.Prelude.{◌≡◌, length, if◌then◌else◌};
ghost use Rattle.kom_model.specs.Shown as Shown;

use crate::hidden::{hidden_members, hidden_memberships};
use access_rights::told_count;
use kom_model::Viewer;
use kom_state::StoredRows;

/// How many members of a conference are shown to who looks.
pub(crate) fn members_told(rows: &StoredRows, viewer: &Viewer, conference: u32) -> u32
    ensures { result ≡ Shown.told_count
        (length (Shown.members_shown rows.now.db viewer.now conference)) }
{
    let count = rows.member_count(conference);
    told_count(count - hidden_members(rows, viewer, conference, count))
}

/// How many memberships of a person are shown to who looks.
pub(crate) fn memberships_told(rows: &StoredRows, viewer: &Viewer, person: u32) -> u32
    ensures { result ≡ Shown.told_count
        (length (Shown.memberships_shown rows.now.db viewer.now person)) }
{
    let count = rows.membership_count(person);
    told_count(count - hidden_memberships(rows, viewer, person, count))
}

/// What is told of a person to itself and to strong sessions alone: others are told 0.
pub(crate) fn own_count(viewer: &Viewer, person: u32, count: u32) -> u32
    ensures { result ≡ Shown.own_count viewer.now person count }
{
    if viewer.strong || viewer.person == person {
        count
    } else {
        0
    }
}
