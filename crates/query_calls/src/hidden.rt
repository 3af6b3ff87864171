//! How many of the first memberships of a person, and of the first members of a conference, are
//! hidden from who looks.
ghost use Rattle.std.specs.Prelude.{◌≡◌, ◌&&◌, ◌||◌, ◌==◌, ◌<◌, not, true, take, is_some};
ghost use Rattle.std.specs.List.{count_by, list_any};
ghost use Rattle.kom_types.specs.tables.Memberships.{is_secret_membership};
ghost use Rattle.kom_model.specs.Db.{members_of, memberships_of, membership_of};
ghost use Rattle.kom_model.specs.Rights.{supervises as supervises_by, sees as sees_by};
ghost use Rattle.kom_model.specs.Shown as Shown;
ghost use Rattle.kom_state.specs.Placed.{AreThere, AreInPlace, AreFound};
ghost use Rattle.kom_state.specs.Secrecy.{AreFoundBySecret};
ghost use Rattle.query_calls.specs.Hidden.{hidden_members, hidden_memberships, is_hidden};
ghost use Rattle.query_calls.specs.Hidden.{is_before, is_plain_member, is_unseen};
ghost use Rattle.query_calls.specs.Hidden.{needs_more_searches, unseen_count};

use access_rights::{sees, shows_membership, supervises};
use kom_model::{Rows, Viewer};
use kom_state::StoredRows;
use kom_types::bits::SECRET_MEMBERSHIP;
use kom_types::{Member, MembershipRow};

/// Looking at a membership takes about as long as passing so many entries of a person's list,
const ENTRIES_A_LOOK: usize = 80;

/// and as asking of so many conferences whether a person is in them.
const CONFERENCES_A_LOOK: usize = 4;

/// How many of the first members of a conference are hidden from who looks. The time grows with the
/// secret memberships in it, or with the first members where those are fewer; it is constant for
/// who sees all or none.
pub(crate) fn hidden_members(
    rows: &StoredRows,
    viewer: &Viewer,
    conference: u32,
    first: usize,
) -> usize
    ensures { result ≡ hidden_members rows.now.db viewer.now conference first }
{
    if first == 0 {
        return 0;
    }
    if !sees(rows, viewer, conference) {
        return first.min(rows.member_count(conference));
    }
    if viewer.strong || supervises(rows, viewer.person, conference) {
        return 0;
    }
    let secret = rows.secret_members(conference);
    if first < secret.len() {
        return rows
            .members(conference)
            .take(first)
            .filter(|member| !shows_member(rows, viewer, conference, member))
            .count();
    }
    secret
        .iter()
        .filter(|person| is_hidden_member(rows, viewer, conference, first, **person))
        .count()
}

/// Whether a member of a conference is shown to who looks.
pub(crate) fn shows_member(
    rows: &StoredRows,
    viewer: &Viewer,
    conference: u32,
    member: &Member,
) -> bool
    ensures { result ≡ Shown.shows_membership rows.now.db viewer.now member.now.person conference
        member.now.kind }
{
    shows_membership(rows, viewer, member.person, conference, member.kind)
}

/// Whether a person whose membership in a conference is secret is hidden from who looks, and is
/// among the first members. Who looks is not strong, and does not supervise the conference.
fn is_hidden_member(
    rows: &StoredRows,
    viewer: &Viewer,
    conference: u32,
    first: usize,
    person: u32,
) -> bool
    ensures { result
        ≡ (not (viewer.now.person == person || supervises_by rows.now.db viewer.now.person person)
        && list_any (λ row. row.person == person)
        (take first (members_of rows.now.db conference))) }
{
    !(viewer.person == person || supervises(rows, viewer.person, person))
        && rows.is_among_first(person, conference, first)
}

/// How many of the first memberships of a person are hidden from who looks. Of each secret
/// conference it is asked whether the person is in it, and each membership that may be hidden is
/// searched for in the person's list; where that would take longer, each of the first is looked at
/// instead. The time is constant for the person itself.
pub(crate) fn hidden_memberships(
    rows: &StoredRows,
    viewer: &Viewer,
    person: u32,
    first: usize,
) -> usize
    ensures { result ≡ hidden_memberships rows.now.db viewer.now person first }
{
    if first == 0 {
        return 0;
    }
    let count = rows.membership_count(person);
    if viewer.strong || viewer.person == person {
        return 0;
    }
    let looks = first.min(count);
    let searches = looks / (1 + count / ENTRIES_A_LOOK);
    if looks <= rows.secret_conferences().len() / CONFERENCES_A_LOOK
        || needs_more_searches(rows, viewer, person, searches)
    {
        return rows
            .memberships(person)
            .take(first)
            .filter(|row| is_hidden(rows, viewer, row))
            .count();
    }
    hidden_secret(rows, viewer, person, first) + hidden_plain(rows, viewer, person, first)
}

/// Whether more than so many of a person's memberships are secret, or more others are in
/// conferences that who looks does not see.
fn needs_more_searches(rows: &StoredRows, viewer: &Viewer, person: u32, searches: usize) -> bool
    ensures { result ≡ needs_more_searches rows.now.db viewer.now person searches }
{
    searches < rows.secret_memberships(person).len()
        || searches < unseen_count(rows, viewer, person)
}

/// How many secret conferences a person is in by a membership that is not secret, while who looks
/// does not see them.
fn unseen_count(rows: &StoredRows, viewer: &Viewer, person: u32) -> usize
    ensures { result ≡ unseen_count rows.now.db viewer.now person }
{
    rows.secret_conferences()
        .iter()
        .filter(|conference| is_unseen(rows, viewer, person, **conference))
        .count()
}

fn is_unseen(rows: &StoredRows, viewer: &Viewer, person: u32, conference: u32) -> bool
    ensures { result ≡ is_unseen rows.now.db viewer.now person conference }
{
    is_plain_member(rows, person, conference) && !sees(rows, viewer, conference)
}

fn is_hidden(rows: &StoredRows, viewer: &Viewer, row: &MembershipRow) -> bool
    ensures { result ≡ is_hidden rows.now.db viewer.now row.now }
{
    !shows_membership(rows, viewer, row.person, row.conference, row.kind)
}

/// How many of the first memberships of a person are secret, and hidden from who looks.
fn hidden_secret(rows: &StoredRows, viewer: &Viewer, person: u32, first: usize) -> usize
    requires in_place { AreInPlace rows.now.db person }
    requires found { AreFound rows.now.db person }
    ensures { result ≡ count_by
        (λ row. is_secret_membership row.kind && is_hidden rows.now.db viewer.now row)
        (take first (memberships_of rows.now.db person)) }
{
    rows.secret_memberships(person)
        .iter()
        .filter(|conference| is_hidden_secret(rows, viewer, person, first, **conference))
        .count()
}

/// Whether a secret membership is hidden from who looks, and is among the person's first.
fn is_hidden_secret(
    rows: &StoredRows,
    viewer: &Viewer,
    person: u32,
    first: usize,
    conference: u32,
) -> bool
    ensures { result ≡ (not (Shown.shows_membership rows.now.db viewer.now person conference 32)
        && is_before rows.now.db person first conference) }
{
    !shows_membership(rows, viewer, person, conference, SECRET_MEMBERSHIP)
        && is_before(rows, person, first, conference)
}

/// How many of the first memberships of a person are not secret, and hidden from who looks: those
/// in conferences that it does not see.
fn hidden_plain(rows: &StoredRows, viewer: &Viewer, person: u32, first: usize) -> usize
    requires there { AreThere rows.now.db person }
    requires in_place { AreInPlace rows.now.db person }
    requires found { AreFound rows.now.db person }
    requires by_secret { AreFoundBySecret rows.now.db person }
    ensures { result ≡ count_by
        (λ row. not (is_secret_membership row.kind) && is_hidden rows.now.db viewer.now row)
        (take first (memberships_of rows.now.db person)) }
{
    rows.secret_conferences()
        .iter()
        .filter(|conference| is_hidden_plain(rows, viewer, person, first, **conference))
        .count()
}

/// Whether a person has a membership in a conference that is not secret, among its first, and who
/// looks does not see the conference.
fn is_hidden_plain(
    rows: &StoredRows,
    viewer: &Viewer,
    person: u32,
    first: usize,
    conference: u32,
) -> bool
    ensures { result ≡ (is_some (membership_of rows.now.db person conference)
        && (is_unseen rows.now.db viewer.now person conference
        && is_before rows.now.db person first conference)) }
{
    is_unseen(rows, viewer, person, conference) && is_before(rows, person, first, conference)
}

/// Whether a person has a membership in a conference that is not secret, in constant time.
fn is_plain_member(rows: &StoredRows, person: u32, conference: u32) -> bool
    ensures { result ≡ is_plain_member rows.now.db person conference }
{
    match rows.membership_kind(person, conference) {
        None => false,
        Some(kind) => kind & SECRET_MEMBERSHIP == 0,
    }
}

/// Whether a person's membership in a conference is among its first. The time grows with the
/// person's memberships.
fn is_before(rows: &StoredRows, person: u32, first: usize, conference: u32) -> bool
    ensures { result ≡ is_before rows.now.db person first conference }
{
    match rows.membership(person, conference) {
        None => false,
        Some(row) => (row.position as usize) < first,
    }
}
