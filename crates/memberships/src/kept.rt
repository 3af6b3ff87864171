ghost use Rattle.std.specs.Prelude.{◌≡◌, ℕ};
ghost use Rattle.memberships.specs.Entries.{kept_of, kept_with_read, kept_row};
ghost use Rattle.kom_types.specs.tables.Memberships.{member_of};

use kom_types::{Member, MembershipRow, Moment};
use read_ranges::Ranges;

/// A membership as it is kept by its person and its conference.
#[derive(Debug, Drop)]
pub struct Kept {
    /// Rises with each new membership, and so tells the order of joining.
    pub turn: u64,
    pub priority: u8,
    pub added_by: u32,
    pub added_at: Moment,
    pub last_time_read: Moment,
    /// The eight bits of its type.
    pub kind: u8,
    /// The local numbers that the person has read.
    pub read: Ranges,
}

impl Kept {
    /// What is kept of a new membership, with its turn.
    pub(crate) fn of(row: &MembershipRow, turn: u64, read: Ranges) -> Kept
        ensures { result ≡ kept_of row.now turn row.now.last_time_read read }
    {
        Kept {
            turn,
            priority: row.priority,
            added_by: row.added_by,
            added_at: row.added_at,
            last_time_read: row.last_time_read,
            kind: row.kind,
            read,
        }
    }

    /// Becomes what is kept of a row. The turn, what was read and its moment stay.
    pub(crate) fn renew(&mut self, row: &MembershipRow)
        ensures { self.new
            ≡ kept_of row.now self.old.turn self.old.last_time_read self.old.read }
    {
        self.priority = row.priority;
        self.added_by = row.added_by;
        self.added_at = row.added_at;
        self.kind = row.kind;
    }

    /// Has this set of read numbers and its moment in place of those before.
    pub(crate) fn set_read(&mut self, at: Moment, read: Ranges)
        ensures { self.new ≡ kept_with_read at read self.old }
    {
        self.last_time_read = at;
        self.read = read;
    }

    /// The row of the membership of a person in a conference, at a position.
    pub(crate) fn show(&self, person: u32, conference: u32, position: u32) -> MembershipRow
        ensures { result ≡ kept_row person conference position self.now }
    {
        MembershipRow {
            person,
            conference,
            position,
            priority: self.priority,
            added_by: self.added_by,
            added_at: self.added_at,
            last_time_read: self.last_time_read,
            kind: self.kind,
        }
    }

    /// The member that a person is by this membership.
    pub(crate) fn member(&self, person: u32) -> Member
        ensures { (conference position : ℕ)
            → result ≡ member_of (kept_row person conference position self.now) }
    {
        Member {
            person,
            added_by: self.added_by,
            added_at: self.added_at,
            kind: self.kind,
        }
    }
}
