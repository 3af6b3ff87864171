//! Which memberships are secret, of each person and in each conference: the lists that stand beside
//! those of conferences and persons.
ghost use Rattle.std.specs.Prelude.{◌≡◌, ℕ, Bool, ◌+◌, ◌<◌, ◌≤◌, ◌&&◌, true, false, nat_eq, map};
ghost use Rattle.std.specs.Prelude.{IsTrue};
ghost use Rattle.std.specs.List.{count_by, IsDistinct};
ghost use Rattle.std.specs.Set.{is_member};
ghost use Rattle.kom_types.specs.tables.Memberships.{is_secret_membership};
ghost use Rattle.kom_types.specs.tables.Memberships.{members_of, memberships_of};
ghost use Rattle.row_slots.specs.Lists.{list_of, room_of, HasOnlyChanged};
ghost use Rattle.memberships.specs.Secrets.{one_if};

use crate::table::Memberships;
use kom_types::bits::SECRET_MEMBERSHIP;
use row_slots::Lists;

impl Memberships {
    /// The conferences in which a person's membership is secret, each once, in any order: as many
    /// of them pass a test as such memberships do. Takes constant time.
    pub fn secret_of_person(&self, person: u32) -> &[u32]
        ensures { (test : ℕ → Bool) → count_by test result.now ≡ count_by
            (λ row. is_secret_membership row.kind && test row.conference)
            (memberships_of person self.now.rows) }
    {
        self.secret_conferences.list(person)
    }

    /// The persons whose membership in a conference is secret, each once, in any order: as many of
    /// them pass a test as such memberships do. Takes constant time.
    pub fn secret_in_conference(&self, conference: u32) -> &[u32]
        ensures counted { (test : ℕ → Bool) → count_by test result.now ≡ count_by
            (λ row. is_secret_membership row.kind && test row.person)
            (members_of conference self.now.rows) }
        ensures once { IsDistinct nat_eq
            (map (λ row. row.person) (members_of conference self.now.rows)) }
    {
        self.secret_persons.list(conference)
    }
}

/// Whether a membership of this type is secret.
pub(super) fn is_secret(kind: u8) -> bool
    ensures { result ≡ is_secret_membership kind }
{
    kind & SECRET_MEMBERSHIP != 0
}

/// The membership of a key with a number was secret or not, and is so now or not: the list of the
/// secret ones follows.
pub(super) fn relist(lists: &mut Lists, key: u32, number: u32, was: bool, is: bool)
    requires there { was ≡ true → is ≡ false
        → IsTrue (is_member nat_eq (list_of lists.old key) number) }
    requires room { was ≡ false → is ≡ true → 0 < room_of lists.old key }
    ensures list { (test : ℕ → Bool)
        → count_by test (list_of lists.new key) + one_if (was && test number)
        ≡ count_by test (list_of lists.old key) + one_if (is && test number) }
    ensures others { HasOnlyChanged lists.old lists.new key }
    ensures room { room_of lists.old key + one_if was ≤ room_of lists.new key + one_if is }
{
    if was == is {
        return;
    }
    if is {
        lists.push(key, number);
    } else {
        lists.remove(key, number);
    }
}
