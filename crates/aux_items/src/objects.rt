ghost use Rattle.std.specs.Prelude.{◌≡◌, ℕ, ◌+◌, ◌≤◌, ◌<◌, Bool, [], ◌∷◌, ◌++◌};
ghost use Rattle.std.specs.Prelude.{nat_eq, OnOk, IsOk, IsTrue, if◌then◌else◌};
ghost use Rattle.std.specs.Set.{remove_key, is_member};
ghost use Rattle.aux_items.specs.Objects.{list_at, room_at, is_same};

use kom_types::Memory;
use row_slots::Lists;
use std::alloc::Global;

/// A list of numbers for each text and each conference: empty where it was never used.
pub struct ObjectLists {
    texts: Lists,
    conferences: Lists,
}

// A call of its own, so that whoever lets the lists go has one step to prove and not one for each
// part.
impl Drop for ObjectLists {
    fn drop(self) {
        let ObjectLists { texts, conferences } = self;
        drop((texts, conferences));
    }
}

impl ObjectLists {
    /// Empty lists. They take no memory.
    pub(crate) fn new(alloc: Global) -> ObjectLists
        ensures { (on_text : Bool) (object : ℕ) → list_at result on_text object ≡ [] }
    {
        ObjectLists {
            texts: Lists::new(alloc),
            conferences: Lists::new(alloc),
        }
    }

    /// The list of a text, or a conference.
    pub(crate) fn list(&self, on_text: bool, object: u32) -> &[u32]
        ensures { result.now ≡ list_at self.now on_text object }
    {
        if on_text {
            self.texts.list(object)
        } else {
            self.conferences.list(object)
        }
    }

    /// Makes room for so many more numbers in the list of a text, or a conference.
    pub(crate) fn reserve(
        &mut self,
        on_text: bool,
        object: u32,
        additional: usize,
    ) -> Result<(), Memory>
        ensures lists { (kind : Bool) (other : ℕ)
            → list_at self.new kind other ≡ list_at self.old kind other }
        ensures ok { OnOk result (additional ≤ room_at self.new on_text object) }
        ensures room { (kind : Bool) (other : ℕ)
            → room_at self.old kind other ≤ room_at self.new kind other }
        ensures succeeds { additional ≤ room_at self.old on_text object → IsOk result }
    {
        if on_text {
            self.texts.reserve(object, additional)?;
        } else {
            self.conferences.reserve(object, additional)?;
        }
        Ok(())
    }

    /// Puts a number at the end of the list of a text, or a conference. Takes no memory.
    pub(crate) fn push(&mut self, on_text: bool, object: u32, number: u32)
        requires { 0 < room_at self.old on_text object }
        ensures lists { (kind : Bool) (other : ℕ) → list_at self.new kind other
            ≡ (if is_same on_text object kind other then list_at self.old kind other ++ number ∷ []
            else list_at self.old kind other) }
        ensures room { (kind : Bool) (other : ℕ) → room_at self.old kind other
            ≤ room_at self.new kind other + (if is_same on_text object kind other then 1 else 0) }
    {
        if on_text {
            self.texts.push(object, number);
        } else {
            self.conferences.push(object, number);
        }
    }

    /// Takes a number out of the list of a text, or a conference, which has it.
    pub(crate) fn remove(&mut self, on_text: bool, object: u32, number: u32)
        requires { IsTrue (is_member nat_eq (list_at self.old on_text object) number) }
        ensures lists { (kind : Bool) (other : ℕ) → list_at self.new kind other
            ≡ (if is_same on_text object kind other
            then remove_key (nat_eq number) (list_at self.old kind other)
            else list_at self.old kind other) }
        ensures room { (kind : Bool) (other : ℕ)
            → room_at self.old kind other ≤ room_at self.new kind other }
    {
        if on_text {
            self.texts.remove(object, number);
        } else {
            self.conferences.remove(object, number);
        }
    }

    /// Looks at so many texts and as many conferences, and forgets those whose list is empty, with
    /// its room.
    pub(crate) fn sweep(&mut self, steps: usize)
        ensures { (on_text : Bool) (object : ℕ) → list_at self.new on_text object
            ≡ list_at self.old on_text object }
    {
        self.texts.sweep(steps);
        self.conferences.sweep(steps);
    }
}
