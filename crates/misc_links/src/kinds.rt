ghost use Rattle.std.specs.Prelude.{◌≡◌, ℕ, ◌+◌, ◌≤◌, ◌<◌, Bool, [], ◌∷◌, ◌++◌};
ghost use Rattle.std.specs.Prelude.{nat_eq, true, false, OnOk, IsOk, IsTrue, if◌then◌else◌};
ghost use Rattle.std.specs.Set.{remove_key, is_member};
ghost use Rattle.misc_links.specs.Kinds.{list_at, room_at, is_same};

use kom_types::Memory;
use row_slots::Lists;
use std::alloc::Global;

/// A list of numbers for each text and each kind of link: empty where it was never used.
pub struct KindLists {
    comments: Lists,
    footnotes: Lists,
}

// A call of its own, so that whoever lets the lists go has one step to prove and not one for each
// part.
impl Drop for KindLists {
    fn drop(self) {
        let KindLists {
            comments,
            footnotes,
        } = self;
        drop((comments, footnotes));
    }
}

impl KindLists {
    /// Empty lists. They take no memory.
    pub(crate) fn new(alloc: Global) -> KindLists
        ensures { (text : ℕ) (footnote : Bool) → list_at result text footnote ≡ [] }
    {
        KindLists {
            comments: Lists::new(alloc),
            footnotes: Lists::new(alloc),
        }
    }

    /// The list of a text and a kind.
    pub(crate) fn list(&self, text: u32, footnote: bool) -> &[u32]
        ensures { result.now ≡ list_at self.now text footnote }
    {
        if footnote {
            self.footnotes.list(text)
        } else {
            self.comments.list(text)
        }
    }

    /// Puts the numbers in both lists of a text at the end of other numbers.
    pub(crate) fn append_to(&self, text: u32, numbers: &mut Vec<u32>) -> Result<(), Memory>
        ensures { OnOk result (numbers.new.items ≡ numbers.old.items
            ++ list_at self.now text false ++ list_at self.now text true) }
    {
        numbers.extend_from_slice(self.list(text, false))?;
        numbers.extend_from_slice(self.list(text, true))?;
        Ok(())
    }

    /// Makes room for so many more numbers in the list of a text and a kind.
    pub(crate) fn reserve(
        &mut self,
        text: u32,
        footnote: bool,
        additional: usize,
    ) -> Result<(), Memory>
        ensures lists { (other : ℕ) (kind : Bool)
            → list_at self.new other kind ≡ list_at self.old other kind }
        ensures ok { OnOk result (additional ≤ room_at self.new text footnote) }
        ensures room { (other : ℕ) (kind : Bool)
            → room_at self.old other kind ≤ room_at self.new other kind }
        ensures succeeds { additional ≤ room_at self.old text footnote → IsOk result }
    {
        if footnote {
            self.footnotes.reserve(text, additional)?;
        } else {
            self.comments.reserve(text, additional)?;
        }
        Ok(())
    }

    /// Puts a number at the end of the list of a text and a kind. Takes no memory.
    pub(crate) fn push(&mut self, text: u32, footnote: bool, number: u32)
        requires { 0 < room_at self.old text footnote }
        ensures lists { (other : ℕ) (kind : Bool) → list_at self.new other kind
            ≡ (if is_same text footnote other kind then list_at self.old other kind ++ number ∷ []
            else list_at self.old other kind) }
        ensures room { (other : ℕ) (kind : Bool) → room_at self.old other kind
            ≤ room_at self.new other kind + (if is_same text footnote other kind then 1 else 0) }
    {
        if footnote {
            self.footnotes.push(text, number);
        } else {
            self.comments.push(text, number);
        }
    }

    /// Takes a number out of the list of a text and a kind, which has it.
    pub(crate) fn remove(&mut self, text: u32, footnote: bool, number: u32)
        requires { IsTrue (is_member nat_eq (list_at self.old text footnote) number) }
        ensures lists { (other : ℕ) (kind : Bool) → list_at self.new other kind
            ≡ (if is_same text footnote other kind
            then remove_key (nat_eq number) (list_at self.old other kind)
            else list_at self.old other kind) }
        ensures room { (other : ℕ) (kind : Bool)
            → room_at self.old other kind ≤ room_at self.new other kind }
    {
        if footnote {
            self.footnotes.remove(text, number);
        } else {
            self.comments.remove(text, number);
        }
    }

    /// Looks at so many texts of each kind, and forgets those whose list is empty, with its room.
    pub(crate) fn sweep(&mut self, steps: usize)
        ensures { (text : ℕ) (footnote : Bool) → list_at self.new text footnote
            ≡ list_at self.old text footnote }
    {
        self.comments.sweep(steps);
        self.footnotes.sweep(steps);
    }
}
