// What a value means that lies in a hall.
ghost use Rattle.std.specs.Prelude.{ℕ, List, [], ◌∷◌, ◌++◌};

/// A value whose changes are booked: each is one entry, or none where the value means the same.
pub trait Booked {
    type Entry: Drop;

    /// The number of the pass that the entry names.
    ghost pass_of: { Self.Entry → ℕ };

    /// The second value follows from the first one by the entry.
    ghost follows: { Self → Self.Entry → Self → Type 0 };

    /// The second value means what the first one does.
    ghost stays: { Self → Self → Type 0 };

    /// The history leads from the opening value to the other one.
    ghost led: { Self → List Self.Entry → Self → Type 0 };

    ghost itself_stays: { (value : Self) → stays value value };

    ghost empty_leads: { (opening : Self) → led opening [] opening };

    ghost staying_leads: { (opening : Self) (history : List Self.Entry) (old new : Self)
        → led opening history old → stays old new → led opening history new };

    ghost following_leads: { (opening : Self) (history : List Self.Entry) (old : Self)
        (entry : Self.Entry) (new : Self) → led opening history old → follows old entry new
        → led opening (history ++ entry ∷ []) new };
}
