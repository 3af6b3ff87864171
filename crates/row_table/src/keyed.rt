ghost use Rattle.std.specs.Prelude.{◌≡◌, ℕ};

/// Rows of one type, and how they are found: each by its number.
pub trait Keyed {
    type Row: Drop;

    /// The number of a row.
    ghost number_of: { Self.Row → ℕ };

    fn number_of(row: &Self::Row) -> u32
        ensures { result ≡ number_of row.now };
}

/// A change of a row in its place, which keeps the row's number.
pub trait Change<K: Keyed>: Drop {
    /// What becomes of a row.
    ghost changed: { Self → K.Row → K.Row };

    fn change(self, row: &mut K::Row)
        ensures { row.new ≡ changed self row.old };

    /// The number stays.
    ghost keeps_number: { (change : Self) (row : K.Row)
        → K.number_of (changed change row) ≡ K.number_of row };
}
