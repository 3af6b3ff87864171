ghost use Rattle.kom_rows.specs.StreamRows.{StreamRows};
ghost use Rattle.kom_rows.specs.TableRows.{TableRows};

/// A law alone: the definitions of the stream, its reading and its printing give what was worked
/// out by hand.
pub fn worked_rows()
    ensures { StreamRows }
{}

/// A law alone: the definitions of names, mappings and aux-items give what was worked out by hand.
pub fn worked_tables()
    ensures { TableRows }
{}
