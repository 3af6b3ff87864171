ghost use Rattle.std.specs.Prelude.{◌↔◌, IsTrue};
ghost use Rattle.kom_links.specs.Outside.{Rose};

/// Whether faults rose from one count to another, which stands still at 2^64 - 1.
pub fn has_risen(before: u64, after: u64) -> bool
    ensures { IsTrue result ↔ Rose before after }
{
    before < after || after == u64::MAX
}
