ghost use Rattle.std.specs.Prelude.{◌≡◌};
ghost use Rattle.name_lookup.specs.Order.{name_in, is_below};

use crate::matching::compare;
use indexmap::IndexMap;
use kom_types::Bytes;

/// What names are compared with.
#[derive(Clone, Copy)]
pub(crate) enum By {
    /// A name: by letters, and names of the same letters by all bytes.
    Name,
    /// Letters.
    Letters,
}

/// The name of a number, empty where it has none.
pub(crate) fn name_of(kept: &IndexMap<u32, Bytes>, number: u32) -> &[u8]
    ensures { result.now ≡ name_in kept.now.entries number }
{
    match kept.get(&number) {
        Some(name) => name.as_slice(),
        None => &[],
    }
}

/// Whether the name of a number comes before what is asked for.
pub(crate) fn is_below(kept: &IndexMap<u32, Bytes>, number: u32, asked: &[u8], by: By) -> bool
    ensures { result ≡ is_below kept.now.entries by asked.now number }
{
    compare(name_of(kept, number), asked, by).is_lt()
}
