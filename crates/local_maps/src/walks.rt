//! The pairs of a map where they stand.
use kom_types::LocalText;
use map_chain::{Downward, Upward};
use std::marker::Model;

/// The pairs of a map from a local number on, rising.
#[derive(Drop)]
pub struct PairsFrom<'a> {
    pub(crate) walk: Upward<'a>,
}

impl<'a> Model for PairsFrom<'a> {
    ghost use Rattle.std.specs.Prelude.{List, map};
    ghost use Rattle.kom_types.specs.declared.texts.LocalText.{LocalText};
    ghost use Rattle.local_maps.specs.Pairs.{local_text};

    ghost Value = { List LocalText };

    ghost view = { λ pairs. map local_text pairs.walk };
}

impl<'a> Iterator for PairsFrom<'a> {
    type Item = LocalText;

    ghost use Rattle.std.specs.Iterator.{YieldsFirst, item_count};

    ghost next_gives = { YieldsFirst (λ s. s) };

    ghost remaining = { item_count (λ s. s) };

    fn next(&mut self) -> Option<LocalText> {
        let (local, text) = self.walk.next()?;
        Some(LocalText { local, text })
    }
}

/// The pairs of a map below a local number, falling.
#[derive(Drop)]
pub(crate) struct PairsBefore<'a> {
    pub(crate) walk: Downward<'a>,
}

impl<'a> Model for PairsBefore<'a> {
    ghost use Rattle.std.specs.Prelude.{List, map};
    ghost use Rattle.kom_types.specs.declared.texts.LocalText.{LocalText};
    ghost use Rattle.local_maps.specs.Pairs.{local_text};

    ghost Value = { List LocalText };

    ghost view = { λ pairs. map local_text pairs.walk };
}

impl<'a> Iterator for PairsBefore<'a> {
    type Item = LocalText;

    ghost use Rattle.std.specs.Iterator.{YieldsFirst, item_count};

    ghost next_gives = { YieldsFirst (λ s. s) };

    ghost remaining = { item_count (λ s. s) };

    fn next(&mut self) -> Option<LocalText> {
        let (local, text) = self.walk.next()?;
        Some(LocalText { local, text })
    }
}
