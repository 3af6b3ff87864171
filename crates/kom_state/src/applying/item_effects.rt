//! How the effects on aux-items are made.
ghost use Rattle.std.specs.Prelude.{◌≡◌, true, false};
ghost use Rattle.kom_types.specs.declared.effects.Effect.{Effect as Change};
ghost use Rattle.kom_state.specs.Room.{IsPossible, IsMade};

use crate::stored_rows::StoredRows;
use kom_types::{AuxRow, Effect, ItemRow};

impl StoredRows {
    pub(crate) fn add_item(&mut self, on_text: bool, object: u32, item: AuxRow)
        requires { IsPossible (Effect.AuxAdded on_text object item) self.old }
        ensures { IsMade (Effect.AuxAdded on_text object item) self.old self.new }
    {
        if on_text {
            self.add_text_item(object, item);
        } else {
            self.add_conference_item(object, item);
        }
    }

    fn add_text_item(&mut self, object: u32, item: AuxRow)
        requires { IsPossible (Effect.AuxAdded true object item) self.old }
        ensures { IsMade (Effect.AuxAdded true object item) self.old self.new }
    {
        self.texts.draw_item(object, item.number);
        self.items.add(ItemRow {
            on_text: true,
            object,
            item,
        });
    }

    fn add_conference_item(&mut self, object: u32, item: AuxRow)
        requires { IsPossible (Effect.AuxAdded false object item) self.old }
        ensures { IsMade (Effect.AuxAdded false object item) self.old self.new }
    {
        self.conferences.draw_item(object, item.number);
        self.items.add(ItemRow {
            on_text: false,
            object,
            item,
        });
    }

    pub(crate) fn remove_item(&mut self, on_text: bool, object: u32, number: u32)
        requires { IsPossible (Effect.AuxGone on_text object number) self.old }
        ensures { IsMade (Effect.AuxGone on_text object number) self.old self.new }
    {
        self.items.remove(on_text, object, number);
    }
}
