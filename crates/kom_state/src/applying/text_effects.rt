//! How the effects on texts are made.
ghost use Rattle.std.specs.Prelude.{◌≡◌, true};
ghost use Rattle.kom_types.specs.declared.effects.Effect.{Effect as Change};
ghost use Rattle.kom_state.specs.Room.{IsPossible, IsMade, is_of_text, mark_set};

use crate::stored_rows::StoredRows;
use kom_types::{Bytes, Effect, MarkRow, Moment, Recipient, TextLink};

impl StoredRows {
    /// Makes an effect on texts.
    pub(crate) fn apply_to_texts(&mut self, effect: Effect)
        requires possible { IsPossible effect self.old }
        requires of_text { is_of_text effect ≡ true }
        ensures { IsMade effect self.old self.new }
    {
        match effect {
            Effect::TextAdded {
                number,
                author,
                at,
                body,
            } => self.add_text(number, author, at, body),
            Effect::TextGone { number } => self.remove_text(number),
            Effect::RecipientAdded(given) => self.add_recipient(given),
            Effect::RecipientGone { text, conference } => self.remove_recipient(text, conference),
            Effect::LinkAdded(given) => self.add_link(given),
            Effect::LinkGone {
                child,
                parent,
                footnote,
            } => self.remove_link(child, parent, footnote),
            Effect::MarkSet { person, text, kind } => self.set_mark(MarkRow { person, text, kind }),
            Effect::MarkGone { person, text } => self.remove_mark(person, text),
            Effect::Created {
                person,
                local,
                text,
            } => self.number_created(person, local, text),
            _ => unreachable!(),
        }
    }

    fn add_text(&mut self, number: u32, author: u32, at: Moment, body: Bytes)
        requires { IsPossible (Effect.TextAdded number author at body) self.old }
        ensures { IsMade (Effect.TextAdded number author at body) self.old self.new }
    {
        self.texts.add(number, author, at, body);
        self.next_text = number + 1;
    }

    fn remove_text(&mut self, number: u32)
        requires { IsPossible (Effect.TextGone number) self.old }
        ensures { IsMade (Effect.TextGone number) self.old self.new }
    {
        self.texts.remove(number);
    }

    fn add_recipient(&mut self, given: Recipient)
        requires { IsPossible (Effect.RecipientAdded given) self.old }
        ensures { IsMade (Effect.RecipientAdded given) self.old self.new }
    {
        self.conferences.draw_local(given.conference, given.local);
        self.texts.add_recipient(given);
    }

    fn remove_recipient(&mut self, text: u32, conference: u32)
        requires { IsPossible (Effect.RecipientGone text conference) self.old }
        ensures { IsMade (Effect.RecipientGone text conference) self.old self.new }
    {
        self.texts.remove_recipient(text, conference);
    }

    fn add_link(&mut self, given: TextLink)
        requires { IsPossible (Effect.LinkAdded given) self.old }
        ensures { IsMade (Effect.LinkAdded given) self.old self.new }
    {
        self.texts.add_link(given);
    }

    fn remove_link(&mut self, child: u32, parent: u32, footnote: bool)
        requires { IsPossible (Effect.LinkGone child parent footnote) self.old }
        ensures { IsMade (Effect.LinkGone child parent footnote) self.old self.new }
    {
        self.texts.remove_link(child, parent, footnote);
    }

    fn set_mark(&mut self, given: MarkRow)
        requires { IsPossible (mark_set given) self.old }
        ensures { IsMade (mark_set given) self.old self.new }
    {
        self.texts.set_mark(given);
    }

    fn remove_mark(&mut self, person: u32, text: u32)
        requires { IsPossible (Effect.MarkGone person text) self.old }
        ensures { IsMade (Effect.MarkGone person text) self.old self.new }
    {
        self.texts.remove_mark(person, text);
    }

    fn number_created(&mut self, person: u32, local: u32, text: u32)
        requires { IsPossible (Effect.Created person local text) self.old }
        ensures { IsMade (Effect.Created person local text) self.old self.new }
    {
        self.persons.draw_created(person, local);
        self.texts.number_created(person, local, text);
    }
}
