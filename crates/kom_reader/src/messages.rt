ghost use Rattle.std.specs.Prelude.{◌≡◌, OnOk};
ghost use Rattle.kom_reader.specs.Hearing.{after_message, with_unread, with_part};

use crate::reader::Reader;
use crate::recipients::{Part, parts_of};
use crate::rows::Row;
use kom_types::{Memory, Message, TextStat};
use std::alloc::Global;

impl Reader {
    /// What a message changes of what is unread. Those that tell too little, as that a text got
    /// another recipient, change nothing.
    pub fn hear(&mut self, alloc: Global, message: &Message) -> Result<(), Memory>
        ensures { OnOk result (self.new ≡ after_message message.now self.old) }
    {
        match message {
            Message::NewText { text, stat } => self.learn_text(alloc, *text, stat.get()),
            Message::DeletedText { text, stat: _ } => {
                self.take_text(*text);
                Ok(())
            }
            Message::SubRecipient {
                text,
                conference,
                kind: _,
            } => {
                self.take_recipient(*text, *conference);
                Ok(())
            }
            Message::LeaveConference { conference } => {
                self.leave(*conference);
                Ok(())
            }
            _ => Ok(()),
        }
    }

    /// Adds the rows of a text in the conferences of the person.
    #[tactic(auto, using(crate::proofs::Passing::learned_step, crate::proofs::Passing::learned_end))]
    pub fn learn_text(&mut self, alloc: Global, text: u32, stat: &TextStat) -> Result<(), Memory>
        ensures { OnOk result (self.new ≡ with_unread text stat.now self.old) }
    {
        let parts = parts_of(alloc, stat.misc_infos.as_slice())?;
        for part in &parts {
            self.learn_part(text, *part)?;
        }
        Ok(())
    }

    fn learn_part(&mut self, text: u32, part: Part) -> Result<(), Memory>
        ensures { OnOk result (self.new ≡ with_part text self.old part) }
    {
        if !self.is_member(part.conference) {
            return Ok(());
        }
        self.add(Row {
            conference: part.conference,
            local: part.local,
            text,
        })
    }
}
