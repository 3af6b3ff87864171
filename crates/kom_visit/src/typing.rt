//! A text that is typed.
use kom_types::{Memory, MiscInput};
use std::alloc::Global;

/// A text that is typed, and where it is to stand.
pub(crate) struct Draft {
    pub(crate) links: Vec<MiscInput>,
    /// As it was typed, or none as long as it is asked for.
    pub(crate) subject: Option<Vec<u8>>,
    pub(crate) body: Vec<u8>,
    has_line: bool,
}

impl Drop for Draft {
    fn drop(self) {
        let Draft {
            links,
            subject,
            body,
            has_line: _,
        } = self;
        drop((links, subject));
        drop(body);
    }
}

/// What a typed line is to a draft.
#[derive(Clone, Copy, Debug, PartialEq, Eq)]
pub(crate) enum Typed {
    /// It is a part of the text.
    More,
    /// It ends the text.
    Done,
    /// It drops the text.
    Dropped,
}

impl Draft {
    pub(crate) fn new(alloc: Global, links: Vec<MiscInput>, subject: Option<Vec<u8>>) -> Draft {
        Draft {
            links,
            subject,
            body: Vec::new(alloc),
            has_line: false,
        }
    }

    /// Takes a line of the text: a dot alone ends it, two dots are one, and `.q` drops it.
    pub(crate) fn take(&mut self, line: &[u8]) -> Result<Typed, Memory> {
        if line == b".".as_slice() {
            return Ok(Typed::Done);
        }
        if line == b".q".as_slice() {
            return Ok(Typed::Dropped);
        }
        let line = match line {
            [b'.', b'.', ..] => &line[1..],
            _ => line,
        };
        if self.has_line {
            self.body.push(b'\n')?;
        }
        self.has_line = true;
        self.body.extend_from_slice(line)?;
        Ok(Typed::More)
    }

    /// The subject and the lines, as one text.
    pub(crate) fn whole(&self, alloc: Global) -> Result<Vec<u8>, Memory> {
        let mut whole = Vec::new(alloc);
        if let Some(subject) = &self.subject {
            whole.extend_from_slice(subject.as_slice())?;
        }
        whole.push(b'\n')?;
        whole.extend_from_slice(self.body.as_slice())?;
        Ok(whole)
    }
}
