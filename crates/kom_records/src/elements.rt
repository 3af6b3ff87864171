ghost use Rattle.std.specs.Prelude.{◌≡◌, List, true, false};
ghost use Rattle.kom_types.specs.Token.{Token};
ghost use Rattle.kom_types.specs.calls.Arguments.{Taken};
ghost use Rattle.kom_records.specs.Records as records;
ghost use Rattle.kom_records.specs.Rules as rule;
ghost use Rattle.kom_records.specs.Telling.{ReadsAs};

use crate::fault::ReadFault;
use crate::tokens::Tokens;
use kom_types::{AuxRow, ConferenceName, DynamicSession, LocalText, Mark, Member, ReadRange};

/// What an array has many of.
pub(crate) trait Element: Drop {
    ghost reads: { List Token → Taken Self };

    /// Takes one.
    fn take_from(tokens: &mut Tokens<'_>) -> Result<Self, ReadFault>
        ensures { ReadsAs true (reads tokens.old) result tokens.new };
}

impl Element for u32 {
    ghost reads = { rule.number };

    fn take_from(tokens: &mut Tokens<'_>) -> Result<u32, ReadFault> {
        Ok(tokens.number()?)
    }
}

impl Element for Mark {
    ghost reads = { records.mark };

    fn take_from(tokens: &mut Tokens<'_>) -> Result<Mark, ReadFault> {
        let text = tokens.number()?;
        let kind = tokens.byte()?;
        Ok(Mark { text, kind })
    }
}

impl Element for LocalText {
    ghost reads = { records.local_text };

    fn take_from(tokens: &mut Tokens<'_>) -> Result<LocalText, ReadFault> {
        let local = tokens.number()?;
        let text = tokens.number()?;
        Ok(LocalText { local, text })
    }
}

impl Element for ReadRange {
    ghost reads = { records.read_range };

    fn take_from(tokens: &mut Tokens<'_>) -> Result<ReadRange, ReadFault> {
        let first = tokens.number()?;
        let last = tokens.number()?;
        Ok(ReadRange { first, last })
    }
}

impl Element for AuxRow {
    ghost reads = { records.aux_item };

    fn take_from(tokens: &mut Tokens<'_>) -> Result<AuxRow, ReadFault> {
        let number = tokens.number()?;
        let tag = tokens.number()?;
        let creator = tokens.number()?;
        let at = tokens.time()?;
        let flags = tokens.bits_8()?;
        let limit = tokens.number()?;
        let content = tokens.string()?;
        Ok(AuxRow {
            number,
            tag,
            creator,
            at,
            flags,
            limit,
            content,
        })
    }
}

impl Element for ConferenceName {
    ghost reads = { records.conference_name };

    fn take_from(tokens: &mut Tokens<'_>) -> Result<ConferenceName, ReadFault> {
        let name = tokens.string()?;
        let kind = tokens.bits_4()?;
        let number = tokens.number()?;
        Ok(ConferenceName { name, kind, number })
    }
}

impl Element for Member {
    ghost reads = { records.member };

    fn take_from(tokens: &mut Tokens<'_>) -> Result<Member, ReadFault> {
        let person = tokens.number()?;
        let added_by = tokens.number()?;
        let added_at = tokens.time()?;
        let kind = tokens.bits_8()?;
        Ok(Member {
            person,
            added_by,
            added_at,
            kind,
        })
    }
}

impl Element for DynamicSession {
    ghost reads = { records.dynamic_session };

    fn take_from(tokens: &mut Tokens<'_>) -> Result<DynamicSession, ReadFault> {
        let session = tokens.number()?;
        let person = tokens.number()?;
        let working = tokens.number()?;
        let idle = tokens.number()?;
        let flags = tokens.bits_8()?;
        let doing = tokens.string()?;
        Ok(DynamicSession {
            session,
            person,
            working,
            idle,
            flags,
            doing,
        })
    }
}
