ghost use Rattle.std.specs.Prelude.{◌≡◌, true};
ghost use Rattle.kom_records.specs.Links.{misc_by};
ghost use Rattle.kom_records.specs.Records as records;
ghost use Rattle.kom_records.specs.Telling.{ReadsAs};

use crate::elements::Element;
use crate::fault::ReadFault;
use crate::tokens::Tokens;
use kom_types::{Block, Mapping, MiscInfo, TextStat};

impl Element for MiscInfo {
    ghost reads = { records.misc_info };

    fn take_from(tokens: &mut Tokens<'_>) -> Result<MiscInfo, ReadFault> {
        let tag = tokens.number()?;
        tokens.misc_by(tag)
    }
}

impl Tokens<'_> {
    /// Takes the value of a link with this tag.
    fn misc_by(&mut self, tag: u32) -> Result<MiscInfo, ReadFault>
        ensures { ReadsAs true (misc_by tag self.old) result self.new }
    {
        match tag {
            0 => Ok(MiscInfo::Recipient(self.number()?)),
            1 => Ok(MiscInfo::CopyRecipient(self.number()?)),
            2 => Ok(MiscInfo::CommentTo(self.number()?)),
            3 => Ok(MiscInfo::CommentIn(self.number()?)),
            4 => Ok(MiscInfo::FootnoteTo(self.number()?)),
            5 => Ok(MiscInfo::FootnoteIn(self.number()?)),
            6 => Ok(MiscInfo::Local(self.number()?)),
            7 => Ok(MiscInfo::Received(self.time()?)),
            8 => Ok(MiscInfo::SentBy(self.number()?)),
            9 => Ok(MiscInfo::SentAt(self.time()?)),
            15 => Ok(MiscInfo::BlindRecipient(self.number()?)),
            _ => Err(ReadFault::Departs),
        }
    }

    /// Takes what is told of a text.
    pub(crate) fn text_stat(&mut self) -> Result<TextStat, ReadFault>
        ensures { ReadsAs true (records.text_stat self.old) result self.new }
    {
        let created = self.time()?;
        let author = self.number()?;
        let lines = self.number()?;
        let chars = self.number()?;
        let marks = self.number()?;
        let misc_infos = self.array()?;
        let aux_items = self.array()?;
        Ok(TextStat {
            created,
            author,
            lines,
            chars,
            marks,
            misc_infos,
            aux_items,
        })
    }

    /// Takes a part of the texts of a conference or an author.
    pub(crate) fn mapping(&mut self) -> Result<Mapping, ReadFault>
        ensures { ReadsAs true (records.mapping self.old) result self.new }
    {
        let begin = self.number()?;
        let end = self.number()?;
        let later_texts_exist = self.flag()?;
        let block = self.block()?;
        Ok(Mapping {
            begin,
            end,
            later_texts_exist,
            block,
        })
    }

    /// Takes the pairs of a mapping.
    fn block(&mut self) -> Result<Block, ReadFault>
        ensures { ReadsAs true (records.block self.old) result self.new }
    {
        match self.number()? {
            0 => Ok(Block::Sparse(self.array()?)),
            1 => self.dense(),
            _ => Err(ReadFault::Departs),
        }
    }

    /// Takes the pairs of a mapping that has no gap.
    fn dense(&mut self) -> Result<Block, ReadFault>
        ensures { ReadsAs true (records.dense self.old) result self.new }
    {
        let first = self.number()?;
        let texts = self.array()?;
        Ok(Block::Dense { first, texts })
    }
}
