ghost use Rattle.std.specs.Prelude.{◌≡◌, true};
ghost use Rattle.kom_types.specs.calls.Arguments as argument;
ghost use Rattle.kom_records.specs.Rules as rule;
ghost use Rattle.kom_records.specs.Telling.{ReadsAs};

use crate::elements::Element;
use crate::fault::ReadFault;
use crate::tokens::Tokens;
use kom_framing::Token;
use kom_types::Sequence;

impl Tokens<'_> {
    /// Takes an array.
    pub(crate) fn array<T: Element>(&mut self) -> Result<Sequence<T>, ReadFault>
        ensures { ReadsAs true (rule.array T.reads self.old) result self.new }
    {
        let count = self.number()?;
        self.array_of(count)
    }

    /// Takes so many elements in braces, or a star in place of none.
    pub(crate) fn array_of<T: Element>(&mut self, count: u32) -> Result<Sequence<T>, ReadFault>
        ensures { ReadsAs true (rule.array_of T.reads count self.old) result self.new }
    {
        match self.next() {
            Some(Token::Open) => {
                if count == 0 {
                    return Err(ReadFault::Departs);
                }
                let values = self.elements(count as usize)?;
                match self.next() {
                    Some(Token::Close) => Ok(values),
                    _ => Err(ReadFault::Departs),
                }
            }
            Some(Token::Star) => {
                if count == 0 {
                    Ok(Sequence::new(self.allocator()))
                } else {
                    Err(ReadFault::Departs)
                }
            }
            _ => Err(ReadFault::Departs),
        }
    }

    /// Takes so many elements, for which it has room once.
    fn elements<T: Element>(&mut self, count: usize) -> Result<Sequence<T>, ReadFault>
        ensures { ReadsAs true (argument.elements T.reads count self.old) result self.new }
    {
        let mut values = Vec::with_capacity(self.allocator(), count.min(self.len()))?;
        for _ in 0..count {
            let value = T::take_from(self)?;
            values.push(value)?;
        }
        Ok(Sequence::of(values))
    }
}
