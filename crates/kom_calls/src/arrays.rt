ghost use Rattle.std.specs.Prelude.{◌≡◌, true};
ghost use Rattle.kom_types.specs.calls.Arguments as argument;
ghost use Rattle.kom_calls.specs.Telling.{ReadsAs};

use crate::arguments::Arguments;
use crate::elements::Element;
use crate::fault::ArgumentFault;
use kom_framing::Token;
use kom_types::limits::LONGEST_ARRAY;
use kom_types::{AuxInputs, MiscInputs, Numbers, ReadRanges, Sequence};

impl Arguments<'_> {
    /// Takes an array of numbers.
    pub(crate) fn numbers(&mut self) -> Result<Numbers, ArgumentFault>
        ensures { ReadsAs true (argument.numbers self.old) result self.new }
    {
        self.array()
    }

    /// Takes an array of ranges of texts that were read.
    pub(crate) fn read_ranges(&mut self) -> Result<ReadRanges, ArgumentFault>
        ensures { ReadsAs true (argument.read_ranges self.old) result self.new }
    {
        self.array()
    }

    /// Takes an array of a text's links.
    pub(crate) fn misc_inputs(&mut self) -> Result<MiscInputs, ArgumentFault>
        ensures { ReadsAs true (argument.misc_inputs self.old) result self.new }
    {
        self.array()
    }

    /// Takes an array of aux-items.
    pub(crate) fn aux_inputs(&mut self) -> Result<AuxInputs, ArgumentFault>
        ensures { ReadsAs true (argument.aux_inputs self.old) result self.new }
    {
        self.array()
    }

    /// Takes an array.
    fn array<T: Element>(&mut self) -> Result<Sequence<T>, ArgumentFault>
        ensures { ReadsAs true (argument.array T.reads self.old) result self.new }
    {
        let count = self.integer()?;
        if count <= LONGEST_ARRAY {
            self.array_of(count as usize)
        } else {
            Err(ArgumentFault::LongArray)
        }
    }

    /// Takes so many elements in braces, or a star in place of none.
    fn array_of<T: Element>(&mut self, count: usize) -> Result<Sequence<T>, ArgumentFault>
        ensures { ReadsAs true (argument.array_of T.reads count self.old) result self.new }
    {
        match self.next() {
            Some(Token::Open) => {
                let values = self.elements(count)?;
                match self.next() {
                    Some(Token::Close) => Ok(values),
                    _ => Err(ArgumentFault::Malformed),
                }
            }
            Some(Token::Star) => {
                if count == 0 {
                    Ok(Sequence::new(self.allocator()))
                } else {
                    Err(ArgumentFault::Malformed)
                }
            }
            _ => Err(ArgumentFault::Malformed),
        }
    }

    /// Takes so many elements, for which it has room once.
    pub(crate) fn elements<T: Element>(
        &mut self,
        count: usize,
    ) -> Result<Sequence<T>, ArgumentFault>
        ensures { ReadsAs true (argument.elements T.reads count self.old) result self.new }
    {
        let mut values = Vec::with_capacity(self.allocator(), count.min(self.len()))?;
        for _ in 0..count {
            let value = T::take_from(self)?;
            values.push(value)?;
        }
        Ok(Sequence::of(values))
    }
}
