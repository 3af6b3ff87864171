//! A request, and what is asked in it.
ghost use Rattle.std.specs.Prelude.{◌≡◌, ◌++◌, ◌∷◌, [], IfOk, OnOk, map};

use kom_types::{Bytes, Memory, Sequence};
use std::alloc::Global;

/// A word of a request behind its number.
#[derive(Drop)]
pub enum Argument {
    Number(u32),
    Text(Bytes),
    /// The braces round the elements of an array.
    Open,
    Close,
    /// Eight bits, none of which is set.
    Flags,
}

/// What is asked: the number of the call, and its arguments.
#[derive(Drop)]
pub struct Request {
    pub call: u32,
    pub arguments: Sequence<Argument>,
}

impl Request {
    /// A request that has no arguments yet.
    pub fn new(alloc: Global, call: u32) -> Request
        ensures { result ≡ record { call = call; arguments = [] } }
    {
        Request {
            call,
            arguments: Sequence::new(alloc),
        }
    }

    /// A request of which all arguments are numbers.
    pub fn of(alloc: Global, call: u32, numbers: &[u32]) -> Result<Request, Memory>
        ensures { IfOk result (λ request. request
            ≡ record { call = call; arguments = map Argument.Number numbers.now }) }
    {
        let arguments = numbers_of(alloc, numbers)?;
        Ok(Request { call, arguments })
    }

    pub fn number(&mut self, number: u32) -> Result<(), Memory>
        ensures with_it { OnOk result (self.new ≡ record self.old {
          arguments = self.old.arguments ++ Argument.Number number ∷ [];
        }) }
        ensures call { self.new.call ≡ self.old.call }
    {
        self.arguments.push(Argument::Number(number))
    }

    pub fn text(&mut self, alloc: Global, text: &[u8]) -> Result<(), Memory>
        ensures with_it { OnOk result (self.new ≡ record self.old {
          arguments = self.old.arguments ++ Argument.Text text.now ∷ [];
        }) }
        ensures call { self.new.call ≡ self.old.call }
    {
        let text = Bytes::copy_of(alloc, text)?;
        self.arguments.push(Argument::Text(text))
    }

    /// A brace, or flags.
    pub fn word(&mut self, word: Argument) -> Result<(), Memory>
        ensures with_it { OnOk result (self.new ≡ record self.old {
          arguments = self.old.arguments ++ word ∷ [];
        }) }
        ensures call { self.new.call ≡ self.old.call }
    {
        self.arguments.push(word)
    }
}

#[tactic(auto, using(crate::proofs::Passing::numbers_step, crate::proofs::Passing::numbers_end))]
fn numbers_of(alloc: Global, numbers: &[u32]) -> Result<Sequence<Argument>, Memory>
    ensures { IfOk result (λ arguments. arguments ≡ map Argument.Number numbers.now) }
{
    let mut arguments = Sequence::new(alloc);
    for number in numbers {
        arguments.push(Argument::Number(*number))?;
    }
    Ok(arguments)
}
