// What the command line asks for.
ghost use Rattle.std.specs.Prelude.{◌≡◌, ◌<◌, ◌↔◌, IsTrue, IfNone, IfSome, IfOk, MatchOption};
ghost use Rattle.std.specs.Option.{SomeIff};
ghost use Rattle.std.specs.Process.{exit_status};
ghost use Rattle.bench.specs.Words.{IsCount, AsksForSome, number_of, subject_of};

use std::io::Eprint;
use std::process::ExitCode;
use std::rt::Env;
use std::{env, io};

/// The status where the words of the command line ask for nothing.
const USAGE: u8 = 2;

/// What is measured.
#[derive(Clone, Copy, PartialEq, Eq)]
pub enum Subject {
    /// Chains of pairs beside a vector.
    MapChain,
    /// A disk over a file.
    Disk,
    /// Turns of threads under a state lock.
    StateLock,
}

/// What is told of each measure.
#[derive(Clone, Copy)]
pub enum Told {
    /// What the measure adds up to, which is the same each time.
    Sums,
    /// The time that it took, and the sum.
    Times,
}

/// What the command line asks for.
#[derive(Clone, Copy)]
pub struct Request {
    /// What is measured, or everything.
    pub subject: Option<Subject>,
    /// How much is measured, or a few.
    pub count: Option<u32>,
}

impl Request {
    /// Whether this is to be measured.
    pub fn asks_for(&self, subject: Subject) -> bool
        ensures { MatchOption self.now.subject (IsTrue result)
            (λ asked. IsTrue result ↔ (asked ≡ subject)) }
    {
        self.subject.is_none_or(|asked| asked == subject)
    }

    /// How much is measured, where these are few.
    pub fn count_or(&self, few: u32) -> u32
        requires some { AsksForSome self.now }
        requires few { 0 < few }
        ensures some { 0 < result }
        ensures asked { IfSome self.now.count (λ count. result ≡ count) }
        ensures few { IfNone self.now.count (result ≡ few) }
    {
        self.count.unwrap_or(few)
    }

    /// What is told: the times where a number was asked for.
    pub fn told(&self) -> Told
        ensures { MatchOption self.now.count (result ≡ Told.Sums) (λ _. result ≡ Told.Times) }
    {
        match self.count {
            Some(_) => Told::Times,
            None => Told::Sums,
        }
    }
}

/// What the command line asks for. None where its words ask for nothing or cannot be read.
pub fn asked(rt: &(impl Env + Alloc)) -> Option<Request>
    ensures { IfSome result AsksForSome }
{
    let mut words = env::args(rt).ok()?.skip(1);
    let name = words.next();
    let number = words.next();
    if words.next().is_some() {
        return None;
    }
    requested(
        name.as_ref().map(|word| word.as_str()),
        number.as_ref().map(|word| word.as_str()),
    )
}

/// Without a name a few of everything, and by a name of that alone, or with a number so many.
fn requested(name: Option<&str>, number: Option<&str>) -> Option<Request>
    ensures nothing { IfNone name.entry
        (result ≡ Some (record { subject = None; count = None })) }
    ensures unknown { IfSome name.entry (λ name. subject_of name.now ≡ None → result ≡ None) }
    ensures few { IfSome name.entry (λ name. IfSome (subject_of name.now) (λ subject.
        IfNone number.entry (result ≡ Some (record { subject = Some subject; count = None })))) }
    ensures many { IfSome name.entry (λ name. IfSome (subject_of name.now) (λ subject.
        IfSome number.entry (λ number. SomeIff result (IsCount number.now)
        (record { subject = Some subject; count = Some (number_of number.now) })))) }
{
    let Some(name) = name else {
        return Some(Request {
            subject: None,
            count: None,
        });
    };
    let subject = named(name)?;
    let Some(number) = number else {
        return Some(Request {
            subject: Some(subject),
            count: None,
        });
    };
    let count = counted(number)?;
    Some(Request {
        subject: Some(subject),
        count: Some(count),
    })
}

/// What a word names.
fn named(word: &str) -> Option<Subject>
    ensures { result ≡ subject_of word.now }
{
    if word == "map_chain" {
        Some(Subject::MapChain)
    } else if word == "disk" {
        Some(Subject::Disk)
    } else if word == "state_lock" {
        Some(Subject::StateLock)
    } else {
        None
    }
}

/// The number that a word writes, unless it is 0.
fn counted(word: &str) -> Option<u32>
    ensures { SomeIff result (IsCount word.now) (number_of word.now) }
{
    let count: u32 = word.parse().ok()?;
    if count == 0 {
        return None;
    }
    Some(count)
}

/// Tells how the program is called. The status where the command line asks for nothing.
pub fn refuse(rt: &impl Eprint) -> io::Result<ExitCode>
    ensures { IfOk result (λ status. exit_status status ≡ 2) }
{
    eprintln!(rt; "usage: bench [map_chain | disk | state_lock [COUNT]]")?;
    Ok(ExitCode::from(USAGE))
}
