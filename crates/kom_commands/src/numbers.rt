// The numbers among the words of a command line.
ghost use Rattle.std.specs.Prelude.{◌≡◌, ◌≤◌, [], ◌∷◌, Some, IfSome, IfNone, length, ℕ};
ghost use Rattle.std.specs.List.{list_all};
ghost use Rattle.kom_types.specs.ByteKind.{is_digit as is_decimal};
ghost use Rattle.kom_types.specs.Token.{number_of};
ghost use Rattle.kom_commands.specs.declared.numbers.AtPort.{AtPort as Place};
ghost use Rattle.kom_commands.specs.declared.numbers.Way.{Way as Manner};
ghost use Rattle.kom_commands.specs.Numbers.{number_in as number_between, SaysServe, word_of};

/// Where sessions are served, by how many workers, and how each of these serves.
#[derive(Clone, Copy, Debug)]
pub struct AtPort {
    pub port: u16,
    pub workers: u32,
    pub way: Way,
}

/// How a worker serves the links of its gate.
#[derive(Clone, Copy, Debug, PartialEq, Eq)]
pub enum Way {
    OneAtATime,
    ManyAtATime,
}

// The most workers.
const MOST_WORKERS: u32 = 64;

// The most digits of a number.
const MOST_DIGITS: usize = 6;

/// What the words of `serve` or `hub` say, if they are right.
pub fn serve_of(word: &str, store: &str, port: &str, workers: &str) -> Option<AtPort>
    ensures some { IfSome result (SaysServe
        (word.now ∷ store.now ∷ port.now ∷ workers.now ∷ [])) }
    ensures none { IfNone result ((at : Place) → SaysServe
        (word.now ∷ store.now ∷ port.now ∷ workers.now ∷ []) at → ⊥) }
{
    let way = way_of(word)?;
    if store.is_empty() {
        return None;
    }
    let port = port_in(port)?;
    let workers = number_in(workers, 1, MOST_WORKERS)?;
    Some(AtPort { port, workers, way })
}

/// The way that a word says, if it says one.
fn way_of(word: &str) -> Option<Way>
    ensures some { IfSome result (λ way. word.now ≡ word_of way) }
    ensures none { IfNone result ((way : Manner) → word.now ≡ word_of way → ⊥) }
{
    if word == "serve" {
        Some(Way::OneAtATime)
    } else if word == "hub" {
        Some(Way::ManyAtATime)
    } else {
        None
    }
}

/// The port that a word is, if it is one.
fn port_in(word: &str) -> Option<u16>
    ensures { result ≡ number_between 1 65535 word.now }
{
    match number_in(word, 1, u32::from(u16::MAX)) {
        Some(number) => Some(number as u16),
        None => None,
    }
}

/// The number that a word is, if it is one from the least to the greatest.
pub fn number_in(word: &str, least: u32, greatest: u32) -> Option<u32>
    ensures number { result ≡ number_between least greatest word.now }
    ensures within { IfSome result (λ number. number ≤ greatest) }
{
    let digits = word.as_bytes();
    if digits.is_empty() || MOST_DIGITS < digits.len() || !are_digits(digits) {
        return None;
    }
    let number = number(digits);
    if least <= number && number <= greatest {
        Some(number)
    } else {
        None
    }
}

fn are_digits(bytes: &[u8]) -> bool
    ensures { result ≡ list_all is_decimal bytes.now }
{
    bytes.iter().all(|byte| is_digit(byte))
}

fn is_digit(byte: &u8) -> bool
    ensures { result ≡ is_decimal byte.now }
{
    b'0' <= *byte && *byte <= b'9'
}

/// The number that a run of six digits at most spells.
fn number(digits: &[u8]) -> u32
    requires { length digits.now ≤ 6 }
    ensures { result ≡ number_of digits.now }
{
    let mut number = 0;
    for digit in digits {
        number = 10 * number + u32::from(digit.saturating_sub(b'0'));
    }
    number
}
