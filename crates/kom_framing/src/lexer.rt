ghost use Rattle.std.specs.Prelude.{◌≡◌, ℕ, ◌+◌, ◌-◌, ◌^◌, ◌<◌, ◌≤◌, List, ◌++◌, length, take};
ghost use Rattle.std.specs.Prelude.{drop};
ghost use Rattle.kom_types.specs.ByteKind.{kind_of};
ghost use Rattle.kom_framing.specs.Scanning.{IsLexer, IsRun, IsInside, IsAfterSign, IsMove, Does};
ghost use Rattle.kom_framing.specs.Scanning.{step_by};

use kom_types::{ByteKind, Side, kind_of_byte};

/// How far a line has come.
#[derive(Clone, Copy, Debug)]
pub enum Lexer {
    /// Before a token, or before the line's end.
    Between,
    /// In a run of digits from `start` on that spells `number` so far.
    Run { start: usize, number: u64 },
    /// In a string, whose length begins at `start`, that lacks so many bytes.
    Inside { start: usize, lacking: usize },
    /// Directly after a token.
    Past,
    /// After the sign at `start`, and perhaps digits.
    AfterSign { start: usize },
}

/// What the next bytes are to a line.
#[derive(Clone, Copy, Debug)]
pub enum Step {
    /// So many bytes were taken, and with them perhaps a token ended, which began at that place.
    Goes(usize, Option<u32>, Lexer),
    /// The line ends with the next byte, and perhaps a token before it, which began at that place.
    Ends(Option<u32>),
    /// The next byte fits nowhere.
    Unfit,
}

impl Lexer {
    /// Looks at the bytes of a window from `at` on, after the bytes of the line that came before
    /// the window.
    #[inline(always)]
    pub fn step(self, side: Side, text: &[u8], window: &[u8], at: usize) -> Step
        requires lexer { IsLexer self (text.now ++ take at window.now) }
        requires some { at < length window.now }
        requires room { length text.now + length window.now < 2 ^ 32 }
        ensures { Does side result self (text.now ++ take at window.now) (drop at window.now) }
    {
        let place = text.len() + at;
        match self {
            Lexer::Between => step_between(side, place, window[at]),
            Lexer::Run { start, number } => step_in_run(start, number, place, window[at]),
            Lexer::Inside { start, lacking } => step_inside(start, lacking, window.len() - at),
            Lexer::Past => step_after(None, window[at]),
            Lexer::AfterSign { start } => step_after_sign(start, place, window[at]),
        }
    }
}

// A byte after a token, or after the digits that it ends, which began at `start`.
#[inline(always)]
fn step_after(start: Option<u32>, byte: u8) -> Step
    ensures { result ≡ step_by start (kind_of byte) }
{
    match kind_of_byte(byte) {
        ByteKind::Blank => Step::Goes(1, start, Lexer::Between),
        ByteKind::LineFeed => Step::Ends(start),
        _ => Step::Unfit,
    }
}

// A byte where a token may begin, after so many bytes.
#[inline(always)]
fn step_between(side: Side, place: usize, byte: u8) -> Step
    requires room { place < 2 ^ 32 }
    ensures { (bytes : List ℕ) → length bytes ≡ place
        → IsMove side result Lexer.Between bytes byte }
{
    match kind_of_byte(byte) {
        ByteKind::Blank => Step::Goes(1, None, Lexer::Between),
        ByteKind::LineFeed => Step::Ends(None),
        ByteKind::Digit => {
            let number = digit_of(byte);
            let start = place;
            Step::Goes(1, None, Lexer::Run { start, number })
        }
        ByteKind::Open => Step::Goes(1, Some(place as u32), Lexer::Past),
        ByteKind::Close => Step::Goes(1, Some(place as u32), Lexer::Past),
        ByteKind::Star => Step::Goes(1, Some(place as u32), Lexer::Past),
        ByteKind::Sign => match side {
            Side::Client => Step::Unfit,
            Side::Server => {
                let start = place;
                Step::Goes(1, None, Lexer::AfterSign { start })
            }
        },
        ByteKind::Hollerith | ByteKind::Other => Step::Unfit,
    }
}

// A byte after digits, after so many bytes.
#[inline(always)]
fn step_in_run(start: usize, number: u64, place: usize, byte: u8) -> Step
    requires begun { start < place }
    requires short { place ≤ start + 16 }
    requires small { number < 10 ^ (place - start) }
    requires room { place + 1 < 2 ^ 32 }
    ensures { (side : Side) (bytes : List ℕ) → length bytes ≡ place → IsRun start number bytes
        → IsMove side result (Lexer.Run start number) bytes byte }
{
    match kind_of_byte(byte) {
        ByteKind::Digit => {
            if place - start < 16 {
                let number = 10 * number + digit_of(byte);
                Step::Goes(1, None, Lexer::Run { start, number })
            } else {
                Step::Unfit
            }
        }
        ByteKind::Hollerith => {
            if place - start <= 10 && number < 4_294_967_296 {
                step_into(start, number as usize)
            } else {
                Step::Unfit
            }
        }
        _ => step_after(Some(start as u32), byte),
    }
}

// A byte after a sign and perhaps digits, after so many bytes.
fn step_after_sign(start: usize, place: usize, byte: u8) -> Step
    requires begun { start < place }
    requires short { place ≤ start + 17 }
    requires room { place + 1 < 2 ^ 32 }
    ensures { (side : Side) (bytes : List ℕ) → length bytes ≡ place → IsAfterSign start bytes
        → IsMove side result (Lexer.AfterSign start) bytes byte }
{
    let digits = place - start - 1;
    match kind_of_byte(byte) {
        ByteKind::Digit => {
            if digits < 16 {
                Step::Goes(1, None, Lexer::AfterSign { start })
            } else {
                Step::Unfit
            }
        }
        _ => {
            if digits == 0 {
                Step::Unfit
            } else {
                step_after(Some(start as u32), byte)
            }
        }
    }
}

// The `H` before a string of that many bytes, whose length begins at `start`.
#[inline(always)]
fn step_into(start: usize, lacking: usize) -> Step
    requires room { start < 2 ^ 32 }
    ensures none { lacking ≡ 0 → result ≡ Step.Goes 1 (Some start) Lexer.Past }
    ensures some { 0 < lacking → result ≡ Step.Goes 1 None (Lexer.Inside start lacking) }
{
    if lacking == 0 {
        Step::Goes(1, Some(start as u32), Lexer::Past)
    } else {
        Step::Goes(1, None, Lexer::Inside { start, lacking })
    }
}

// The bytes of a string, of which so many are left in the window.
#[inline(always)]
fn step_inside(start: usize, lacking: usize, left: usize) -> Step
    requires room { start < 2 ^ 32 }
    requires lacks { 1 ≤ lacking }
    requires some { 1 ≤ left }
    ensures { (side : Side) (bytes tail : List ℕ) → IsInside start lacking bytes
        → length tail ≡ left → Does side result (Lexer.Inside start lacking) bytes tail }
{
    if lacking <= left {
        Step::Goes(lacking, Some(start as u32), Lexer::Past)
    } else {
        let lacking = lacking - left;
        Step::Goes(left, None, Lexer::Inside { start, lacking })
    }
}

// The number that a digit spells.
#[inline(always)]
fn digit_of(byte: u8) -> u64
    requires { 48 ≤ byte }
    ensures { result ≡ byte - 48 }
{
    (byte - b'0') as u64
}
