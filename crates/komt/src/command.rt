use kom_types::Words;
use kom_visit::Zone;

/// What the words of the command line say.
#[derive(Clone, Copy)]
pub(crate) struct Command<'a> {
    pub(crate) host: &'a str,
    pub(crate) port: u16,
    pub(crate) user: &'a str,
    pub(crate) name: &'a str,
    pub(crate) columns: u16,
    pub(crate) rows: u16,
    pub(crate) zone: Zone,
}

const HOST: &str = "localhost";

const PORT: u16 = 4894;

/// What the words say: each option has a word behind it, and the person's name stands last.
pub(crate) fn command_of(words: &Words) -> Option<Command<'_>> {
    let mut command = Command {
        host: HOST,
        port: PORT,
        user: "",
        name: "",
        columns: 80,
        rows: 24,
        zone: Zone {
            is_east: true,
            minutes: 0,
        },
    };
    let mut place = 0;
    for _ in 0..words.len() {
        if words.len() <= place || words.len() - place <= 1 {
            break;
        }
        let value = words.word(place + 1);
        match words.word(place) {
            "--host" => command.host = value,
            "--port" => command.port = number_of(value)?,
            "--user" => command.user = value,
            "--columns" => command.columns = number_of(value)?,
            "--rows" => command.rows = number_of(value)?,
            "--zone" => command.zone = zone_of(value)?,
            _ => return None,
        }
        place += 2;
    }
    if words.len() <= place || words.len() - place != 1 {
        return None;
    }
    command.name = words.word(place);
    Some(command)
}

/// A number from 1 to 65535, of one to five digits.
fn number_of(word: &str) -> Option<u16> {
    match word.parse::<u16>() {
        Ok(0) | Err(_) => None,
        Ok(number) => Some(number),
    }
}

/// A zone, as +0100: hours and minutes.
fn zone_of(word: &str) -> Option<Zone> {
    match word.as_bytes() {
        [b'+', digits @ ..] => Some(Zone {
            is_east: true,
            minutes: minutes_of(digits)?,
        }),
        [b'-', digits @ ..] => Some(Zone {
            is_east: false,
            minutes: minutes_of(digits)?,
        }),
        _ => None,
    }
}

/// The minutes of four digits: hours, and minutes.
fn minutes_of(digits: &[u8]) -> Option<u16> {
    if digits.len() != 4 {
        return None;
    }
    let mut number = 0u16;
    for digit in digits {
        if !digit.is_ascii_digit() {
            return None;
        }
        number = number
            .saturating_mul(10)
            .saturating_add(u16::from(digit.saturating_sub(b'0')));
    }
    Some(
        (number / 100)
            .saturating_mul(60)
            .saturating_add(number % 100),
    )
}
