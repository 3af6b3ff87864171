use kom_types::Words;
use kom_types::limits::LONGEST_USER_NAME;

/// What the words of the command line say.
pub(crate) struct Command<'a> {
    pub port: u16,
    pub user: &'a str,
}

/// The port and the user of the words `--port`, a number, `--user` and a name.
pub(crate) fn command_of(words: &Words) -> Option<Command<'_>> {
    if words.len() != 4 || words.word(0) != "--port" || words.word(2) != "--user" {
        return None;
    }
    let port = port_of(words.word(1).as_bytes())?;
    let user = words.word(3);
    if LONGEST_USER_NAME < user.len() {
        return None;
    }
    Some(Command { port, user })
}

/// A port: one to six digits, from 1 to 65535.
fn port_of(word: &[u8]) -> Option<u16> {
    if word.is_empty() || 6 < word.len() {
        return None;
    }
    let mut number = 0u32;
    for byte in word {
        if *byte < b'0' || b'9' < *byte {
            return None;
        }
        number = number
            .saturating_mul(10)
            .saturating_add(u32::from(*byte - b'0'));
    }
    match u16::try_from(number) {
        Ok(0) | Err(_) => None,
        Ok(port) => Some(port),
    }
}
