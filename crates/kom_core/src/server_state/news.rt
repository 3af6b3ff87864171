ghost use Rattle.std.specs.Prelude.{◌<◌, IfSome};

use super::ServerState;

impl ServerState {
    /// How often something came to a session unasked: a message, its end, or more than may wait.
    pub(crate) fn news(&self) -> u64 {
        self.sessions.news()
    }

    /// The first session of a pass, above this number, to which something came unasked after this
    /// count of news.
    pub(crate) fn next_news(&self, pass: u32, above: u32, since: u64) -> Option<u32>
        ensures { IfSome result (λ session. above < session) }
    {
        self.sessions.next_news(pass, above, since)
    }
}
