ghost use Rattle.std.specs.Prelude.{◌<◌, IfSome};

use super::Core;

impl Core {
    /// How often something came to a session unasked: a message, its end, or more than may wait.
    pub fn news(&self) -> u64 {
        self.server.news()
    }

    /// The first session of a pass, above this number, to which something came unasked after this
    /// count of news.
    pub fn next_news(&self, pass: u32, above: u32, since: u64) -> Option<u32>
        ensures { IfSome result (λ session. above < session) }
    {
        self.server.next_news(pass, above, since)
    }
}
