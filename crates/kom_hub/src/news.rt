use kom_types::NotMade;

/// What a desk answered to what it was asked for all guests.
#[derive(Clone, Copy)]
pub enum News {
    /// A flush was made, or refused.
    Flushed(Result<(), NotMade>),
    /// It was asked whether the server is stopped.
    Asked(Result<bool, NotMade>),
}
