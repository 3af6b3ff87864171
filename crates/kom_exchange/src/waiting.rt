/// What may be ready.
#[derive(Clone, Copy, Debug)]
pub struct Ready {
    pub keys: bool,
    pub link: bool,
}

/// How a visit waits for keys and for its server. A wrong answer costs time, and no clause hangs on
/// it.
pub trait Waiting: Drop {
    /// Waits until something can be read.
    fn wait(&mut self) -> Ready;
}
