use kom_links::Failed;

/// Where a text is kept that could not be sent.
pub trait Drafts: Drop {
    /// Keeps a text in place of the one before.
    fn keep(&mut self, draft: &[u8]) -> Result<(), Failed>;
}
