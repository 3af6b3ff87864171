use kom_types::Moment;

/// A text without its body: its number, who made it and when, and how many line feeds and bytes the
/// body has. The author is 0 for an anonymous text. (Protocol A, "Texts".)
#[derive(Clone, Copy, Debug)]
pub struct TextHead {
    pub number: u32,
    pub author: u32,
    pub created: Moment,
    pub lines: usize,
    pub chars: usize,
}
