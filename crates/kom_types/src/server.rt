use crate::aux_items::AuxRows;
use crate::lists::Bytes;

/// What the server speaks, and what it is. (Protocol A, "Version-Info".)
#[derive(Drop)]
pub struct VersionInfo {
    pub protocol: u32,
    pub software: Bytes,
    pub version: Bytes,
}

/// What the server tells of itself. (Protocol A, "Info".)
#[derive(Drop)]
pub struct Info {
    pub version: u32,
    /// Conferences, as the next three.
    pub conference_presentations: u32,
    pub person_presentations: u32,
    pub motds: u32,
    pub news: u32,
    /// A text, or 0.
    pub motd_of_lyskom: u32,
    pub aux_items: AuxRows,
}
