/// A segment of one of several logs.
#[derive(Clone, Copy, Debug, PartialEq, Eq, PartialOrd, Ord)]
pub struct Piece {
    /// The number of the row that its last line was published as.
    pub row: u32,
    /// The place of its log.
    pub log: u32,
    /// The place of its last line in the log, from 0.
    pub last: u32,
}
