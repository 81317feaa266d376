//! Which records of distrust the answers of a session have.

/// Which records of distrust the answers have.
#[derive(Clone, Copy, Debug, PartialEq, Eq)]
pub enum AnswerRecords {
    /// All that are held.
    All,
    /// None.
    LeftOut,
}
