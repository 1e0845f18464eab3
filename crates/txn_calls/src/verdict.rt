//! What the checks of a commit come to.

/// What the checks of a commit come to, where none fails.
#[derive(Clone, Copy, Debug, PartialEq, Eq)]
pub enum Verdict {
    /// There is nothing to write: it succeeds without a version.
    ReadOnly,
    /// It makes the next version.
    Commits,
}
