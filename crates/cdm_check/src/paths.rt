//! The paths of the files of a check.

/// The paths of the files of a check, as its lines tell them.
#[derive(Clone, Copy, Debug)]
pub struct FilePaths<'a> {
    /// The airport file.
    pub airport: &'a str,
    /// The feed.
    pub feed: &'a str,
    /// The scenario file, if there is one.
    pub scenarios: Option<&'a str>,
}
