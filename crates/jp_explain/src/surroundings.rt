//! Where a query is asked.

/// Where a query is asked, and so what the sentence about its refusal may speak of.
#[derive(Clone, Copy, Debug, PartialEq, Eq)]
pub enum Surroundings {
    /// By a program, in a shell: there are the shell's quotes, options and the names of files.
    Shell,
    /// By a call of a library: there are the query and its profile.
    Library,
}
