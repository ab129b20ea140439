//! What help says.

/// What help says below the subcommands.
pub(crate) const AFTER_HELP: &str = "\
Each command takes one QUERY. eval, paths and both read a JSON document from standard input.
With --extended before or after it, the query may also call the function distinct.
With --explain a refused query is told with its place, the reason and what to try instead, and
a refused document with its line, its column and the reason.
With --raw, eval and both write texts by their characters, without quotes.
With --first, eval, paths and both go no further than the first node.
With --exit-status they end with status 6 where no node is selected.

Example: echo '[1,2]' | jp eval '$[-1]'

Statuses: 0 done, 1 query refused, 2 usage, 3 document refused,
4 want of memory, 5 read or write fault, 6 nothing selected (--exit-status)";

/// What help says of a subcommand.
#[derive(Debug, Clone, Copy)]
pub struct CommandHelp {
    /// What it writes.
    pub about: &'static str,
    /// Its usage, which is told with each error in its words.
    pub usage: &'static str,
    /// An example.
    pub example: &'static str,
}

/// `check`.
pub(crate) const CHECK: CommandHelp = CommandHelp {
    about: "Tells whether a query is accepted",
    usage: "jp check [OPTIONS] <QUERY>",
    example: "Example: jp check --explain '$[?@.a=1]'",
};

/// `canon`.
pub(crate) const CANON: CommandHelp = CommandHelp {
    about: "Writes a query's canonical text",
    usage: "jp canon [OPTIONS] <QUERY>",
    example: "Example: jp canon '$.a[\"b\"]'",
};

/// `eval`.
pub(crate) const EVAL: CommandHelp = CommandHelp {
    about: "Writes each selected node's value",
    usage: "jp eval [OPTIONS] <QUERY> < FILE",
    example: "Example: echo '[1,2]' | jp eval '$[-1]'",
};

/// `paths`.
pub(crate) const PATHS: CommandHelp = CommandHelp {
    about: "Writes each selected node's path",
    usage: "jp paths [OPTIONS] <QUERY> < FILE",
    example: "Example: echo '[1,2]' | jp paths '$[?@>1]'",
};

/// `both`.
pub(crate) const BOTH: CommandHelp = CommandHelp {
    about: "Writes each one's path, a tab and its value",
    usage: "jp both [OPTIONS] <QUERY> < FILE",
    example: "Example: echo '[1,2]' | jp both '$.*'",
};
