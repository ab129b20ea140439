//! What help says.

use jp_command::CommandHelp;

/// What help says below the subcommands.
pub(crate) const AFTER_HELP: &str = "\
Each command takes one QUERY, keep one EXPRESSION, and columns a QUERY for each column, and runs
it over each line of the FILEs, which is one JSON document; - is the standard input, which is
read where no FILE is named. Lines of blanks alone hold none. A line that is no document, a FILE
that can't be read, and a document that takes more steps than --limit says, or of which more comes
out than --max-nodes and --max-bytes say, end the run, unless --keep-going is given.
A refused query or expression is explained, and with --explain a line that is no document.

Example: printf '{\"a\":1}\\n{\"a\":2}\\n' | jp-lines eval '$.a'

Statuses: 0 done, 1 query refused, 2 usage, 3 some line refused,
4 want of memory, 5 open, read or write fault,
6 with --exit-status: done, and nothing selected";

/// `eval`.
pub(crate) const EVAL: CommandHelp = CommandHelp {
    about: "Writes each selected node's value",
    usage: "jp-lines eval [OPTIONS] <QUERY> [FILE]..",
    example: "Example: printf '[1]\\n[2]\\n' | jp-lines eval '$[0]'",
};

/// `paths`.
pub(crate) const PATHS: CommandHelp = CommandHelp {
    about: "Writes each selected node's path",
    usage: "jp-lines paths [OPTIONS] <QUERY> [FILE]..",
    example: "Example: printf '[1]\\n[2]\\n' | jp-lines paths --number '$[?@>1]'",
};

/// `both`.
pub(crate) const BOTH: CommandHelp = CommandHelp {
    about: "Writes each one's path, a tab and its value",
    usage: "jp-lines both [OPTIONS] <QUERY> [FILE]..",
    example: "Example: printf '[1]\\n[2]\\n' | jp-lines both --number '$.*'",
};

/// `count`.
pub(crate) const COUNT: CommandHelp = CommandHelp {
    about: "Writes how many nodes each document has selected",
    usage: "jp-lines count [OPTIONS] <QUERY> [FILE]..",
    example: "Example: printf '[1]\\n[2,3]\\n' | jp-lines count '$.*'",
};

/// `keep`.
pub(crate) const KEEP: CommandHelp = CommandHelp {
    about: "Writes each line whose document makes the expression true",
    usage: "jp-lines keep [OPTIONS] <EXPRESSION> [FILE]..",
    example: "Example: printf '{\"a\":1}\\n{\"a\":2}\\n' | jp-lines keep '@.a > 1'",
};

/// `columns`.
pub(crate) const COLUMNS: CommandHelp = CommandHelp {
    about: "Writes a row for each document, with a cell for each query",
    usage: "jp-lines columns [OPTIONS] <QUERY>.. [FILE]..",
    example: "Example: printf '{\"a\":1,\"b\":\"x\"}\\n' | jp-lines columns --raw '$.a' '$.b'",
};
