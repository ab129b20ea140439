//! What is told of words that are no command, but for what help says.

use super::rows::assert_ended;
use std::test::Fail;

/// Words with a flag that there is none of, and what is told of them. No tip says that the flag might be a query.
const UNKNOWN: &[(&[&str], &str)] = &[
    (
        &["jp", "paths", "--raw", "$"],
        "error: unexpected argument '--raw' found\n\n\
        Usage: jp paths [OPTIONS] <QUERY> < FILE\n\n\
        For more information, try '--help'.\n",
    ),
    (
        &["jp", "check", "$", "--first"],
        "error: unexpected argument '--first' found\n\n\
        Usage: jp check [OPTIONS] <QUERY>\n\n\
        For more information, try '--help'.\n",
    ),
    (
        &["jp", "canon", "--exit-status", "$"],
        "error: unexpected argument '--exit-status' found\n\n\
        Usage: jp canon [OPTIONS] <QUERY>\n\n\
        For more information, try '--help'.\n",
    ),
    (
        &["jp", "eval", "--explian", "$"],
        "error: unexpected argument '--explian' found\n\n  \
        tip: a similar argument exists: '--explain'\n\n\
        Usage: jp eval [OPTIONS] <QUERY> < FILE\n\n\
        For more information, try '--help'.\n",
    ),
    (
        &["jp", "eval", "-r", "$"],
        "error: unexpected argument '-r' found\n\n  \
        tip: to pass '-r' as a value, use '-- -r'\n\n\
        Usage: jp eval [OPTIONS] <QUERY> < FILE\n\n\
        For more information, try '--help'.\n",
    ),
];

#[test]
fn no_tip_takes_a_flag_for_a_query(rt: HostRuntime) -> Result<(), Fail> {
    for (line, told) in UNKNOWN {
        assert_ended(&rt, rt.alloc(), line, b"".as_slice(), (2, "", *told))?;
    }
    Ok(())
}
