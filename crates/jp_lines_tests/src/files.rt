//! The inputs of a process.

use jp_command::Source;
use jp_lines::{Inputs, Opener, Unopened};
use std::process::Abort;

#[test]
fn opens_files_and_the_standard_input(rt: HostRuntime) {
    let mut inputs = Opener::new(&rt, b"[1]".as_slice());
    let mut bytes = [0; 8];
    match inputs.open("-") {
        Ok(mut input) => assert_eq!(&rt; input.read(&mut bytes), Ok(3)),
        Err(_) => rt.panic("the standard input"),
    }
    assert!(&rt; bytes.starts_with(b"[1]"));
    // A file of no bytes, and a folder, of which no bytes can be read.
    match inputs.open("/dev/null") {
        Ok(mut input) => assert_eq!(&rt; input.read(&mut bytes), Ok(0)),
        Err(_) => rt.panic("a file"),
    }
    match inputs.open("/") {
        Ok(mut input) => assert!(&rt; input.read(&mut bytes).is_err()),
        Err(_) => rt.panic("a folder"),
    }
    assert_eq!(&rt;
        inputs.open("/none/of/this/name").err(),
        Some(Unopened::Missing)
    );
    assert_eq!(&rt; inputs.open("/dev/null/name").err(), Some(Unopened::Failed));
}
