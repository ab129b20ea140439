//! Values that are written raw.

use jp_check::Profile::Standard;
use jp_command::{Device, Form, run_eval};

/// Strings with quotes, escapes and a line break, an empty one, one of digits, and values of other kinds.
const DOCUMENT: &str = r#"["a\"b\\","c\nd\t\u00e9","","7",7,null,["x"],{"k":"v"}]"#;

/// A form, a query, and what is written.
const ROWS: &[(Form, &str, &str)] = &[
    (
        Form::RAW_VALUES,
        "$[*]",
        "a\"b\\\nc\nd\té\n\n7\n7\nnull\n[\"x\"]\n{\"k\":\"v\"}\n",
    ),
    (
        Form::RAW_BOTH,
        "$[1,3,6]",
        "$[1]\tc\nd\té\n$[3]\t7\n$[6]\t[\"x\"]\n",
    ),
    (Form::RAW_BOTH, "$[6:].*", "$[6][0]\tx\n$[7]['k']\tv\n"),
    // queries that name a location
    (Form::RAW_VALUES, "$[0]", "a\"b\\\n"),
    (Form::RAW_BOTH, "$[7].k", "$[7]['k']\tv\n"),
    (Form::RAW_VALUES, "$[6]", "[\"x\"]\n"),
];

#[test]
fn strings_are_written_by_their_characters(rt: HostRuntime) {
    for &(form, query, text) in ROWS {
        let mut written = Vec::new(rt.alloc());
        let run = run_eval(
            rt.alloc(),
            query,
            Standard,
            form,
            &mut Device::new(DOCUMENT.as_bytes()),
            &mut Device::new(&mut written),
        );
        assert_eq!(rt;
            (run, written.as_slice()),
            (Ok(()), text.as_bytes()),
            "{query}"
        );
    }
}
