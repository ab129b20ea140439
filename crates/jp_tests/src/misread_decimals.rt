//! Bytes that are no documents of exact decimals, with the reason and the place of each.

use jp_decimal::Numbers;
use jp_json::{JsonReason, find_misreading};
use std::test::Fail;

/// Bytes, the place as it is told, and the reason.
const ROWS: [(&[u8], &str, JsonReason); 8] = [
    (
        b"1e1000001",
        "line 1, column 1, at $",
        JsonReason::BeyondDecimal,
    ),
    (
        b"[0.5,\n -1e-1000001,1e9999999]",
        "line 2, column 2, at $[1]",
        JsonReason::BeyondDecimal,
    ),
    (
        b"{\"b\":1e1000001,\"a\":[123456789012345678901234567890123456789]}",
        "line 1, column 21, at $['a'][0]",
        JsonReason::BeyondDecimal,
    ),
    (
        b"{\"a\":2,\"a\":1e1000001}",
        "line 1, column 12, at $['a']",
        JsonReason::BeyondDecimal,
    ),
    (b"[1.5,]", "line 1, column 6", JsonReason::TrailingComma),
    (b"[1e400 2]", "line 1, column 8", JsonReason::MissingComma),
    (
        b"[1e400,\"a\\ud800\"]",
        "line 1, column 10",
        JsonReason::LoneSurrogate,
    ),
    (b"[1e1000001", "line 1, column 11", JsonReason::EndInArray),
];

#[test]
fn each_has_its_reason_and_place(rt: HostRuntime) -> Result<(), Fail> {
    for (bytes, place, reason) in ROWS {
        let told = find_misreading(rt.alloc(), bytes, Numbers::Decimal)?.ok_or("a document")?;
        let sentence = reason.sentence();
        let wanted = format!(in rt.alloc(); "{place}: {sentence}")?;
        assert_eq!(rt; format!(in rt.alloc(); "{told}")?.as_str(), wanted.as_str());
        assert_eq!(rt; told.reason, reason);
    }
    Ok(())
}

#[test]
fn documents_have_none(rt: HostRuntime) -> Result<(), Fail> {
    let texts = ["1.5", "[1e400,-0]", "-0.0", "18446744073709551616"];
    for text in texts {
        let told = find_misreading(rt.alloc(), text.as_bytes(), Numbers::Decimal)?;
        assert!(rt; told.is_none(), "{text}");
    }
    Ok(())
}
