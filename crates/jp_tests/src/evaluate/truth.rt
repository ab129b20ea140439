//! The truth of filters' expressions over whole documents.

use jp_check::{Profile, read_filter};
use jp_evaluate::{EvaluationFault, Patterns, holds_of};
use jp_held::Document;
use jp_match::Marks;
use jp_select::Steps;
use std::alloc::Global;
use std::test::Fail;

const RECORD: &[u8] =
    br#"{"level":"error","status":502,"tags":["a","b"],"user":{"id":7},"size":null}"#;

/// The truth of an expression over a document, with the steps that may be made and the patterns.
fn truth(
    alloc: Global,
    bytes: &[u8],
    text: &str,
    patterns: &mut Patterns,
    mut steps: Steps,
) -> Result<Result<bool, EvaluationFault>, Fail> {
    let filter = read_filter(alloc, text, Profile::Extended)
        .ok()
        .ok_or("refused")?;
    let document = Document::read(alloc, bytes)?;
    Ok(holds_of(
        alloc,
        document.value(),
        &filter,
        &Marks,
        patterns,
        &mut steps,
    ))
}

#[test]
fn the_document_is_the_current_node_and_the_root(rt: HostRuntime) -> Result<(), Fail> {
    let alloc = rt.alloc();
    let mut patterns = Patterns::new(alloc);
    for (text, holds) in [
        ("@.level=='error' && @.status>=500", true),
        ("@.level=='error' && @.status<500", false),
        ("@.status!=502 || @.user.id<=7", true),
        ("!@.absent", true),
        ("!(@.size || @.absent)", false),
        ("@.absent==$.absent", true),
        ("@.absent<1", false),
        ("@.size==null", true),
        ("@.tags[?@=='b']", true),
        ("@.tags[?@==$.level]", false),
        ("count(@.tags[*])==2", true),
        ("length(@.level)>5", false),
        ("match(@.level,'e.*')", true),
        ("match(@.level,'rr')", false),
        ("search(@.level,'rr')", true),
        ("value($..id)==7", true),
        ("$.status==@.status", true),
        ("distinct(@['tags','tags'])", true),
    ] {
        let answer = truth(alloc, RECORD, text, &mut patterns, Steps::unlimited())?;
        assert!(rt; answer == Ok(holds), "{text}");
    }
    for (bytes, text, holds) in [
        (&b"1"[..], "@==1", true),
        (b"[2,1]", "@[1]==1 && @[-2]==2", true),
        (b"\"a\"", "@!='a'", false),
    ] {
        let answer = truth(alloc, bytes, text, &mut patterns, Steps::unlimited())?;
        assert!(rt; answer == Ok(holds), "{text}");
    }
    Ok(())
}

#[test]
fn steps_may_be_used_up(rt: HostRuntime) -> Result<(), Fail> {
    let alloc = rt.alloc();
    let mut patterns = Patterns::new(alloc);
    let answer = truth(alloc, RECORD, "@..id", &mut patterns, Steps::at_most(1))?;
    assert!(rt; answer == Err(EvaluationFault::StepsUsedUp));
    Ok(())
}
