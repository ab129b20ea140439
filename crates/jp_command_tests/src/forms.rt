//! The two forms in which a document is held: tables, which `run_line` reads it into, and its tree.

use super::rows::{Answer, Asked, expected};
use jp_check::read_query;
use jp_document::{DocumentFault, path_text};
use jp_evaluate::evaluate;
use jp_flat::flat_document;
use jp_held::Document;
use jp_lent::value_text;
use jp_match::Marks;
use std::alloc::Global;
use std::process::Abort;
use std::test::Fail;

/// Asserts that a row's document has tables and a tree, of which the tree gives the row's lines too,
/// or that it has neither, and is refused as the row says. Rows without a document are passed over.
pub fn assert_each_has_the_answer(
    rt: &impl Abort,
    alloc: Global,
    asked: Asked<'_>,
    answer: Answer,
) -> Result<(), Fail> {
    let bytes = asked.0.as_bytes();
    match answer {
        Answer::Nodes(_) => {
            assert!(rt; flat_document(alloc, bytes).is_some(), "{}", asked.0);
            assert_tree_gives(rt, alloc, asked, expected(alloc, &answer)?.1.as_str())
        }
        Answer::Document(name) => {
            assert!(rt; flat_document(alloc, bytes).is_none(), "{}", asked.0);
            let fault = Document::read(alloc, bytes).err();
            assert_eq!(rt; fault.as_ref().map(name_of), Some(name), "{}", asked.0);
            Ok(())
        }
        Answer::Canonical(_) | Answer::Query(_) => Ok(()),
    }
}

/// Asserts what a query selects in a document's tree, a line a node.
fn assert_tree_gives(
    rt: &impl Abort,
    alloc: Global,
    (document, query, profile): Asked<'_>,
    lines: &str,
) -> Result<(), Fail> {
    let document = Document::read(alloc, document.as_bytes())?;
    let checked = read_query(alloc, query, profile).ok().ok_or("refused")?;
    let mut given = String::new(alloc);
    for node in &evaluate(alloc, &document, &checked, &Marks)? {
        let path = path_text(alloc, node.location())?;
        let value = value_text(alloc, node.value())?;
        write!(given, "{path}\t{value}\n")?;
    }
    assert_eq!(rt; given.as_str(), lines, "{query}");
    Ok(())
}

/// The name of a fault, as the program writes it.
fn name_of(fault: &DocumentFault) -> &'static str {
    match fault {
        DocumentFault::NotJson => "NotJson",
        DocumentFault::NotWhole(_) => "NotWhole",
        DocumentFault::ListTooLong => "ListTooLong",
        DocumentFault::NoMemory => "NoMemory",
        DocumentFault::NumberRange(_) => "NumberRange",
    }
}
