//! Prefixes of accepted queries and of documents.

use jp_check::{Profile, read_query};
use jp_document::DocumentFault;
use jp_held::Document;
use jp_query::{Refusal, RefusalKind};
use std::alloc::Global;
use std::process::Abort;

/// Each prefix of a query that is accepted in that profile is accepted, or refused where it ends.
pub fn are_accepted_or_end(rt: &impl Abort, alloc: Global, query: &str, profile: Profile) {
    for end in 0..query.len() {
        let Some(prefix) = query.get(..end) else {
            continue;
        };
        let refusal = read_query(alloc, prefix, profile).err();
        assert!(rt;
            refusal.is_none() || refusal == Some(syntax_at(end)),
            "{prefix}"
        );
    }
}

/// The refusal of a text that no query begins with, at that byte.
fn syntax_at(place: usize) -> Refusal {
    Refusal {
        kind: RefusalKind::Syntax,
        place,
    }
}

/// No proper prefix of a list or an object is a document, wherever it is cut between bytes.
pub fn are_no_documents(rt: &impl Abort, alloc: Global, document: &str) {
    if !document.starts_with('[') && !document.starts_with('{') {
        return;
    }
    for end in 0..document.len() {
        let Some(prefix) = document.as_bytes().get(..end) else {
            continue;
        };
        let read = Document::read(alloc, prefix);
        assert!(rt;
            read.err() == Some(DocumentFault::NotJson),
            "{document} to {end}"
        );
    }
}
