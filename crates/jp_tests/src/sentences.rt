//! The engine's sentences by their reasons. They stand here alone: the other tests ask the engine for the sentence
//! of a reason, and `.ci/rows` takes those of bindings/rows.jsonl from here.

mod documents;
mod queries;

use jp_explain::Surroundings::{Library, Shell};

#[test]
fn each_reason_of_a_document_has_its_sentence(rt: HostRuntime) {
    for (reason, sentence) in documents::ROWS {
        assert_eq!(rt; reason.sentence(), *sentence);
    }
}

#[test]
fn each_reason_of_a_query_has_its_sentence(rt: HostRuntime) {
    for (reason, sentence) in queries::ROWS {
        assert_eq!(rt; reason.sentence(Library), *sentence);
        assert_eq!(rt; reason.sentence(Shell), *sentence);
    }
    for (reason, in_a_library, in_a_shell) in queries::BY_SURROUNDINGS {
        assert_eq!(rt; reason.sentence(Library), *in_a_library);
        assert_eq!(rt; reason.sentence(Shell), *in_a_shell);
    }
}
