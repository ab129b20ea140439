//! Why nothing is found.

ghost use Rattle.std.specs.Prelude.{◌≡◌};
ghost use Rattle.jsonpath.specs.declared.fault.FindFault.TheVariants.{NoMemory};
ghost use Rattle.jsonpath.specs.Private.Faults.{fault_of_document, fault_of_evaluation, fault_of_refusal};

use jp_document::DocumentFault;
use jp_evaluate::EvaluationFault;
use jp_query::{Refusal, RefusalKind};
use std::alloc::AllocError;
use thiserror::Error;

/// Why a query over a document has no answer.
#[derive(Debug, PartialEq, Drop, Error)]
pub enum FindFault {
    /// The query is refused; the document was not read.
    #[error("query refused: {0}")]
    Query(Refusal),
    /// The bytes are no document.
    #[error("document refused: {0}")]
    Document(DocumentFault),
    /// The bytes are `TOO_MANY_BYTES` or more; they were not read.
    #[error("document refused: DocumentTooLarge")]
    DocumentTooLarge,
    /// Memory ran out.
    #[error("want of memory")]
    NoMemory,
    /// The steps that the caller allowed are used up. Only calls that are given a limit say so, or one of the
    /// next two.
    #[error("steps used up")]
    StepsUsedUp,
    /// There are more nodes than the caller allowed.
    #[error("too many nodes")]
    TooManyNodes,
    /// What is written of the nodes has more bytes than the caller allowed.
    #[error("too many bytes")]
    TooManyBytes,
}

impl From<AllocError> for FindFault {
    ghost from_gives = { λ _ fault. fault ≡ NoMemory };

    fn from(_error: AllocError) -> FindFault {
        FindFault::NoMemory
    }
}

impl From<Refusal> for FindFault {
    ghost from_gives = { λ refusal fault. fault ≡ fault_of_refusal refusal };

    fn from(refusal: Refusal) -> FindFault {
        match refusal.kind {
            RefusalKind::NoMemory => FindFault::NoMemory,
            _ => FindFault::Query(refusal),
        }
    }
}

impl From<DocumentFault> for FindFault {
    ghost from_gives = { λ fault given. given ≡ fault_of_document fault };

    fn from(fault: DocumentFault) -> FindFault {
        match fault {
            DocumentFault::NoMemory => FindFault::NoMemory,
            fault => FindFault::Document(fault),
        }
    }
}

impl From<EvaluationFault> for FindFault {
    ghost from_gives = { λ fault given. given ≡ fault_of_evaluation fault };

    fn from(fault: EvaluationFault) -> FindFault {
        match fault {
            EvaluationFault::NoMemory => FindFault::NoMemory,
            EvaluationFault::StepsUsedUp => FindFault::StepsUsedUp,
        }
    }
}
