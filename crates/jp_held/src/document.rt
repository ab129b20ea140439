//! Documents: a value with its invariant.

ghost use Rattle.std.specs.Prelude.{◌≡◌, map, option_map, IfOk, IfErr};
ghost use Rattle.jp_document.specs.Value.{IsDocumentValue, value_of};

use jp_decimal::Numbers;
use jp_document::{DocumentFault, DocumentValue, Json, Node, OwnedLocation, OwnedStep, Step};
use jp_exact::read_value;
use jp_flat::{flat_document, is_no_json};
use jp_lent::json_of;
use std::alloc::Global;

/// A JSON document: whole numbers from -(2^63) to (2^64)-1, or decimals where they are taken, texts in UTF-8, member names that are
/// texts and strictly rise by their bytes, lists of at most (2^53)-1 items.
#[derive(Drop)]
pub struct Document {
    json: Json,
    ghost sound: { IsDocumentValue (value_of json) },
}

impl Document {
    ghost use Rattle.jp_document.specs.Document.{IsDocument, IsDocumentFault};
    ghost use Rattle.jp_document.specs.Exact.{IsDocumentIn};
    ghost use Rattle.jp_exact.specs.Defects.{IsDocumentFaultIn};
    ghost use Rattle.jp_held.specs.Held.{document_of};
    ghost use Rattle.jp_document.specs.DocumentValue.{lent_value};
    ghost use Rattle.jp_document.specs.Location.{owned_step, step_of, value_at};
    ghost use Rattle.jp_document.specs.Node.{StandsIn, node_of, root_of};

    /// The document that these bytes are. Refused are: bytes that `serde_json` reads no value from,
    /// bytes that are no UTF-8 and deeper nesting than 127 levels among them (`NotJson`); a number
    /// of that value that is not a whole one of 64 bits (`NotWhole`, with the path of the first in
    /// document order); where there is none, a list of more than (2^53)-1 items (`ListTooLong`).
    /// `NoMemory` says nothing of the bytes.
    pub fn read(alloc: Global, bytes: &[u8]) -> Result<Document, DocumentFault>
        ensures ok { IfOk result (λ d. IsDocument bytes.now (document_of d)) }
        ensures fault { IfErr result (IsDocumentFault bytes.now) }
    {
        match flat_document(alloc, bytes) {
            Some(flat) => Ok(Document {
                json: json_of(alloc, flat.value())?,
            }),
            None => Document::parsed(alloc, bytes, Numbers::Whole),
        }
    }

    /// The document with such numbers that a tree is made of, which `serde_json` reads from these bytes, or
    /// `jp_exact` where numbers are decimals.
    pub(crate) fn parsed(
        alloc: Global,
        bytes: &[u8],
        numbers: Numbers,
    ) -> Result<Document, DocumentFault>
        ensures ok { IfOk result (λ d. IsDocumentIn numbers bytes.now (document_of d)) }
        ensures fault { IfErr result (IsDocumentFaultIn numbers bytes.now) }
    {
        // The tree that it reads into takes many times what these bytes do.
        if is_no_json(alloc, bytes) {
            return Err(DocumentFault::NotJson);
        }
        let json = read_value(alloc, bytes, numbers)?;
        Ok(Document { json })
    }

    /// The document's value.
    pub fn json(&self) -> &Json
        ensures value { value_of result.now ≡ document_of self.now }
        ensures sound { IsDocumentValue (document_of self.now) }
    {
        &self.json
    }

    /// The document's value, to go on from.
    pub fn value(&self) -> DocumentValue<'_>
        ensures { lent_value result ≡ document_of self.now }
    {
        DocumentValue::of(self.json())
    }

    /// The root, whose location is empty. It takes no memory: the allocator is for the nodes below
    /// it.
    pub fn root(&self, alloc: Global) -> Node<'_>
        ensures root { node_of result ≡ root_of (document_of self.now) }
        ensures stands { StandsIn (document_of self.now) (node_of result) }
    {
        Node::of(Vec::new(alloc), self.value())
    }

    /// The value at a location, None where there is none (RFC 9535 section 1.1).
    pub fn at(&self, location: &[Step]) -> Option<&Json>
        ensures { option_map (λ j. value_of j.now) result
            ≡ value_at (document_of self.now) (map step_of location.now) }
    {
        let mut value = self.value();
        for step in location {
            value = value.at_step(*step)?;
        }
        Some(value.json())
    }

    /// The value at a location that borrows nothing, None where there is none.
    pub fn find(&self, location: &OwnedLocation) -> Option<&Json>
        ensures { option_map (λ j. value_of j.now) result
            ≡ value_at (document_of self.now) location.now }
    {
        let value = self.value_at(location.steps())?;
        Some(value.json())
    }

    /// The value at the location of these steps, to go on from; None where there is none.
    pub(crate) fn value_at(&self, steps: &[OwnedStep]) -> Option<DocumentValue<'_>>
        ensures { option_map lent_value result
            ≡ value_at (document_of self.now) (map owned_step steps.now) }
    {
        let mut found = self.value();
        for step in steps {
            found = found.at_step(step.as_step())?;
        }
        Some(found)
    }
}
