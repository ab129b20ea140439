//! The headline, and what the program does from its words to its status, each as the contract of a
//! function that only calls the laws below it.

ghost use Rattle.jp_check.specs.declared.profile.Profile.{Profile};
ghost use Rattle.jp_command.specs.Headline.{Headline};
ghost use Rattle.jp_command.specs.Program.{Program};

use crate::device::{Output, Source, Writer};
use jp_canon::laws::canon_tells_apart;
use jp_check::laws::{
    decimal_is_extended, fault_at_its_component, one_answer, standard_is_extended, whole_is_decimal,
};
use jp_document::laws::{children_are_exact, document_or_defect, paths_differ};
use jp_evaluate::laws::{path_selects_its_node, selects_nodes_alone};
use jp_exact::laws::exact_or_defect;
use jp_flat::laws::exact_documents;
use jp_iregexp::laws::tested_matches;
use jp_query::laws::one_refusal;

/// In each profile, running out of memory and failing streams aside: exactly the documents and
/// queries of docs/QUERIES.md are accepted; for an accepted pair the nodelist is the one of RFC
/// 9535's definitions, of nodes of the document alone, and the members of an object come in the order
/// of their names' bytes; two nodes of a document have equal normalized paths exactly if they are the
/// same node, and each path read as a query selects that node alone; two accepted queries have equal
/// canonical texts exactly if their trees are equal; what is refused is refused for what it is, a
/// query at its place.
pub fn headline<R: Source, W: Writer>()
    ensures { (profile : Profile)
        → Headline profile R.remaining R.has_failed R.read_gives W.contents W.has_failed }
{
    document_or_defect();
    exact_or_defect();
    exact_documents();
    one_answer();
    children_are_exact();
    paths_differ();
    path_selects_its_node();
    selects_nodes_alone();
    tested_matches();
    standard_is_extended();
    decimal_is_extended();
    whole_is_decimal();
    canon_tells_apart();
    one_refusal();
    fault_at_its_component();
}

/// What each run of the program does, as `run_line` promises it: by what its words ask for, what is
/// written, what is told of a fault, and the status from 0 to 6; and in each profile the headline.
pub fn program<R: Source, W: Output, E: Writer>()
    ensures { Program R.remaining R.has_failed R.read_gives W.contents W.has_failed W.write_takes
        W.holds_back E.contents }
{
    headline::<R, W>();
}
