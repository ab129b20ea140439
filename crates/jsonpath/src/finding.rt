//! A query over a document, in one call.

ghost use Rattle.std.specs.Prelude.{◌≡◌, ◌≤◌, ◌+◌, ◌++◌, ◌∷◌, [], IfErr, IfOk, OnOk};
ghost use Rattle.std.specs.Prelude.{false, length, map, option_map, option_to_list, string_bytes};
ghost use Rattle.std.specs.Str.{chars};
ghost use Rattle.jp_check.specs.Accepted.{IsAcceptedAs};
ghost use Rattle.jp_held.specs.Held.{document_of};
ghost use Rattle.jp_document.specs.Location.{owned_step, step_of};
ghost use Rattle.jp_document.specs.Text.{text_of};
ghost use Rattle.jp_document.specs.Node.{node_at, node_of};
ghost use Rattle.jp_evaluate.specs.Lent.{has_failed, rest_of, steps_of};
ghost use Rattle.jp_evaluate.specs.Nodelist.{nodelist};
ghost use Rattle.jp_evaluate.specs.Plan.{nodes_read};
ghost use Rattle.jp_evaluate.specs.Stopping.{StopsSpent};
ghost use Rattle.jp_flat.specs.FlatValue.{lent_flat};
ghost use Rattle.jp_limit.specs.OutputLimit.{StaysWithin};
ghost use Rattle.jp_select.specs.Steps.{Counts, IsSpent, Takes};
ghost use Rattle.jp_tree.specs.Views.{query_of};
ghost use Rattle.jsonpath.specs.Find.{Finds, FindsNot, FindsNotWithin, IsGivenUp, RefusesOrRanOut, Selects};
ghost use Rattle.jsonpath.specs.Find.{bytes_of, match_texts, texts_size, texts_of};
ghost use Rattle.jsonpath.specs.Private.Faults.{IsPast};
ghost use Rattle.jsonpath.specs.declared.fault.FindFault.TheVariants.{StepsUsedUp};

use crate::fault::FindFault;
use crate::size::check_size;
use jp_check::{Checked, Profile, read_query};
use jp_decimal::Numbers;
use jp_document::{Node, OwnedStep, Step, path_text};
use jp_evaluate::{LentNodes, Patterns, Plan, evaluate, lent_nodes_with};
use jp_flat::FlatValue;
use jp_held::{Document, Excerpt, push_location};
use jp_lent::value_text;
use jp_limit::OutputLimit;
use jp_match::Marks;
use jp_query::{Refusal, RefusalKind};
use jp_select::Steps;
use std::alloc::{AllocError, Global};

/// A selected node, as texts that borrow nothing.
#[derive(Debug, PartialEq, Drop)]
pub struct Match {
    /// The normalized path (RFC 9535 section 2.7).
    pub path: String,
    /// The compact text of the value.
    pub value: String,
}

/// The nodes that the query that `text` is in that profile selects in the document that `bytes` are,
/// in the nodelist's order (RFC 9535 section 2.1.2); a node that is selected twice stands there
/// twice.
///
/// The query is read first. `Query` says how it is refused, `DocumentTooLarge` that the bytes are
/// `TOO_MANY_BYTES` or more, and `Document` why fewer bytes are no document. `NoMemory` says nothing
/// of either.
pub fn find(
    alloc: Global,
    bytes: &[u8],
    text: &str,
    profile: Profile,
) -> Result<Vec<Match>, FindFault>
    ensures found { IfOk result (λ found.
        Finds profile text.now bytes.now (map match_texts found.items)) }
    ensures fault { IfErr result (FindsNot profile text.now bytes.now) }
{
    let mut steps = Steps::unlimited();
    find_within(alloc, bytes, text, profile, &mut steps, OutputLimit::none())
}

/// What `find` gives, in the steps that may still be made, from which it takes those that it makes:
/// `StepsUsedUp` where the evaluation needs more. Each node that is found takes a step at least.
/// `TooManyNodes` says that there are more nodes than `limit` says, and `TooManyBytes` that their paths and
/// values have more bytes together: of the two what is found first, node by node. After each nothing is given.
///
/// Reading the query and the document makes no steps, and so they may be refused whatever the limit.
pub fn find_within(
    alloc: Global,
    bytes: &[u8],
    text: &str,
    profile: Profile,
    steps: &mut Steps,
    limit: OutputLimit,
) -> Result<Vec<Match>, FindFault>
    ensures found { IfOk result (λ found.
        Finds profile text.now bytes.now (map match_texts found.items)) }
    ensures within { IfOk result (λ found.
        StaysWithin limit (length found.items) (bytes_of (map match_texts found.items))) }
    ensures fault { IfErr result (FindsNotWithin limit profile text.now bytes.now) }
    ensures takes { Takes steps.old steps.new }
    ensures stopped { IfErr result (λ fault. fault ≡ StepsUsedUp → IsSpent steps.new) }
    ensures few { IfOk result (λ found. Counts (length found.items) steps.old steps.new) }
{
    let query = asked(alloc, text, profile)?;
    check_size(bytes)?;
    let plan = Plan::of(alloc, &query)?;
    let read = plan.read(alloc, bytes, Numbers::Whole)?;
    matches_read(alloc, limit, &query, &read, steps)
}

/// The texts of the nodes that a query has in what was read of a document for it.
fn matches_read(
    alloc: Global,
    limit: OutputLimit,
    query: &Checked,
    read: &Excerpt<'_, '_>,
    steps: &mut Steps,
) -> Result<Vec<Match>, FindFault>
    ensures found { IfOk result (λ found. map match_texts found.items
        ≡ map texts_of (nodes_read (query_of query.now.query) read.now)) }
    ensures within { IfOk result (λ found.
        StaysWithin limit (length found.items) (bytes_of (map match_texts found.items))) }
    ensures given_up { IfErr result (IsGivenUp limit
        (length (nodes_read (query_of query.now.query) read.now))
        (bytes_of (map texts_of (nodes_read (query_of query.now.query) read.now)))) }
    ensures takes { Takes steps.old steps.new }
    ensures stopped { IfErr result (λ fault. fault ≡ StepsUsedUp → IsSpent steps.new) }
    ensures few { IfOk result (λ found. Counts (length found.items) steps.old steps.new) }
{
    match read {
        Excerpt::Document(flat) => matches_below(alloc, limit, query, flat.value(), steps),
        Excerpt::Value(location, found) => {
            matches_at(alloc, limit, location, found.value(), steps)
        }
    }
}

/// The texts of the nodes that a query selects in a document.
fn matches_below(
    alloc: Global,
    limit: OutputLimit,
    query: &Checked,
    root: FlatValue<'_, '_>,
    steps: &mut Steps,
) -> Result<Vec<Match>, FindFault>
    ensures found { IfOk result (λ found. map match_texts found.items
        ≡ map texts_of (nodelist (query_of query.now.query) (lent_flat root.entry))) }
    ensures within { IfOk result (λ found.
        StaysWithin limit (length found.items) (bytes_of (map match_texts found.items))) }
    ensures given_up { IfErr result (IsGivenUp limit
        (length (nodelist (query_of query.now.query) (lent_flat root.entry)))
        (bytes_of (map texts_of (nodelist (query_of query.now.query) (lent_flat root.entry))))) }
    ensures takes { Takes steps.old steps.new }
    ensures stopped { IfErr result (λ fault. fault ≡ StepsUsedUp → IsSpent steps.new) }
    ensures few { IfOk result (λ found. Counts (length found.items) steps.old steps.new) }
{
    let patterns = Patterns::new(alloc);
    let mut nodes = lent_nodes_with(alloc, root, query, &Marks, patterns, *steps);
    let found = matches(alloc, limit, &mut nodes);
    let (_patterns, left) = nodes.into_parts();
    *steps = left;
    found
}

/// The texts of the node at a location with the value there, none where there is no value. The node takes a
/// step.
fn matches_at(
    alloc: Global,
    limit: OutputLimit,
    location: &[OwnedStep],
    value: Option<FlatValue<'_, '_>>,
    steps: &mut Steps,
) -> Result<Vec<Match>, FindFault>
    ensures found { IfOk result (λ found. map match_texts found.items
        ≡ map texts_of (map (node_at (map owned_step location.now))
        (option_to_list (option_map lent_flat value.entry)))) }
    ensures within { IfOk result (λ found.
        StaysWithin limit (length found.items) (bytes_of (map match_texts found.items))) }
    ensures given_up { IfErr result (IsGivenUp limit
        (length (map (node_at (map owned_step location.now))
        (option_to_list (option_map lent_flat value.entry))))
        (bytes_of (map texts_of (map (node_at (map owned_step location.now))
        (option_to_list (option_map lent_flat value.entry)))))) }
    ensures takes { Takes steps.old steps.new }
    ensures stopped { IfErr result (λ fault. fault ≡ StepsUsedUp → IsSpent steps.new) }
    ensures few { IfOk result (λ found. Counts (length found.items) steps.old steps.new) }
{
    let mut found = Vec::new(alloc);
    let Some(value) = value else {
        return Ok(found);
    };
    if steps.take().is_err() {
        return Err(FindFault::StepsUsedUp);
    }
    if limit.most_nodes() == 0 {
        return Err(FindFault::TooManyNodes);
    }
    let made = match_found(alloc, location, value)?;
    add_within(made, 0, limit.most_bytes(), &mut found)?;
    Ok(found)
}

/// The texts of the nodes that are still to come. Nodes are counted before their texts are made, and bytes
/// after that.
fn matches<'d: 'q, 'q, 't: 'd>(
    alloc: Global,
    limit: OutputLimit,
    nodes: &mut LentNodes<'d, 'q, FlatValue<'d, 't>, Marks>,
) -> Result<Vec<Match>, FindFault>
    requires { has_failed nodes.now ≡ false }
    ensures found { IfOk result (λ found. map match_texts found.items
        ≡ map texts_of (rest_of lent_flat nodes.old)) }
    ensures within { IfOk result (λ found.
        StaysWithin limit (length found.items) (bytes_of (map match_texts found.items))) }
    ensures given_up { IfErr result (IsGivenUp limit (length (rest_of lent_flat nodes.old))
        (bytes_of (map texts_of (rest_of lent_flat nodes.old)))) }
    ensures takes { Takes (steps_of nodes.old) (steps_of nodes.new) }
    ensures stopped { IfErr result (λ fault. fault ≡ StepsUsedUp → IsSpent (steps_of nodes.new)) }
    ensures few { IfOk result (λ found. Counts (length found.items) (steps_of nodes.old)
        (steps_of nodes.new)) }
{
    let most_nodes = limit.most_nodes();
    let most_bytes = limit.most_bytes();
    let mut location = Vec::new(alloc);
    let mut found = Vec::new(alloc);
    let mut size: u64 = 0;
    while let Some(next) = nodes.next_at(&mut location) {
        let value = next?;
        if found.len() as u64 >= most_nodes {
            return Err(FindFault::TooManyNodes);
        }
        size = push_match(alloc, &location, value, size, most_bytes, &mut found)?;
    }
    Ok(found)
}

/// Adds the texts of the node at this location with this value to those before, which have so many bytes, and
/// answers how many they have then. There may be `most`.
fn push_match(
    alloc: Global,
    location: &[Step<'_>],
    value: FlatValue<'_, '_>,
    size: u64,
    most: u64,
    found: &mut Vec<Match>,
) -> Result<u64, FindFault>
    ensures pushed { OnOk result (map match_texts found.new.items ≡ map match_texts found.old.items
        ++ texts_of (node_at (map step_of location.now) (lent_flat value.entry)) ∷ []) }
    ensures sum { IfOk result (λ sum. (sum ≡ size + texts_size (texts_of
        (node_at (map step_of location.now) (lent_flat value.entry)))) × (sum ≤ most)) }
    ensures beyond { IfErr result (IsPast size most (texts_size (texts_of
        (node_at (map step_of location.now) (lent_flat value.entry))))) }
{
    let made = match_at(alloc, location, value)?;
    add_within(made, size, most, found)
}

/// Adds a match to those before, which have so many bytes, and answers how many they have then. There may be
/// `most`.
fn add_within(made: Match, size: u64, most: u64, found: &mut Vec<Match>) -> Result<u64, FindFault>
    ensures pushed { OnOk result
        (map match_texts found.new.items ≡ map match_texts found.old.items ++ match_texts made ∷ []) }
    ensures sum { IfOk result (λ sum. (sum ≡ size + texts_size (match_texts made)) × (sum ≤ most)) }
    ensures beyond { IfErr result (IsPast size most (texts_size (match_texts made))) }
{
    let sum = size_with(size, &made, most)?;
    add(found, made)?;
    Ok(sum)
}

/// The texts of the node at this location with this value.
fn match_at(
    alloc: Global,
    location: &[Step<'_>],
    value: FlatValue<'_, '_>,
) -> Result<Match, AllocError>
    ensures { IfOk result (λ made. match_texts made
        ≡ texts_of (node_at (map step_of location.now) (lent_flat value.entry))) }
{
    let path = path_text(alloc, location)?;
    match_with(alloc, path, value)
}

/// The texts of the node that was found at this location with this value.
fn match_found(
    alloc: Global,
    location: &[OwnedStep],
    value: FlatValue<'_, '_>,
) -> Result<Match, AllocError>
    ensures { IfOk result (λ made. match_texts made
        ≡ texts_of (node_at (map owned_step location.now) (lent_flat value.entry))) }
{
    let mut path = String::new(alloc);
    push_location(&mut path, location)?;
    match_with(alloc, path, value)
}

/// The texts of a node with this path and this value.
fn match_with(alloc: Global, path: String, value: FlatValue<'_, '_>) -> Result<Match, AllocError>
    ensures { IfOk result (λ made. match_texts made
        ≡ (string_bytes path, text_of (lent_flat value.entry))) }
{
    let value = value_text(alloc, value)?;
    Ok(Match { path, value })
}

/// Adds a match.
fn add(found: &mut Vec<Match>, made: Match) -> Result<(), AllocError>
    ensures { OnOk result (found.new.items ≡ found.old.items ++ made ∷ []) }
{
    found.push(made)?;
    Ok(())
}

/// How many bytes so many and those of a match are, of which there may be `most`.
fn size_with(size: u64, made: &Match, most: u64) -> Result<u64, FindFault>
    ensures sum { IfOk result (λ sum. (sum ≡ size + texts_size (match_texts made.now)) × (sum ≤ most)) }
    ensures beyond { IfErr result (IsPast size most (texts_size (match_texts made.now))) }
{
    let with_path = size.checked_add(made.path.len() as u64).ok_or(AllocError)?;
    let sum = with_path
        .checked_add(made.value.len() as u64)
        .ok_or(AllocError)?;
    if sum <= most {
        Ok(sum)
    } else {
        Err(FindFault::TooManyBytes)
    }
}

/// The nodes that the query that `text` is in that profile selects in a document, in the nodelist's
/// order (RFC 9535 section 2.1.2); a node that is selected twice stands there twice. They borrow
/// from the document. A refusal says how the query is refused, or by the kind `NoMemory` at place 0 that
/// memory ran out.
pub fn find_nodes<'d>(
    alloc: Global,
    document: &'d Document,
    text: &str,
    profile: Profile,
) -> Result<Vec<Node<'d>>, Refusal>
    ensures found { IfOk result (λ found. Selects profile (chars text.now)
        (document_of document.now) (map node_of found.items)) }
    ensures refused { IfErr result (RefusesOrRanOut profile (chars text.now)) }
{
    let query = asked(alloc, text, profile)?;
    match evaluate(alloc, document, &query, &Marks) {
        Ok(found) => Ok(found),
        Err(_) => Err(Refusal {
            kind: RefusalKind::NoMemory,
            place: 0,
        }),
    }
}

/// The query that a text is in a profile.
fn asked(alloc: Global, text: &str, profile: Profile) -> Result<Checked, Refusal>
    ensures accepted { IfOk result
        (λ c. IsAcceptedAs profile (chars text.now) (query_of c.query)) }
    ensures refused { IfErr result (RefusesOrRanOut profile (chars text.now)) }
{
    read_query(alloc, text, profile)
}
