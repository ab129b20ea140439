//! A kept query that is asked.

ghost use Rattle.std.specs.Prelude.{◌≡◌, [], IfErr, IfOk, MatchResult, OnOk, length};
ghost use Rattle.std.specs.Prelude.{string_bytes};
ghost use Rattle.jp_c.specs.Asking.{IsNoAnswerOf, answer_of, nodes_asked};
ghost use Rattle.jp_c.specs.Limit.{MakesSteps, most_of, output_within};
ghost use Rattle.jp_c.specs.Outcome.{report_of, told_text};
ghost use Rattle.jp_c.specs.Private.Askers.{LendsText};
ghost use Rattle.jp_c.specs.declared.outcome.Outcome.TheVariants.{Fault, Text};
ghost use Rattle.jp_c.specs.Private.Spending.{Spends, steps_of_limit};
ghost use Rattle.jp_check.specs.Numbers.{numbers};
ghost use Rattle.jp_command.specs.Lines.{lines_of};
ghost use Rattle.jp_command.specs.Selecting.{nodes_behind};
ghost use Rattle.jp_document.specs.Exact.{IsDocumentIn};
ghost use Rattle.jp_document.specs.Value.{Value};
ghost use Rattle.jp_evaluate.specs.Plan.{nodes_read};
ghost use Rattle.jp_flat.specs.FlatValue.{lent_flat};
ghost use Rattle.jp_limit.specs.OutputLimit.{StaysWithin};
ghost use Rattle.jp_tree.specs.Views.{query_of};
ghost use Rattle.jsonpath.specs.Find.{IsGivenUp};
ghost use Rattle.jsonpath.specs.Size.{Fits};

use crate::given_up::given_up;
use crate::kept::Asker;
use crate::lent::{Lent, lend};
use crate::limit::{Limit, most};
use crate::memory::Memory;
use crate::outcome::{Answered, Report};
use crate::planned::Planned;
use jp_check::{Checked, Profile};
use jp_command::{Form, push_found, push_selected};
use jp_flat::FlatValue;
use jp_held::Excerpt;
use jp_select::Steps;
use jsonpath::{FindFault, check_size};
use std::alloc::{AllocError, Global};
use std::mem;

impl Asker {
    /// The query with its plan, and no other memory yet. The only error is that memory ran out.
    pub(crate) fn new(alloc: Global, query: Checked) -> Result<Asker, AllocError>
        ensures { IfOk result (λ a. a.query ≡ query) }
    {
        Ok(Asker {
            query: Planned::new(alloc, query)?,
            memory: Memory::new(alloc),
        })
    }

    /// The profile that the query is accepted in.
    pub(crate) fn profile(&self) -> Profile
        ensures { result ≡ self.now.query.profile }
    {
        self.query.query().profile()
    }

    /// Makes the memory's text the lines of the first nodes in the document that these bytes are with the numbers of
    /// the query's profile.
    pub(crate) fn ask(
        &mut self,
        alloc: Global,
        form: Form,
        from: u64,
        count: u64,
        document: &[u8],
        limit: Limit,
        steps: &mut Steps,
    ) -> Result<(), FindFault>
        ensures query { self.new.query ≡ self.old.query }
        ensures answer { OnOk result ((d : Value)
            × IsDocumentIn (numbers self.old.query.profile) document.now d × Fits document.now
            × (string_bytes self.new.memory.text
            ≡ answer_of from count form (query_of self.old.query.query) d)
            × StaysWithin (output_within limit)
            (length (nodes_asked from count (query_of self.old.query.query) d))
            (length (string_bytes self.new.memory.text))) }
        ensures fault { IfErr result (IsNoAnswerOf from count form self.old.query.profile
            (query_of self.old.query.query) document.now (output_within limit)) }
        ensures spends { Spends result steps.old steps.new }
    {
        let Asker { query, memory } = self;
        memory.text.clear();
        check_size(document)?;
        let room = memory.take_room(alloc);
        match query.read(alloc, room, document) {
            Ok(read) => {
                let checked = query.query();
                let asked = ask_read(
                    alloc, form, from, count, checked, &read, memory, limit, steps,
                );
                memory.room = read.into_room();
                asked
            }
            Err((room, fault)) => {
                memory.room = room;
                Err(FindFault::from(fault))
            }
        }
    }

    /// What `ask` puts into the text, of a document that was read.
    pub(crate) fn ask_value(
        &mut self,
        alloc: Global,
        form: Form,
        from: u64,
        count: u64,
        root: FlatValue<'_, '_>,
        limit: Limit,
        steps: &mut Steps,
    ) -> Result<(), FindFault>
        ensures query { self.new.query ≡ self.old.query }
        ensures answer { OnOk result (string_bytes self.new.memory.text
            ≡ answer_of from count form (query_of self.old.query.query) (lent_flat root.entry)) }
        ensures within { OnOk result (StaysWithin (output_within limit)
            (length (nodes_asked from count (query_of self.old.query.query) (lent_flat root.entry)))
            (length (string_bytes self.new.memory.text))) }
        ensures fault { IfErr result (IsGivenUp (output_within limit)
            (length (nodes_asked from count (query_of self.old.query.query) (lent_flat root.entry)))
            (length (answer_of from count form (query_of self.old.query.query)
            (lent_flat root.entry)))) }
        ensures spends { Spends result steps.old steps.new }
    {
        let Asker { query, memory } = self;
        memory.text.clear();
        walk(
            alloc,
            form,
            from,
            count,
            query.query(),
            root,
            memory,
            limit,
            steps,
        )
    }

    /// What is answered, which takes the memory's text, or the text where there is no answer.
    pub(crate) fn answered(
        &mut self,
        alloc: Global,
        limit: u64,
        left: Steps,
        answer: Result<(), FindFault>,
    ) -> (Answered, String)
        requires { Spends answer (steps_of_limit limit) left }
        ensures query { self.new.query ≡ self.old.query }
        ensures outcome { MatchResult answer (λ _. result.0.outcome ≡ Text self.old.memory.text)
            (λ fault. result.0.outcome ≡ Fault fault) }
        ensures makes { MakesSteps limit result.0.outcome result.0.steps }
    {
        let text = mem::replace(&mut self.memory.text, String::new(alloc));
        match answer {
            Ok(()) => (Answered::within(limit, left, Ok(text)), String::new(alloc)),
            Err(fault) => (Answered::within(limit, left, Err(fault)), text),
        }
    }

    /// The report of what is answered, and its text, which is kept, as it is lent. The memory of another
    /// text serves where there is none.
    pub(crate) fn tell(&mut self, answered: Answered, spare: String) -> (Lent, Report)
        ensures query { self.new.query ≡ self.old.query }
        ensures report { result.1 ≡ report_of answered.outcome answered.steps }
        ensures text { string_bytes self.new.memory.text ≡ told_text answered.outcome }
        ensures lends { LendsText self.new result.0 }
    {
        let report = answered.report();
        let (text, lent) = lend(answered.outcome.into_text(spare));
        self.memory.text = text;
        (lent, report)
    }
}

/// Puts into the text, which is empty, the lines of the first nodes that a query has in what was read of a
/// document for it.
fn ask_read(
    alloc: Global,
    form: Form,
    from: u64,
    count: u64,
    query: &Checked,
    read: &Excerpt<'_, '_>,
    memory: &mut Memory,
    limit: Limit,
    steps: &mut Steps,
) -> Result<(), FindFault>
    requires { string_bytes memory.now.text ≡ [] }
    ensures answer { OnOk result (string_bytes memory.new.text
        ≡ lines_of form (nodes_behind from (most_of count) (nodes_read (query_of query.now.query) read.now))) }
    ensures within { OnOk result (StaysWithin (output_within limit)
        (length (nodes_behind from (most_of count) (nodes_read (query_of query.now.query) read.now)))
        (length (string_bytes memory.new.text))) }
    ensures fault { IfErr result (IsGivenUp (output_within limit)
        (length (nodes_behind from (most_of count) (nodes_read (query_of query.now.query) read.now)))
        (length (lines_of form (nodes_behind from (most_of count)
        (nodes_read (query_of query.now.query) read.now))))) }
    ensures spends { Spends result steps.old steps.new }
{
    match read {
        Excerpt::Document(flat) => {
            let root = flat.value();
            walk(alloc, form, from, count, query, root, memory, limit, steps)
        }
        Excerpt::Value(_, _) if from > 0 => Ok(()),
        Excerpt::Value(location, found) => {
            push_found(form, location, found.value(), &mut memory.text)?;
            limit.check_bytes(memory.text.as_str())
        }
    }
}

/// Walks through a document that was read, and puts what is asked for into the text, which is empty.
pub(crate) fn walk(
    alloc: Global,
    form: Form,
    from: u64,
    count: u64,
    query: &Checked,
    root: FlatValue<'_, '_>,
    memory: &mut Memory,
    limit: Limit,
    steps: &mut Steps,
) -> Result<(), FindFault>
    requires { string_bytes memory.now.text ≡ [] }
    ensures answer { OnOk result (string_bytes memory.new.text
        ≡ answer_of from count form (query_of query.now.query) (lent_flat root.entry)) }
    ensures within { OnOk result (StaysWithin (output_within limit)
        (length (nodes_asked from count (query_of query.now.query) (lent_flat root.entry)))
        (length (string_bytes memory.new.text))) }
    ensures fault { IfErr result (IsGivenUp (output_within limit)
        (length (nodes_asked from count (query_of query.now.query) (lent_flat root.entry)))
        (length (answer_of from count form (query_of query.now.query) (lent_flat root.entry)))) }
    ensures spends { Spends result steps.old steps.new }
{
    let mut walk = memory.walking.open(alloc)?;
    let pushed = push_selected(
        alloc,
        form,
        from,
        most(count),
        limit.output(),
        root,
        query,
        &mut walk.rooms,
        steps,
        &mut memory.text,
    );
    memory.walking.close(walk);
    match pushed {
        Ok(()) => Ok(()),
        Err(fault) => Err(given_up(fault)),
    }
}
