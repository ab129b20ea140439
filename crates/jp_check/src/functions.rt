//! The functions of each profile and their types (RFC 9535 sections 2.4.1 and 2.4.4 to 2.4.8).

ghost use Rattle.std.specs.Prelude.{◌≡◌, option_map, string_bytes};
ghost use Rattle.std.specs.Str.{chars};
ghost use Rattle.jp_tree.specs.Views.{call_of};
ghost use Rattle.jp_check.specs.Functions.{function_named, signature, signature_named};
ghost use Rattle.jp_check.specs.Private.Calls.{function_within, signature_of, wanted_of_call};
ghost use Rattle.jp_check.specs.Types.{fits};

use crate::functions::DataType::{Logical, Nodes, Value};
use crate::profile::Profile;
use jp_tree::{Call, Function, FunctionName};

/// The type of a parameter or of a result (RFC 9535 section 2.4.1).
#[derive(Debug, Clone, Copy, PartialEq, Eq)]
pub(crate) enum DataType {
    /// A value, or Nothing.
    Value,
    /// True or false.
    Logical,
    /// A list of nodes.
    Nodes,
}

/// The types of a function's parameters, in order, and of what it answers.
#[derive(Debug, Clone, Copy)]
pub(crate) struct Signature {
    pub(crate) parameters: &'static [DataType],
    pub(crate) answer: DataType,
}

impl Profile {
    /// The function of that name, if the profile has one.
    #[tactic(auto, using(crate::proofs::FunctionNames::function_within_is))]
    pub fn function_named(self, name: &str) -> Option<Function>
        ensures { result ≡ function_named self (chars name.now) }
    {
        self.function_within(Function::of_name(name))
    }

    /// The function of a name that was read, if the profile has one.
    #[tactic(auto, using(crate::proofs::FunctionNames::function_within_is))]
    pub(crate) fn function(self, name: &FunctionName) -> Option<Function>
        ensures { result ≡ function_named self (chars (string_bytes name.now)) }
    {
        self.function_within(name.function())
    }

    /// The function that some name has, if the profile has it.
    fn function_within(self, function: Option<Function>) -> Option<Function>
        ensures { result ≡ function_within self function }
    {
        match (self, function) {
            (Profile::Standard | Profile::Decimal, Some(Function::Distinct)) => None,
            _ => function,
        }
    }
}

/// The types of a function's parameters and of what it answers.
fn types_of(function: Function) -> Signature
    ensures { signature_of result ≡ signature function }
{
    match function {
        Function::Length => types(&[Value], Value),
        Function::Count => types(&[Nodes], Value),
        Function::Match => types(&[Value, Value], Logical),
        Function::Search => types(&[Value, Value], Logical),
        Function::ValueOf => types(&[Nodes], Value),
        Function::Distinct => types(&[Nodes], Nodes),
    }
}

/// A signature of these types.
fn types(parameters: &'static [DataType], answer: DataType) -> Signature
    ensures { signature_of result ≡ record { parameters = parameters.now; result = answer } }
{
    Signature { parameters, answer }
}

/// The types of the function of that name, if the profile has one.
pub(crate) fn signature_named(name: &FunctionName, profile: Profile) -> Option<Signature>
    ensures { option_map signature_of result
        ≡ signature_named profile (chars (string_bytes name.now)) }
{
    match profile.function(name) {
        Some(function) => Some(types_of(function)),
        None => None,
    }
}

impl DataType {
    /// Whether what has this type may stand where the other is wanted (sections 2.4.2 and 2.4.3):
    /// a list of nodes also stands for whether it has a node.
    pub(crate) fn fits(self, wanted: DataType) -> bool
        ensures { result ≡ fits self wanted }
    {
        self == wanted || (self == Nodes && wanted == Logical)
    }
}

/// The types that are wanted of a call's arguments: those of the function's parameters, if the
/// profile has such a function and it has as many parameters as the call has arguments.
#[tactic(auto, using(crate::proofs::Calls::wanted_of_call_is))]
pub(crate) fn wanted_of_arguments(call: &Call, profile: Profile) -> &'static [DataType]
    ensures { result.now ≡ wanted_of_call profile (call_of call.now) }
{
    match signature_named(&call.name, profile) {
        Some(function) if function.parameters.len() == call.arguments.len() => function.parameters,
        _ => &[],
    }
}
