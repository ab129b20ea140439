//! The functions (RFC 9535 section 2.4).

ghost use Rattle.std.specs.Prelude.{◌≡◌};
ghost use Rattle.std.specs.Str.{chars};
ghost use Rattle.jp_tree.specs.Functions.{function_of_name};

/// A function of JSONPath (RFC 9535 section 2.4).
#[derive(Debug, Clone, Copy, PartialEq, Eq)]
pub enum Function {
    /// `length` (section 2.4.4).
    Length,
    /// `count` (section 2.4.5).
    Count,
    /// `match` (section 2.4.6).
    Match,
    /// `search` (section 2.4.7).
    Search,
    /// `value` (section 2.4.8).
    ValueOf,
    /// `distinct`, an extension as section 2.4 provides for: the nodes of its argument, each once,
    /// where it is first.
    Distinct,
}

impl Function {
    /// The function of that name, if there is one.
    #[tactic(auto, using(crate::proofs::FunctionNames::function_of_name_bytes))]
    pub fn of_name(name: &str) -> Option<Function>
        ensures { result ≡ function_of_name (chars name.now) }
    {
        match name {
            "length" => Some(Function::Length),
            "count" => Some(Function::Count),
            "match" => Some(Function::Match),
            "search" => Some(Function::Search),
            "value" => Some(Function::ValueOf),
            "distinct" => Some(Function::Distinct),
            _ => None,
        }
    }
}
