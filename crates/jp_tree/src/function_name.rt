//! Names of functions (RFC 9535 section 2.4).

ghost use Rattle.std.specs.Prelude.{◌≡◌, string_bytes};
ghost use Rattle.std.specs.Str.{chars};
ghost use Rattle.std.specs.Cmp.{partial_equiv_from_equiv};
ghost use Rattle.std.specs.String.{string_eq, string_eq_equiv};
ghost use Rattle.jp_tree.specs.Functions.{function_of_name};

use crate::function::Function;
use std::fmt;
use std::marker::Model;

/// A name as a call writes it, with the function that it is the name of, if there is one. Contracts
/// see it as its text.
#[derive(Drop)]
pub struct FunctionName {
    text: String,
    function: Option<Function>,
}

impl Model for FunctionName {
    ghost use Rattle.std.specs.Prelude.{◌≡◌, string_bytes};
    ghost use Rattle.std.specs.Global.{Global};
    ghost use Rattle.std.specs.Str.{chars};
    ghost use Rattle.std.specs.declared.string.String.{String};

    ghost Value = { String Global };

    ghost use Rattle.jp_tree.specs.Functions.{function_of_name};

    ghost view = { λ n. n.text };

    ghost invariant = { λ n. n.function ≡ function_of_name (chars (string_bytes n.text)) };
}

impl FunctionName {
    /// The name of that text, whose function is looked up here and kept.
    pub fn new(text: String) -> FunctionName
        ensures { result ≡ text }
    {
        let function = Function::of_name(&text);
        FunctionName { text, function }
    }

    /// Its text.
    pub fn as_str(&self) -> &str
        ensures { result.now ≡ string_bytes self.now }
    {
        self.text.as_str()
    }

    /// The function that it is the name of, if there is one.
    pub fn function(&self) -> Option<Function>
        ensures { result ≡ function_of_name (chars (string_bytes self.now)) }
    {
        self.function
    }
}

impl PartialEq for FunctionName {
    ghost eq = { string_eq };

    ghost laws = { partial_equiv_from_equiv string_eq_equiv };

    fn eq(&self, other: &FunctionName) -> bool {
        self.text == other.text
    }
}

impl Eq for FunctionName {
    ghost laws = { string_eq_equiv };
}

impl fmt::Debug for FunctionName {
    fn fmt<W: fmt::Write>(&self, f: &mut fmt::Formatter<W>) -> fmt::Result {
        self.text.fmt(f)
    }
}
