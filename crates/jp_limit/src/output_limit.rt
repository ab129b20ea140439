//! How many nodes, and how many bytes, there may be.

ghost use Rattle.std.specs.Prelude.{◌≡◌, None};
ghost use Rattle.jp_limit.specs.OutputLimit.{most_of_limit};

/// The most that may come out: nodes, and the bytes that are written of them.
#[derive(Clone, Copy, Debug, PartialEq, Eq)]
pub struct OutputLimit {
    /// How many nodes; None: any number.
    pub nodes: Option<u64>,
    /// How many bytes what is written of these nodes has together; None: any number.
    pub bytes: Option<u64>,
}

impl OutputLimit {
    /// As many nodes and bytes as there are.
    pub fn none() -> OutputLimit
        ensures nodes { result.nodes ≡ None }
        ensures bytes { result.bytes ≡ None }
    {
        OutputLimit {
            nodes: None,
            bytes: None,
        }
    }

    /// How many nodes there may be, 2^64 - 1 where any number may: no count goes beyond that.
    pub fn most_nodes(self) -> u64
        ensures { result ≡ most_of_limit self.nodes }
    {
        most(self.nodes)
    }

    /// How many bytes there may be, 2^64 - 1 where any number may.
    pub fn most_bytes(self) -> u64
        ensures { result ≡ most_of_limit self.bytes }
    {
        most(self.bytes)
    }
}

/// The limit, or the largest number where there is none.
fn most(limit: Option<u64>) -> u64
    ensures { result ≡ most_of_limit limit }
{
    match limit {
        Some(most) => most,
        None => u64::MAX,
    }
}
