//! How a table is written.

/// What stands between the cells of a row, and how a cell is kept apart from that.
#[derive(Debug, Clone, Copy, PartialEq, Eq)]
pub enum Format {
    /// Tabs between cells, and a newline behind a row.
    Tabs,
    /// Commas between cells, quotes where they are needed, and `\r\n` behind a row (RFC 4180).
    Csv,
}

/// How a table is written.
#[derive(Debug, Clone, Copy, PartialEq, Eq)]
pub struct Style {
    pub format: Format,
    /// Whether a string that stands alone in a cell is written by its characters.
    pub raw: bool,
}
