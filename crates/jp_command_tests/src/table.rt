//! The table of rows, by the sections of RFC 9535: a document, a query, and what `jp both` or
//! `jp canon` gives in both profiles. A new row goes to its section, and nowhere else.

mod canonical;
mod comparisons;
mod distinct;
mod filters;
mod functions;
pub mod names;
mod null;
mod paths;
mod queries;
mod segments;
mod selectors;
