//! Documents in tables.

mod asked;
mod documents;
mod escapes;
mod exact;
mod locations;
mod no_json;
mod scattered_names;
mod small_objects;
mod values;
