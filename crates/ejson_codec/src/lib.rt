//! EJSON as JSON text and JSON trees (the EJSON appendix of Meteor's DDP specification).
#![tactic(auto)]

mod base64_text;
mod fault;
mod laws;
mod plain;
mod reading;
mod shape;
mod text_writer;
mod texts;
mod token_writing;
mod writing;

use ejson_value::{ListOf, Text};
pub use fault::{EjsonFault, ParseFault, PlainFault, ReadFault};
pub use laws::{one_tree, size_of_text};
pub use plain::{next_value, parse_plain, parse_plain_in};
pub use reading::{put_field, read};
pub use text_writer::TextWriter;
pub use texts::{parse, parse_in, text};
pub use token_writing::{put_document, put_items, put_value};
pub use writing::write;

/// Texts, one for each line.
pub type Lines = ListOf<Text>;
