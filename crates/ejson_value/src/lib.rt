//! EJSON values, documents and contents in memory (the EJSON appendix of Meteor's DDP specification).
#![tactic(auto)]

mod branches;
mod building;
mod bytes;
mod change;
mod contents;
mod copying;
mod editing;
mod fault;
mod key;
mod list;
mod measure;
mod members;
mod memory;
mod message;
mod order;
mod path;
mod put_all;
mod row;
mod sort;
mod table;
mod text;
mod user;
mod value;
mod whole;

pub use branches::some_branch;
pub use building::{DocBuilder, ItemsBuilder};
pub use bytes::Bytes;
pub use change::{Change, Publish};
pub use contents::Contents;
pub use copying::copy;
pub use fault::Fault;
pub use key::Key;
pub use list::{Copied, ListOf, copy_option};
pub use measure::{depth, document_depth, document_size, size};
pub use members::Fields;
pub use memory::Mem;
pub use message::DataMsg;
pub use order::{compare, kind, same, same_documents};
pub use path::{Part, Path, PathFault};
pub use sort::SortKey;
pub use text::Text;
pub use user::{BoxedName, MAX_USER_NAME, UserName};
pub use value::{Boxed, Doc, Items, Value};
pub use whole::Whole;

/// Names, as of fields or of collections.
pub type Names = ListOf<Text>;

/// Keys of documents.
pub type Keys = ListOf<Key>;

/// Keys to sort by, the first that tells two documents apart deciding.
pub type SortKeys = ListOf<SortKey>;

/// Changes of contents, in order.
pub type Changes = ListOf<Change>;

/// What is published, key by key.
pub type Publishes = ListOf<Publish>;

/// Messages about documents, in order.
pub type DataList = ListOf<DataMsg>;
