//! The lines of a drive.
use client_script::Line;
use ejson_value::{Items, Text};

/// A line of a drive.
#[derive(Drop)]
pub enum DriveLine {
    /// An operation on the store, before any client begins.
    Admin { op: Items },
    /// The next line of the script of the client of this name, which is no print.
    Act { client: Text, line: Line },
}
