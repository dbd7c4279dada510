//! What a session makes of a text that it takes, and the texts of what it says (Meteor's DDP.md).
#![tactic(auto)]

mod publications;
mod said;
mod taking;

pub use publications::making;
pub use said::{
    Texts, answer_texts, data_text, error_of, nosub_text, ready_text, refused_texts, result_text,
    session_name, unknown_texts, updated_text,
};
pub use taking::{Answer, Taken, taken_from};
