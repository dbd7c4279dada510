//! The publications that news are told of: each live subscription of a session is a source of its
//! application's news, and what is told stays so while the history gets longer; texts that are known
//! of it are told to each client. There is no code here: each function is a law, which its contract
//! states.
#![tactic(auto)]

mod news;
mod sources;
mod texts;

pub use multiplexer;
pub use news::{histories_go_on, machines_answer, news_go_on};
pub use sources::{
    limits_are_tested, live_subscriptions_have_their_cursors, subscriptions_are_sources,
    told_news_feed,
};
pub use texts::{documents_of_one_are_seen_as_shown, known_texts_are_told};
