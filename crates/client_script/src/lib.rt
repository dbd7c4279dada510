//! The script of a client, and how it is run over one link, whoever speaks for the client.
#![tactic(auto)]

mod end;
mod fault;
mod line;
mod offering;
mod reading;
mod running;
mod script;
mod speaker;
mod turns;

pub use end::ConsoleEnd;
pub use fault::ScriptFault;
pub use line::{Ask, Line};
pub use reading::line_in;
pub use script::Script;
pub use speaker::{Heard, Speaker};
pub use turns::leg;
