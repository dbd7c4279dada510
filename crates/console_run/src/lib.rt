//! A client over one link, which runs a script: a console.
#![tactic(auto)]

mod run;
mod speaking;
mod timing;

pub use client_script::{Ask, ConsoleEnd, Line, Script, ScriptFault, Speaker, leg};
pub use run::console;
pub use speaking::Speaking;
pub use timing::{TimedConsole, console_timed};
