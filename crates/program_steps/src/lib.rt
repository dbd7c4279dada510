//! Programs as data: the steps of methods, the templates that they are written with, what a run comes to, and the rules
//! by which clients may write (Meteor's guide, "Methods"; Meteor's documentation, "allow" and "deny").
#![tactic(auto)]

mod copying;
mod fault;
mod measuring;
mod outcome;
mod rules;
mod step;
mod template;

pub use ejson_value::Fault;
pub use fault::FillFault;
pub use outcome::{End, Outcome, Status};
pub use rules::{Action, Rule, RuleList, Rules};
pub use step::{Program, ProgramStep, ProgramSteps};
pub use template::{Template, fill_short};
