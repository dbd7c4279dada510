//! Applications as data: collections, methods, publications and the rules by which clients may write (Meteor's guide,
//! "Methods" and "Publications and data loading").
#![tactic(auto)]

mod app;
mod copying;
mod cursors;
mod fields;
mod maps;
mod methods;
mod publication;
mod seen;
mod sorting;

pub use app::App;
pub use ejson_value::Fault;
pub use program_reading::AppFault;
pub use program_steps::{
    Action, End, FillFault, Outcome, Program, ProgramStep, ProgramSteps, Rule, RuleList, Rules,
    Status, Template,
};
pub use publication::{CursorRule, CursorRules, Paths, Projection, Publication};
