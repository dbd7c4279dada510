//! The documents of a store and the results of its runs are values of the program, within the limits of messages, where the
//! application and the entries of the history are made of such values. There is no code here: each function is a law, which
//! its contract states.
#![tactic(auto)]

ghost use Rattle.std.specs.Prelude.{IfOk, ℕ, List, Bool};
ghost use Rattle.value_model.specs.Val.{Val, Entries, vals_of};
ghost use Rattle.value_model.specs.Valid.{IsValue, AreValues, IsDocument};
ghost use Rattle.ejson_value.specs.View.{view};
ghost use Rattle.program_reading.specs.Faults.{Gives};
ghost use Rattle.app_model.specs.Reading.{app_reading};
ghost use Rattle.world_values_laws.specs.world_model.Store.{programs};
ghost use Rattle.world_values_laws.specs.Values.{HasValues, AreEntries};
ghost use Rattle.modifier_apply.specs.Change.{Modification};
ghost use Rattle.modifier_apply.specs.Modified.{modified};
ghost use Rattle.modifier_apply.specs.Reading.{reading};
ghost use Rattle.program_steps.specs.Template.{filled};
ghost use Rattle.app_model.specs.App.{App};
ghost use Rattle.world_model.specs.history_model.declared.entry.Entry.{Entry};
ghost use Rattle.world_model.specs.session_model.Kept.{AreKept};
ghost use Rattle.world_model.specs.session_model.Taking.{taken_text};
ghost use Rattle.world_model.specs.Store.{programs, moments};
ghost use Rattle.world_values_laws.specs.ModifierValues.{IsModification};
ghost use Rattle.world_values_laws.specs.TakenValues.{IsTaken};

use app_model::{App, AppFault};
use ejson_value::Value;
use std::alloc::Global;

/// The application that is read from a value is made of values.
pub fn applications_that_are_read_have_values()
    ensures { (v : Val) → IsValue v → IfOk (app_reading v) (λ app. HasValues (programs app)) }
{}

/// The application that the value describes, as `App::read` reads it. The laws of the world want what it says of the
/// application's programs.
pub fn read_application(alloc: Global, value: &Value) -> Result<App, AppFault>
    ensures read { Gives (λ app. app) result (app_reading (view value.now)) }
    ensures values { IfOk result (λ app. HasValues (programs app)) }
{
    value.known();
    App::read(alloc, value)
}

/// A modifier that is read from a value puts values into a document.
pub fn modifiers_of_values_put_values()
    ensures { (v : Val) → IsValue v → IfOk (reading v) IsModification }
{}

/// What such a modifier makes of a document of values is one.
pub fn modified_documents_are_documents()
    ensures { (m : Modification) (id : List ℕ) (doc : Entries) → IsModification m → IsDocument doc → IfOk (modified m id doc) IsDocument }
{}

/// What a template of values gives, filled with values, is one.
pub fn filled_templates_are_values()
    ensures { (params : List Val) (ids : List (List ℕ)) (template : Val) → AreValues (vals_of params) → IsValue template →
        IfOk (filled params ids template) IsValue }
{}

/// What a session sees of such a store can be said in messages: its documents and the results of its runs.
pub fn stores_of_values_keep_values()
    ensures { (app : App) (number : ℕ) (history : List Entry) → HasValues (programs app) → AreEntries history → AreKept (moments app number history) }
{}

/// Whatever a text is, what a session makes of it can be said in messages: the object that an `error` shows is a value of
/// EJSON, and a message that waits is a request with such values and a short id.
pub fn taken_texts_can_be_said()
    ensures { (connected : Bool) (t : List ℕ) → IsTaken (taken_text connected t) }
{}
