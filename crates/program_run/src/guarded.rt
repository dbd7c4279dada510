//! A client's own writes, which the rules of a collection must allow (Meteor's documentation, "allow" and "deny").
ghost use Rattle.std.specs.Prelude.{◌≡◌, pos, IfOk, IfSome, Some, None, true, option_and_then, option_map, if◌then◌else◌};
ghost use Rattle.std.specs.Option.{option_copied};
ghost use Rattle.value_model.specs.Val.{int};
ghost use Rattle.map_model.specs.Maps.{at};
ghost use Rattle.ejson_value.specs.Key.{key_cmp, key_of};
ghost use Rattle.ejson_value.specs.View.{view};
ghost use Rattle.selector_match.specs.Named.{text_in};
ghost use Rattle.modifier_apply.specs.Reading.{reading};
ghost use Rattle.program_steps.specs.declared.step.ProgramStep.TheVariants.{Guarded};
ghost use Rattle.program_steps.specs.declared.rules.Action.TheVariants.{Insert, Update, Remove};
ghost use Rattle.program_steps.specs.Runs.{done, failed};
ghost use Rattle.program_model.specs.Faults.{denied_by, not_allowed};
ghost use Rattle.program_model.specs.Guarded.{inserts, updates, removes, id_of, judged, or_none, no_rules};
ghost use Rattle.program_model.specs.Run.{is_id};
ghost use Rattle.program_model.specs.Steps.{with_id, operation_of, update_of};
ghost use Rattle.program_run.specs.Acts.{write_of, is_write, is_operators, modification_in};
ghost use Rattle.program_run.specs.declared.plan.Plan.TheVariants.{Answers};
ghost use Rattle.program_run.specs.Planned.{ids_with, rules_of, IsPlan};
ghost use Rattle.program_run.specs.Writes.{only, second, update_in, remove_in, IsWriting, IsEnd, IsRefusal, IsVerdictPlan};

use crate::documents::{NewDocument, ids_with, is_id, new_of};
use crate::errors::{denied_by, not_allowed};
use crate::filling::read_modifier;
use crate::plan::{Ids, Plan};
use crate::planning::bad_plan;
use crate::run::Run;
use crate::{Act, Verdict, judge};
use app_model::App;
use collection_store::{Op, Store};
use ejson_value::{Doc, Items, Key, Mem, Text, Value, Whole, copy};
use program_steps::{Action, Outcome};
use selector_match::Selector;
use std::alloc::Global;

/// A write, and the ids that the run has once it is made.
#[derive(Drop)]
struct Writing {
    act: Act,
    ids: Option<Ids>,
}

fn insert_writing(run: &Run, collection: &Text, new: NewDocument) -> Result<Writing, Mem>
    ensures ids { IfOk result (λ w. w.ids ≡ Some (ids_with run.now collection.now new)) }
    ensures act { IfOk result (λ w. write_of w.act ≡ inserts new.id new.doc) }
    ensures write { IfOk result (λ w. is_write w.act ≡ true) }
{
    let ids = ids_with(run, collection, &new)?;
    let NewDocument { id, doc, .. } = new;
    Ok(Writing {
        act: Act::Insert { id, doc },
        ids: Some(ids),
    })
}

// The only parameter, where there is one alone.
fn only(params: &Items) -> Option<&Value>
    ensures { option_map (λ v. view v.now) result ≡ only params.now }
{
    if params.len() == 1 {
        params.get(0)
    } else {
        None
    }
}

// The second of two parameters.
fn second(params: &Items) -> Option<&Value>
    ensures { option_map (λ v. view v.now) result ≡ second params.now }
{
    if params.len() == 2 {
        params.get(1)
    } else {
        None
    }
}

fn text_in(value: Option<&Value>) -> Option<&Text>
    ensures { option_copied result ≡ option_and_then text_in (option_map (λ v. view v.now) value.entry) }
{
    match value {
        Some(Value::Text(text)) => Some(text),
        _ => None,
    }
}

// The parameters are `[doc]`.
fn insert_in(alloc: Global, run: &Run, collection: &Text) -> Result<Option<Writing>, Mem>
    ensures is { IfOk result (λ o. IsWriting run.now collection.now Insert o) }
    ensures write { IfOk result (λ o. IfSome o (λ w. is_write w.act ≡ true)) }
{
    let Some(doc) = only(run.params()) else {
        return Ok(None);
    };
    match new_of(alloc, run, collection, doc)? {
        Some(new) => Ok(Some(insert_writing(run, collection, new)?)),
        None => Ok(None),
    }
}

// Only operators change a document by its id.
fn update_by(alloc: Global, id: &Text, modifier: &Value) -> Result<Option<Act>, Mem>
    ensures act { IfOk result (λ o. option_map write_of o ≡ (if is_id id.now then update_of id.now (reading (view modifier.now)) else None)) }
    ensures write { IfOk result (λ o. IfSome o (λ act. is_write act ≡ true)) }
{
    if !is_id(id) {
        return Ok(None);
    }
    let id = id.copy()?;
    let act = Act::Update {
        id,
        modifier: copy(modifier)?,
    };
    if act.is_write(alloc)? {
        Ok(Some(act))
    } else {
        Ok(None)
    }
}

// The parameters are `[id, modifier]`.
fn update_in(alloc: Global, params: &Items) -> Result<Option<Act>, Mem>
    ensures act { IfOk result (λ o. option_map write_of o ≡ update_in params.now) }
    ensures write { IfOk result (λ o. IfSome o (λ act. is_write act ≡ true)) }
{
    let Some(modifier) = second(params) else {
        return Ok(None);
    };
    match text_in(params.get(0)) {
        Some(id) => update_by(alloc, id, modifier),
        None => Ok(None),
    }
}

// The parameters are `[id]`.
fn remove_in(params: &Items) -> Result<Option<Act>, Mem>
    ensures act { IfOk result (λ o. option_map write_of o ≡ remove_in params.now) }
    ensures write { IfOk result (λ o. IfSome o (λ act. is_write act ≡ true)) }
{
    let Some(id) = text_in(only(params)) else {
        return Ok(None);
    };
    if is_id(id) {
        Ok(Some(Act::Remove { id: id.copy()? }))
    } else {
        Ok(None)
    }
}

fn without_ids(act: Option<Act>) -> Option<Writing>
    ensures { result ≡ option_map (λ act. record { act = act; ids = None }) act }
{
    match act {
        Some(act) => Some(Writing { act, ids: None }),
        None => None,
    }
}

// The write that the parameters are, None where they are none.
fn writing_in(
    alloc: Global,
    run: &Run,
    collection: &Text,
    action: Action,
) -> Result<Option<Writing>, Mem>
    ensures is { IfOk result (λ o. IsWriting run.now collection.now action o) }
    ensures write { IfOk result (λ o. IfSome o (λ w. is_write w.act ≡ true)) }
{
    match action {
        Action::Insert => insert_in(alloc, run, collection),
        Action::Update => Ok(without_ids(update_in(alloc, run.params())?)),
        Action::Remove => Ok(without_ids(remove_in(run.params())?)),
    }
}

fn id_of(act: &Act) -> &Text
    ensures { result.now ≡ id_of (write_of act.now) }
{
    match act {
        Act::Insert { id, .. } => id,
        Act::Update { id, .. } => id,
        Act::Remove { id } => id,
    }
}

// Without rules a write is refused, unless the document that it is to change is not there.
fn without_rules(act: &Act, present: Option<&Doc>) -> Verdict
    ensures { result ≡ judged no_rules (write_of act.now) (option_copied present.entry) }
{
    match act {
        Act::Insert { .. } => Verdict::NotAllowed,
        Act::Update { .. } | Act::Remove { .. } => match present {
            Some(_) => Verdict::NotAllowed,
            None => Verdict::Absent,
        },
    }
}

// What the rules say to the act, where `present` is the document that is there under its id.
fn verdict_on(
    alloc: Global,
    app: Option<&App>,
    collection: &Text,
    act: &Act,
    present: Option<&Doc>,
) -> Result<Verdict, Mem>
    requires { is_write act.now ≡ true }
    ensures { IfOk result (λ v. v ≡ judged (or_none (rules_of (option_copied app.entry) collection.now)) (write_of act.now) (option_copied present.entry)) }
{
    match app {
        Some(app) => judge(alloc, app, collection, act, present),
        None => Ok(without_rules(act, present)),
    }
}

fn verdict(
    alloc: Global,
    app: Option<&App>,
    store: &Store,
    collection: &Text,
    act: &Act,
) -> Result<Verdict, Mem>
    requires { is_write act.now ≡ true }
    ensures { IfOk result (λ v. v ≡ judged (or_none (rules_of (option_copied app.entry) collection.now)) (write_of act.now)
        (at key_cmp store.now.rows (key_of collection.now (id_of (write_of act.now))))) }
{
    let key = Key::of(collection, id_of(act))?;
    let present = store.contents().get(&key);
    verdict_on(alloc, app, collection, act, present)
}

fn with_id(alloc: Global, id: Text) -> Result<Selector, Mem>
    ensures { IfOk result (λ q. q ≡ with_id id) }
{
    let mut fields = Doc::new(alloc);
    fields.put(Text::from_str(alloc, "_id")?, Value::Text(id))?;
    match Selector::read(alloc, &Value::Object(fields)) {
        Ok(selector) => Ok(selector),
        Err(_) => Err(Mem),
    }
}

fn update_operation(alloc: Global, collection: Text, id: Text, modifier: &Value) -> Result<Op, Mem>
    requires { is_operators (reading (view modifier.now)) ≡ true }
    ensures { IfOk result (λ op. op ≡ operation_of collection (updates id (modification_in (reading (view modifier.now))))) }
{
    let selector = with_id(alloc, id)?;
    match read_modifier(alloc, modifier)? {
        Some(modifier) => Ok(Op::Update {
            collection,
            selector,
            modifier,
            all: false,
        }),
        None => Err(Mem),
    }
}

fn operation_of(alloc: Global, collection: &Text, act: Act) -> Result<Op, Mem>
    requires { is_write act ≡ true }
    ensures { IfOk result (λ op. op ≡ operation_of collection.now (write_of act)) }
{
    let collection = collection.copy()?;
    match act {
        Act::Insert { id, doc } => Ok(Op::Insert {
            collection,
            id,
            doc,
        }),
        Act::Update { id, modifier } => update_operation(alloc, collection, id, &modifier),
        Act::Remove { id } => Ok(Op::Remove {
            collection,
            selector: with_id(alloc, id)?,
        }),
    }
}

// The rules allow the write.
fn allowed_plan(alloc: Global, collection: &Text, writing: Writing) -> Result<Plan, Mem>
    requires { is_write writing.act ≡ true }
    ensures { IfOk result (λ plan. plan ≡ Answers (operation_of collection.now (write_of writing.act)) writing.ids) }
{
    let Writing { act, ids } = writing;
    Ok(Plan::Answers(operation_of(alloc, collection, act)?, ids))
}

// The answer of a write to a document that is not there.
fn none_written() -> Result<Value, Mem>
    ensures { IfOk result (λ v. view v ≡ int (pos 0)) }
{
    match Whole::of(0) {
        Some(zero) => Ok(Value::Int(zero)),
        None => Err(Mem),
    }
}

fn absent_plan() -> Result<Plan, Mem>
    ensures { IfOk result (λ plan. IsEnd (done (Some (int (pos 0)))) plan) }
{
    Ok(Plan::Ends(Outcome::Done(Some(none_written()?))))
}

fn denied_plan(alloc: Global, place: u32) -> Result<Plan, Mem>
    ensures { IfOk result (λ plan. IsEnd (failed (denied_by place)) plan) }
{
    Ok(Plan::Ends(Outcome::Failed(denied_by(alloc, place)?)))
}

fn not_allowed_plan(alloc: Global) -> Result<Plan, Mem>
    ensures { IfOk result (λ plan. IsEnd (failed not_allowed) plan) }
{
    Ok(Plan::Ends(Outcome::Failed(not_allowed(alloc)?)))
}

// What a verdict that refuses a write leads to, and None where it allows it.
fn refused_plan(alloc: Global, verdict: Verdict) -> Result<Option<Plan>, Mem>
    ensures { IfOk result (λ o. IsRefusal verdict o) }
{
    match verdict {
        Verdict::Allowed => Ok(None),
        Verdict::Absent => Ok(Some(absent_plan()?)),
        Verdict::Denied(place) => Ok(Some(denied_plan(alloc, place)?)),
        Verdict::NotAllowed => Ok(Some(not_allowed_plan(alloc)?)),
        Verdict::BadRule => Ok(Some(bad_plan(alloc)?)),
    }
}

// What the rules' verdict on the write leads to.
fn by_verdict(
    alloc: Global,
    collection: &Text,
    writing: Writing,
    verdict: Verdict,
) -> Result<Plan, Mem>
    requires { is_write writing.act ≡ true }
    ensures { IfOk result (λ plan. IsVerdictPlan collection.now writing verdict plan) }
{
    match refused_plan(alloc, verdict)? {
        Some(plan) => Ok(plan),
        None => allowed_plan(alloc, collection, writing),
    }
}

/// What a client's own write comes to.
pub(crate) fn guarded_plan(
    alloc: Global,
    run: &Run,
    app: Option<&App>,
    store: &Store,
    collection: &Text,
    action: Action,
) -> Result<Plan, Mem>
    ensures { IfOk result (λ plan. IsPlan (option_copied app.entry) store.now run.now (Guarded collection.now action) plan) }
{
    let Some(writing) = writing_in(alloc, run, collection, action)? else {
        return bad_plan(alloc);
    };
    let verdict = verdict(alloc, app, store, collection, &writing.act)?;
    by_verdict(alloc, collection, writing, verdict)
}
