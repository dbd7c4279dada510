//! The machine.
ghost use Rattle.std.specs.Prelude.{◌≡◌, ◌+◌, ◌≤◌, ◌<◌, ◌||◌, [], length, IfOk, OnOk, OnErr, IsTrue, Some, None, is_some, if◌then◌else◌};
ghost use Rattle.app_model.specs.App.{method as method_of};
ghost use Rattle.history_model.specs.History.{status_in, status_at, changes_between, is_next};
ghost use Rattle.history_model.specs.Operations.{operation_in};
ghost use Rattle.history_log.specs.Entries.{told_operation};
ghost use Rattle.history_model.specs.Lines.{store_lines, history_lines};
ghost use Rattle.store_machine.specs.State.{programs, held_by, held_after, begin_answer, is_running, step_state, admin_answer, BeginGives};
ghost use Rattle.store_machine.specs.State.{AdminGives, IsLastBegun};

use crate::beginning::{begin, last_begun, may_begin};
use crate::fault::{AdminFault, BeginFault};
use crate::making::{admin, admin_told};
use crate::parts::Parts;
use crate::stepping::step;
use app_model::App;
use collection_store::{Op, Store};
use ejson_codec::Lines;
use ejson_value::{Change, Contents, Items, Mem, Text, Value};
use history_log::{Batch, Log};
use program_steps::Status;
use std::alloc::Global;
use std::collections::BTreeMap;
use std::marker::Model;

/// The machine of a store. It holds an application and a history, which it makes longer entry by entry,
/// and keeps what the history leads to: the documents, and how far each call's run is.
pub struct Machine {
    alloc: Global,
    app: App,
    parts: Parts,
}

// A `derive` would have each crate that lets one go prove anew how all that it holds is let go.
impl Drop for Machine {
    fn drop(self) {
        let Machine {
            alloc: _,
            app,
            parts,
        } = self;
        drop(app);
        drop(parts);
    }
}

impl Model for Machine {
    ghost use Rattle.std.specs.Coded.{codes};
    ghost use Rattle.value_model.specs.Coding.{val_code};
    ghost use Rattle.store_machine.specs.State.{MachineState};

    ghost Value = { MachineState };

    ghost coded = { Prim.hlevel (codes, val_code) };

    ghost use Rattle.store_machine.specs.Standing.{seen, Stand};

    ghost view = { λ m. seen m.app m.parts };

    ghost invariant = { λ m. Stand m.app m.parts };
}

impl Machine {
    /// A machine over an empty history.
    pub fn new(alloc: Global, app: &App) -> Result<Machine, Mem>
        ensures { IfOk result (λ machine. machine ≡ record { app = app.now; history = [] }) }
    {
        let store = Store::new(alloc, app.collections())?;
        Ok(Machine {
            alloc,
            app: app.copy()?,
            parts: Parts {
                store,
                calls: BTreeMap::new(alloc),
                log: Log::new(alloc),
                kept: 0,
                reserved: 0,
            },
        })
    }

    /// The application.
    pub fn app(&self) -> &App
        ensures { result.now ≡ self.now.app }
    {
        &self.app
    }

    /// How many entries the history has.
    pub fn length(&self) -> u64
        ensures { result ≡ length self.now.history }
    {
        self.parts.log.length()
    }

    /// The documents at the end of the history.
    pub fn contents(&self) -> &Contents
        ensures { result.now ≡ (held_by self.now).rows }
    {
        self.parts.store.contents()
    }

    /// How far the run of the call was after the first `at` entries, None where it had not begun.
    pub fn status(&self, session: u32, k: u64, at: u64) -> Result<Option<Status>, Mem>
        requires { at ≤ length self.now.history }
        ensures { IfOk result (λ status. status ≡ status_at (programs self.now.app) self.now.history at session k) }
    {
        match self.parts.calls.get(&(session, k)) {
            Some(called) => called.status(at),
            None => Ok(None),
        }
    }

    /// Whether the call `k` of the session may be begun: it has a run, or `k` is above the numbers of
    /// the session's calls.
    pub fn may_begin(&self, session: u32, k: u64) -> bool
        ensures { result ≡ (is_some (status_in (held_by self.now) session k) || is_next session k (held_by self.now).runs) }
    {
        may_begin(&self.app, &self.parts, session, k)
    }

    /// The greatest number of the session's calls that have begun, None where none has.
    pub fn last_begun(&self, session: u32) -> Option<u64>
        ensures { IsLastBegun self.now session result }
    {
        last_begun(&self.app, &self.parts, session)
    }

    /// Begins the call `k` of the session: its method, the parameters and the seed. Where it has a run
    /// already, nothing changes, and the run's status is answered.
    pub fn begin(
        &mut self,
        session: u32,
        k: u64,
        method: &Text,
        params: &Items,
        seed: &Value,
    ) -> Result<Status, BeginFault>
        requires known { IsTrue (is_some (method_of self.old.app method.now)) }
        requires next { IsTrue (is_some (status_in (held_by self.old) session k) || is_next session k (held_by self.old).runs) }
        ensures gives { BeginGives (λ status. self.new) result (begin_answer self.old session k method.now params.now seed.now) }
        ensures status { IfOk result (λ status. status_in (held_by self.new) session k ≡ Some status) }
        ensures refused { OnErr result (self.new ≡ self.old) }
    {
        begin(
            self.alloc,
            &self.app,
            &mut self.parts,
            session,
            k,
            method,
            params,
            seed,
        )
    }

    /// Makes the next step of the call's run, and answers its status: None where it has no run, or one
    /// that has ended. A step that is refused is an entry too, and ends its run.
    pub fn step(&mut self, session: u32, k: u64) -> Result<Option<Status>, Mem>
        ensures ok { OnOk result (self.new ≡ step_state self.old session k) }
        ensures status { IfOk result (λ status. status ≡ (if is_running self.old session k then status_in (held_by self.new) session k else None)) }
        ensures refused { OnErr result (self.new ≡ self.old) }
    {
        step(self.alloc, &self.app, &mut self.parts, session, k)
    }

    /// Makes an administrator's operation. One that is refused makes no entry.
    pub fn admin(&mut self, op: &Items) -> Result<(), AdminFault>
        ensures gives { AdminGives (λ u. self.new) result (admin_answer self.old op.now) }
        ensures refused { OnErr result (self.new ≡ self.old) }
    {
        admin(self.alloc, &self.app, &mut self.parts, op)
    }

    /// Makes the administrator's operation that the text tells of, as `admin` does. Its entry is the text.
    pub fn admin_told(&mut self, text: &Text, operation: &Op) -> Result<(), AdminFault>
        requires { operation_in (told_operation text.now) ≡ Some operation.now }
        ensures gives { AdminGives (λ u. self.new) result (admin_answer self.old (told_operation text.now)) }
        ensures refused { OnErr result (self.new ≡ self.old) }
    {
        admin_told(&self.app, &mut self.parts, text, operation)
    }

    /// The changes of the entry behind the first `entry`.
    pub fn changes_of(&self, entry: u64) -> &[Change]
        requires { entry < length self.now.history }
        ensures { result.now ≡ changes_between (programs self.now.app) self.now.history entry 1 }
    {
        self.parts.log.changes_of(entry)
    }

    /// The changes of `count` entries behind the first `from`.
    pub fn batch(&self, from: u64, count: u64) -> Result<Batch, Mem>
        requires { from + count ≤ length self.now.history }
        ensures { IfOk result
            (λ batch. batch ≡ record { from = from; count = count; changes = changes_between (programs self.now.app) self.now.history from count }) }
    {
        self.parts.log.batch(from, count)
    }

    /// The documents after the first `at` entries. Those at the end are copied, and earlier ones made
    /// anew, change by change.
    pub fn contents_at(&self, at: u64) -> Result<Contents, Mem>
        requires { at ≤ length self.now.history }
        ensures { IfOk result (λ contents. contents ≡ (held_after self.now at).rows) }
    {
        if at == self.length() {
            self.contents().copy()
        } else {
            self.parts.log.contents_at(at)
        }
    }

    /// What `store` prints: the length of the history, and the documents by collection and id.
    pub fn store_lines(&self) -> Result<Lines, Mem>
        ensures { IfOk result (λ lines. lines ≡ store_lines (length self.now.history) (held_by self.now).rows) }
    {
        self.parts.log.store_lines(self.contents())
    }

    /// What `history` prints: the length of the history, and its entries.
    pub fn history_lines(&self) -> Result<Lines, Mem>
        ensures { IfOk result (λ lines. lines ≡ history_lines self.now.history) }
    {
        self.parts.log.history_lines()
    }
}
