//! Scripts.
ghost use Rattle.std.specs.Prelude.{◌≡◌, ◌∷◌, ◌++◌, [], None, length, is_some, nat_lt, unwrap_or, IfOk, OnOk, OnErr};
ghost use Rattle.std.specs.BTreeMap.{insert_entry};
ghost use Rattle.map_model.specs.Maps.{at, set, IsSorted};
ghost use Rattle.value_model.specs.Order.{text_cmp};
ghost use Rattle.ejson_value.specs.View.{view};
ghost use Rattle.drive_script.specs.Lines.{line_in};
ghost use Rattle.drive_script.specs.Scripts.{Reads, max_clients, may_act, may_come};
ghost use Rattle.drive_script.specs.Growing.{nothing, HasActed, IsWith, Comes, Takes};

use crate::line::DriveLine;
use crate::reading::line_in;
use client_script::{Line, Script as ClientScript, ScriptFault};
use ejson_value::{Items, ListOf, Mem, Text, Value};
use std::alloc::Global;
use std::collections::BTreeMap;
use std::collections::btree_map::Iter;
use std::marker::Model;

/// How many clients a script may have.
pub const MAX_CLIENTS: usize = 128;

/// A script: operations on the store that are done first, and a script for each client. A contract sees the operations in order,
/// and the lines of each client, the clients by the bytes of their names.
#[derive(Drop)]
pub struct Script {
    alloc: Global,
    operations: ListOf<Items>,
    clients: BTreeMap<Text, ClientScript>,
}

impl Model for Script {
    ghost use Rattle.std.specs.Coded.{codes};
    ghost use Rattle.map_model.specs.Maps.{IsSorted};
    ghost use Rattle.value_model.specs.Coding.{val_code};
    ghost use Rattle.value_model.specs.Order.{text_cmp};
    ghost use Rattle.drive_script.specs.Scripts.{Scripted};

    ghost Value = { Scripted };

    ghost coded = { Prim.hlevel (codes, val_code) };

    ghost view = { λ a. record { admins = a.operations; clients = a.clients.entries } };

    ghost invariant = { λ a. IsSorted text_cmp a.clients.entries };
}

// The script with one more line. It takes them, so that nothing else is owned while memory is asked for.
fn with_line(alloc: Global, script: Option<ClientScript>, line: Line) -> Result<ClientScript, Mem>
    ensures { IfOk result (λ all. all ≡ unwrap_or script [] ++ line ∷ []) }
{
    let mut script = match script {
        Some(script) => script,
        None => ClientScript::new(alloc),
    };
    script.push(line)?;
    Ok(script)
}

// Takes the script of the client of this name out.
fn take_out(clients: &mut BTreeMap<Text, ClientScript>, client: &Text) -> Option<ClientScript>
    ensures value { result ≡ at text_cmp clients.old.entries client.now }
    ensures removed { clients.new.entries ≡ set text_cmp clients.old.entries client.now None }
{
    clients.remove(client)
}

// Puts the script of the client of this name in. It takes the name, so that nothing else is owned while memory is asked for.
fn put_in(
    clients: &mut BTreeMap<Text, ClientScript>,
    client: Text,
    script: ClientScript,
) -> Result<(), Mem>
    ensures ok { OnOk result (clients.new.entries ≡ insert_entry text_cmp clients.old.entries client script) }
    ensures err { OnErr result (clients.new.entries ≡ clients.old.entries) }
{
    drop(clients.insert(client, script)?);
    Ok(())
}

// Whether a client of this name is there.
fn is_named(clients: &BTreeMap<Text, ClientScript>, client: &Text) -> bool
    ensures { result ≡ is_some (at text_cmp clients.now.entries client.now) }
{
    clients.contains_key(client)
}

// Whether one more client may be there.
fn has_room(clients: &BTreeMap<Text, ClientScript>) -> bool
    ensures { result ≡ nat_lt (length clients.now.entries) max_clients }
{
    clients.len() < MAX_CLIENTS
}

// Whether the client of this name may have one more line.
fn may_act(clients: &BTreeMap<Text, ClientScript>, client: &Text) -> bool
    ensures { result ≡ may_act clients.now.entries client.now }
{
    is_named(clients, client) || has_room(clients)
}

// The client of this name has one more line. Where there is no memory, its script is gone.
#[tactic(auto, using(crate::proofs::Grown::taken_sorted))]
fn act(
    alloc: Global,
    clients: &mut BTreeMap<Text, ClientScript>,
    client: Text,
    line: Line,
) -> Result<(), Mem>
    requires { IsSorted text_cmp clients.old.entries }
    ensures acts { OnOk result (HasActed clients.old.entries client line clients.new.entries) }
    ensures sorted { IsSorted text_cmp clients.new.entries }
{
    let script = take_out(clients, &client);
    let script = with_line(alloc, script, line)?;
    put_in(clients, client, script)
}

impl Script {
    // Without operations and clients.
    fn new(alloc: Global) -> Script
        ensures { result ≡ nothing }
    {
        Script {
            alloc,
            operations: ListOf::new(alloc),
            clients: BTreeMap::new(alloc),
        }
    }

    // Whether the line may come behind those before it.
    fn may_come(&self, line: &DriveLine) -> bool
        ensures { result ≡ may_come self.now line.now }
    {
        match line {
            DriveLine::Admin { .. } => self.clients.is_empty(),
            DriveLine::Act { client, .. } => may_act(&self.clients, client),
        }
    }

    // Puts the line behind the others.
    fn add(&mut self, line: DriveLine) -> Result<(), Mem>
        ensures { OnOk result (IsWith self.old line self.new) }
    {
        match line {
            DriveLine::Admin { op } => self.operations.push(op),
            DriveLine::Act { client, line } => act(self.alloc, &mut self.clients, client, line),
        }
    }

    // Puts the line behind the others, where it may come there. It answers whether it may.
    fn put(&mut self, line: DriveLine) -> Result<bool, Mem>
        ensures { IfOk result (λ did. Comes did self.old line self.new) }
    {
        let comes = self.may_come(&line);
        if !comes {
            drop(line);
            return Ok(false);
        }
        self.add(line)?;
        Ok(true)
    }

    // Takes the value as the next line, where it describes one that may come there. It answers whether it does.
    fn take(&mut self, alloc: Global, value: &Value) -> Result<bool, Mem>
        ensures { IfOk result (λ did. Takes did self.old (line_in (view value.now)) self.new) }
    {
        let found = line_in(alloc, value)?;
        match found {
            Some(line) => self.put(line),
            None => Ok(false),
        }
    }

    /// The script of these values: first any `["admin",operation]`, then `[client,"sub",id,name]` and `[client,"call",method]`,
    /// both also with a list of parameters, `[client,"unsub",id]` and `[client,"wait"]`, of at most 128 clients, none of which
    /// is named `admin`.
    pub fn read(alloc: Global, values: &Items) -> Result<Script, ScriptFault>
        ensures { Reads values.now result }
    {
        let mut script = Script::new(alloc);
        let mut number = 0;
        for value in values.as_slice() {
            number += 1;
            let took = script.take(alloc, value)?;
            if !took {
                return Err(ScriptFault::Bad { line: number });
            }
        }
        Ok(script)
    }

    /// The operations that are done first.
    pub fn operations(&self) -> &[Items]
        ensures { result.now ≡ self.now.admins }
    {
        self.operations.as_slice()
    }

    /// How many clients it has.
    pub fn count(&self) -> usize
        ensures { result ≡ length self.now.clients }
    {
        self.clients.len()
    }

    /// The clients with their scripts, by the bytes of their names.
    pub fn clients(&self) -> Iter<'_, Text, ClientScript>
        ensures all { result ≡ self.now.clients }
        ensures ordered { IsSorted text_cmp self.now.clients }
    {
        self.clients.iter()
    }

    /// The operations that are done first, and the clients with their scripts.
    pub fn into_parts(self) -> (ListOf<Items>, BTreeMap<Text, ClientScript>)
        ensures operations { result.0 ≡ self.admins }
        ensures clients { result.1.entries ≡ self.clients }
        ensures ordered { IsSorted text_cmp self.clients }
    {
        let Script {
            alloc,
            operations,
            clients,
        } = self;
        (operations, clients)
    }
}
