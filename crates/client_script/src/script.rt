//! Scripts.
ghost use Rattle.std.specs.Prelude.{◌≡◌, ◌++◌, ◌∷◌, [], length, slice_get, OnOk, OnErr};
ghost use Rattle.std.specs.Option.{option_copied};
ghost use Rattle.client_script.specs.Scripts.{Reads};

use crate::fault::ScriptFault;
use crate::line::Line;
use crate::reading::line_in;
use ejson_value::{Items, ListOf, Mem, Value};
use std::alloc::Global;
use std::marker::Model;

/// The lines of a client, one after another. A contract sees it as the list of them.
#[derive(Drop)]
pub struct Script {
    lines: ListOf<Line>,
}

impl Model for Script {
    ghost use Rattle.std.specs.Prelude.{List};
    ghost use Rattle.client_script.specs.declared.line.Line.{Line as ALine};

    ghost Value = { List ALine };

    ghost use Rattle.std.specs.Coded.{codes};
    ghost use Rattle.value_model.specs.Coding.{val_code};

    ghost coded = { Prim.hlevel (codes, val_code) };

    ghost view = { λ a. a.lines };
}

impl Script {
    /// A script without lines.
    pub fn new(alloc: Global) -> Script
        ensures { result ≡ [] }
    {
        Script {
            lines: ListOf::new(alloc),
        }
    }

    /// Puts the line behind the others. Where there is no memory for it, the script is as it was.
    pub fn push(&mut self, line: Line) -> Result<(), Mem>
        ensures ok { OnOk result (self.new ≡ self.old ++ line ∷ []) }
        ensures err { OnErr result (self.new ≡ self.old) }
    {
        self.lines.push(line)
    }

    /// The script of these values: `["sub",id,name]`, `["call",method]`, both also with a list of
    /// parameters, `["unsub",id]`, `["wait"]` and `["show"]`.
    pub fn read(alloc: Global, values: &Items) -> Result<Script, ScriptFault>
        ensures { Reads values.now result }
    {
        let mut lines = ListOf::new(alloc);
        for value in values.as_slice() {
            match line_in(alloc, value)? {
                Some(line) => lines.push(line)?,
                None => {
                    return Err(ScriptFault::Bad {
                        line: lines.len() as u64 + 1,
                    });
                }
            }
        }
        Ok(Script { lines })
    }

    /// How many lines it has.
    pub fn len(&self) -> usize
        ensures { result ≡ length self.now }
    {
        self.lines.len()
    }

    /// The line at this place, from 0.
    pub fn get(&self, place: usize) -> Option<&Line>
        ensures { option_copied result ≡ slice_get self.now place }
    {
        self.lines.get(place)
    }
}
