ghost use Rattle.std.specs.Prelude.{◌≡◌, ◌++◌, ◌∷◌, [], ◌+◌, length, option_to_list, IfNone, IfErr, OnOk, OnErr};
ghost use Rattle.duct.specs.Told.{CountsFaults};
ghost use Rattle.duct.specs.Networks.{network_failed};
ghost use Rattle.duct.specs.Nets.{Net, new_net, is_due, Gives, net_gave, NetAnswers, NetListens, net_listened, net_accepted, net_connected};

use crate::memory_link::MemoryLink;
use crate::network::{NetFault, Network};
use crate::schedule::Schedule;
use ejson_value::Mem;
use io_edge::Calls;
use std::alloc::Global;
use std::collections::VecDeque;
use std::marker::Model;

/// Links in memory, in order. A contract sees it as the list of them.
#[derive(Drop)]
pub struct Links {
    items: VecDeque<MemoryLink>,
}

impl Model for Links {
    ghost use Rattle.std.specs.Prelude.{List};
    ghost use Rattle.duct.specs.Lines.{Line};

    ghost Value = { List Line };

    ghost view = { λ l. l.items.items };
}

impl Links {
    /// No links.
    pub fn new(alloc: Global) -> Links
        ensures { result ≡ [] }
    {
        Links {
            items: VecDeque::new(alloc),
        }
    }

    /// Puts the link behind the others.
    pub fn push(&mut self, link: MemoryLink) -> Result<(), Mem>
        ensures ok { OnOk result (self.new ≡ self.old ++ link ∷ []) }
        ensures err { OnErr result (self.new ≡ self.old) }
    {
        self.items.push_back(link)?;
        Ok(())
    }

    // Takes the first one out.
    fn pop(&mut self) -> Option<MemoryLink>
        ensures first { self.old ≡ option_to_list result ++ self.new }
        ensures none { IfNone result (length self.old ≡ 0) }
    {
        self.items.pop_front()
    }
}

/// A network that gives its links in order; a call behind the last one fails.
#[derive(Drop)]
pub struct MemoryNetwork {
    links: Links,
    listens: Schedule,
    accepts: Schedule,
    connects: Schedule,
    given: u64,
    faults: u64,
}

impl Model for MemoryNetwork {
    ghost use Rattle.duct.specs.Nets.{Net};

    ghost Value = { Net };

    ghost view = { λ a. record {
      links = a.links;
      listens = a.listens;
      accepts = a.accepts;
      connects = a.connects;
      given = a.given;
      faults = a.faults;
    } };
}

impl MemoryNetwork {
    /// A network of these links. The calls of `listen`, `accept` and `connect` with these numbers, each counted from 1,
    /// fail.
    pub fn new(links: Links, listens: Calls, accepts: Calls, connects: Calls) -> MemoryNetwork
        ensures { result ≡ new_net links listens accepts connects }
    {
        MemoryNetwork {
            links,
            listens: Schedule::new(listens),
            accepts: Schedule::new(accepts),
            connects: Schedule::new(connects),
            given: 0,
            faults: 0,
        }
    }

    // The first link, where the call is not to fail; none counts as a fault.
    fn give(&mut self, due: bool, faults: u64) -> Option<MemoryLink>
        requires { faults ≡ self.old.faults + 1 }
        ensures link { Gives self.old due result }
        ensures after { self.new ≡ net_gave self.old result }
    {
        if due || self.given == u64::MAX {
            self.faults = faults;
            return None;
        }
        match self.links.pop() {
            Some(link) => {
                self.given += 1;
                Some(link)
            }
            None => {
                self.faults = faults;
                None
            }
        }
    }
}

impl Network for MemoryNetwork {
    type Link = MemoryLink;

    ghost given = { λ n. n.given };

    ghost faults = { λ n. n.faults };

    fn listen(&mut self, _port: u16) -> Result<(), NetFault>
        ensures given { self.new.given ≡ self.old.given }
        ensures sound { OnOk result (self.new.faults ≡ self.old.faults) }
        ensures faults { IfErr result (λ fault. CountsFaults (network_failed fault) self.old.faults self.new.faults) }
        ensures answer { NetListens self.old result }
        ensures after { self.new ≡ net_listened self.old result }
    {
        let Some((call, due)) = self.listens.next() else {
            return Err(NetFault::Memory);
        };
        let Some(faults) = self.faults.checked_add(1) else {
            return Err(NetFault::Memory);
        };
        self.listens.calls = call;
        if due {
            self.faults = faults;
            return Err(NetFault::Failed);
        }
        Ok(())
    }

    fn accept(&mut self) -> Result<MemoryLink, NetFault>
        ensures given { OnOk result (self.new.given ≡ self.old.given + 1) }
        ensures none { OnErr result (self.new.given ≡ self.old.given) }
        ensures sound { OnOk result (self.new.faults ≡ self.old.faults) }
        ensures faults { IfErr result (λ fault. CountsFaults (network_failed fault) self.old.faults self.new.faults) }
        ensures answer { NetAnswers self.old (is_due self.old.accepts) result }
        ensures after { self.new ≡ net_accepted self.old result }
    {
        let Some((call, due)) = self.accepts.next() else {
            return Err(NetFault::Memory);
        };
        let Some(faults) = self.faults.checked_add(1) else {
            return Err(NetFault::Memory);
        };
        self.accepts.calls = call;
        match self.give(due, faults) {
            Some(link) => Ok(link),
            None => Err(NetFault::Failed),
        }
    }

    fn connect(&mut self, _port: u16) -> Result<MemoryLink, NetFault>
        ensures given { OnOk result (self.new.given ≡ self.old.given + 1) }
        ensures none { OnErr result (self.new.given ≡ self.old.given) }
        ensures sound { OnOk result (self.new.faults ≡ self.old.faults) }
        ensures faults { IfErr result (λ fault. CountsFaults (network_failed fault) self.old.faults self.new.faults) }
        ensures answer { NetAnswers self.old (is_due self.old.connects) result }
        ensures after { self.new ≡ net_connected self.old result }
    {
        let Some((call, due)) = self.connects.next() else {
            return Err(NetFault::Memory);
        };
        let Some(faults) = self.faults.checked_add(1) else {
            return Err(NetFault::Memory);
        };
        self.connects.calls = call;
        match self.give(due, faults) {
            Some(link) => Ok(link),
            None => Err(NetFault::Failed),
        }
    }
}
