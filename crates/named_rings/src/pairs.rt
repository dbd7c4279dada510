//! New rings.
ghost use Rattle.std.specs.Prelude.{◌≡◌, ◌≤◌, [], length, IfOk};
ghost use Rattle.duct.specs.Rings.{AreEnds};

use crate::ends::{ClientEnd, LaneEnd};
use crate::names::RingNames;
use duct::{RingLink, ring};
use ejson_value::Mem;
use std::alloc::Global;
use std::marker::PhantomData;

/// A new ring that has no number yet.
#[derive(Drop)]
pub struct Pair {
    pub client: RingLink,
    pub lane: RingLink,
    pub ghost ends: { AreEnds client lane },
    pub ghost fresh: { (client.sent ≡ []) × (client.taken ≡ []) × (lane.sent ≡ []) × (lane.taken ≡ []) },
}

impl Pair {
    /// A ring that holds `capacity` texts each way.
    pub fn make(alloc: Global, capacity: u32) -> Result<Pair, Mem>
        requires { (1 ≤ capacity) × (capacity ≤ 4096) }
    {
        let (client, lane) = ring(alloc, capacity)?;
        Ok(Pair { client, lane })
    }

    /// Both ends under the number, where it names this ring.
    pub fn named<W: RingNames>(self, number: u32) -> (ClientEnd<W>, LaneEnd<W>)
        requires out { self.client.out ≡ W.from_client number }
        requires inn { self.client.inn ≡ W.from_session number }
        ensures numbers { (result.0.number ≡ number) × (result.1.number ≡ number) }
        ensures client { (result.0.link.sent ≡ []) × (result.0.link.taken ≡ []) }
        ensures lane { (result.1.link.sent ≡ []) × (result.1.link.taken ≡ []) }
    {
        let Pair { client, lane } = self;
        let client = ClientEnd {
            number,
            link: client,
            names: PhantomData,
        };
        let lane = LaneEnd {
            number,
            link: lane,
            names: PhantomData,
        };
        (client, lane)
    }
}

/// So many new rings, each of which holds `capacity` texts each way.
pub fn make_pairs(alloc: Global, capacity: u32, count: usize) -> Result<Vec<Pair>, Mem>
    requires { (1 ≤ capacity) × (capacity ≤ 4096) }
    ensures { IfOk result (λ pairs. length pairs.items ≡ count) }
{
    let mut pairs = Vec::new(alloc);
    for place in 0..count {
        pairs.push(Pair::make(alloc, capacity)?)?;
    }
    Ok(pairs)
}
