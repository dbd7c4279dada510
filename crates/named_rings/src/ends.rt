//! The ends of rings, by number.
ghost use Rattle.std.specs.Prelude.{◌≡◌};

use crate::names::RingNames;
use duct::RingLink;
use std::marker::PhantomData;

/// The client's end of the ring of this number.
#[derive(Drop)]
pub struct ClientEnd<W: RingNames> {
    pub number: u32,
    pub link: RingLink,
    pub names: PhantomData<W>,
    pub ghost out_is: { link.out ≡ W.from_client number },
    pub ghost inn_is: { link.inn ≡ W.from_session number },
}

/// The session's end of the ring of this number.
#[derive(Drop)]
pub struct LaneEnd<W: RingNames> {
    pub number: u32,
    pub link: RingLink,
    pub names: PhantomData<W>,
    pub ghost out_is: { link.out ≡ W.from_session number },
    pub ghost inn_is: { link.inn ≡ W.from_client number },
}

/// How many texts each end of a number has still to take, the client's first, where one thread holds both. Where it is none, the
/// end took all that the other one sent.
pub fn both_sides<W: RingNames>(client: &mut ClientEnd<W>, lane: &mut LaneEnd<W>) -> (u64, u64)
    requires { client.old.number ≡ lane.old.number }
    ensures client { (client.new.number ≡ client.old.number) × (client.new.link.taken ≡ client.old.link.taken) × (client.new.link.sent ≡ client.old.link.sent) }
    ensures lane { (lane.new.number ≡ lane.old.number) × (lane.new.link.taken ≡ lane.old.link.taken) × (lane.new.link.sent ≡ lane.old.link.sent) }
    ensures answers { result.0 ≡ 0 → lane.new.link.sent ≡ client.new.link.taken }
    ensures texts { result.1 ≡ 0 → client.new.link.sent ≡ lane.new.link.taken }
{
    let to_client = client.link.beside(&mut lane.link);
    let to_session = lane.link.beside(&mut client.link);
    (to_client, to_session)
}
