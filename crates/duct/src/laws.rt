// What follows from the chain of the calls of a link. There is no code here: each function is a law, which its contract
// states.
ghost use Rattle.std.specs.Prelude.{◌≡◌, ◌++◌, ◌||◌, ℕ, List, false};
ghost use Rattle.duct.specs.Told.{Told};
ghost use Rattle.duct.specs.Polls.{has_closed};
ghost use Rattle.duct.specs.Rings.{RingEnd, RingMakes};
ghost use Rattle.duct.specs.Calls.{Call, Leads, Tells, heard_in, answers_in, said_in, has_refusal, blocks};

/// Of a link that tells, the chain says what was sent and answered, what still waits, and whether the link is blocked.
pub fn chains_of_links_that_tell()
    ensures sent { (a b : Told) (calls : List Call) → Leads Tells a calls b → b.sent ≡ a.sent ++ said_in calls }
    ensures polls { (a b : Told) (calls : List Call) → Leads Tells a calls b → b.polls ≡ a.polls ++ answers_in calls }
    ensures waiting { (a b : Told) (calls : List Call) → Leads Tells a calls b → a.waiting ≡ heard_in calls ++ b.waiting }
    ensures blocked { (a b : Told) (calls : List Call) → Leads Tells a calls b → b.blocked ≡ (a.blocked || blocks (has_closed a.polls) calls) }
    ensures open { (calls : List Call) → has_closed (answers_in calls) ≡ false → blocks false calls ≡ has_refusal calls }
{}

/// Of an end of a ring, the chain says what was sent and taken.
pub fn chains_of_rings()
    ensures sent { (a b : RingEnd) (calls : List Call) → Leads RingMakes a calls b → b.sent ≡ a.sent ++ said_in calls }
    ensures taken { (a b : RingEnd) (calls : List Call) → Leads RingMakes a calls b → b.taken ≡ a.taken ++ heard_in calls }
{}
