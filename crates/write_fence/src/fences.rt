//! The armed fences of a session: those that wait, by end, and those reached, by number.
ghost use Rattle.std.specs.Prelude.{◌≡◌, ◌↔◌, ◌⊎◌, ◌+◌, ◌≤◌, ◌<◌, ℕ, [], ◌∷◌, All, IsTrue, IsNone, IfNone, IfSome, OnSome, OnOk, OnErr, IsPermutation};
ghost use Rattle.std.specs.BinaryHeap.{heap_items, heap_len, heap_capacity, IsHeap, IsUpperBound};
ghost use Rattle.std.specs.Ordering.{nat_cmp};
ghost use Rattle.map_model.specs.Maps as map_of;
ghost use Rattle.write_fence.specs.Fences.{IsReached, CanFire, IsLeastToFire};
ghost use Rattle.write_fence.specs.Index.{least_first, fences_in, AreWhole, IsLeastOf};

use ejson_value::Mem;
use std::alloc::Global;
use std::cmp::Reverse;
use std::collections::BinaryHeap;
use std::marker::Model;

// Pairs of numbers, the least on top.
type Heap = BinaryHeap<Reverse<(u64, u64)>>;

/// The finished methods of one session whose `updated` is still owed: a fence is armed when its
/// method ends, and fires once. Each has the method's number `k` and `at`, the length of the
/// history at the method's end. Contracts see the map from each armed `k` to its `at`.
#[derive(Drop)]
pub struct Fences {
    // As pairs (at, k).
    waiting: Heap,
    // Those that some call has found reached, as pairs (k, at). Each heap has room for all fences.
    reached: Heap,
}

impl Model for Fences {
    ghost use Rattle.std.specs.BinaryHeap.{heap_items};
    ghost use Rattle.write_fence.specs.Fences.{Armed};
    ghost use Rattle.write_fence.specs.Index.{armed_in, AreWhole};

    ghost Value = { Armed };

    ghost view = { λ a. armed_in (heap_items a.waiting) (heap_items a.reached) };

    ghost invariant = { λ a. AreWhole a.waiting a.reached };
}

// Whether the least cursor has come to the end.
fn is_reached(at: u64, least: Option<u64>) -> bool
    ensures { IsTrue result ↔ IsReached least at }
{
    match least {
        None => true,
        Some(least) => at <= least,
    }
}

// Adds a pair where there is room.
fn put(heap: &mut Heap, pair: (u64, u64))
    requires room { heap_len heap.old < heap_capacity heap.old }
    requires order { IsHeap least_first (heap_items heap.old) }
    ensures order { IsHeap least_first (heap_items heap.new) }
    ensures len { heap_len heap.new ≡ heap_len heap.old + 1 }
    ensures capacity { heap_capacity heap.old ≤ heap_capacity heap.new }
    ensures items { IsPermutation (record { 0 = pair } ∷ heap_items heap.old) (heap_items heap.new) }
{
    let _ = heap.push(Reverse(pair));
}

// Takes out the least pair.
fn pop(heap: &mut Heap) -> Option<(u64, u64)>
    requires { IsHeap least_first (heap_items heap.old) }
    ensures order { IsHeap least_first (heap_items heap.new) }
    ensures len { OnSome result (heap_len heap.new + 1 ≡ heap_len heap.old) }
    ensures capacity { heap_capacity heap.new ≡ heap_capacity heap.old }
    ensures items { IfSome result (λ p. IsPermutation (heap_items heap.old) (record { 0 = p } ∷ heap_items heap.new)) }
    ensures least { IfSome result (λ p. IsUpperBound least_first (record { 0 = p }) (heap_items heap.new)) }
    ensures unchanged { IfNone result ((heap_items heap.new ≡ heap_items heap.old) × (heap_len heap.new ≡ heap_len heap.old)) }
    ensures none { IfNone result (heap_items heap.new ≡ []) }
{
    let Reverse(pair) = heap.pop()?;
    Some(pair)
}

// Takes out the pair that ends first, if its end is reached.
fn pop_reached(waiting: &mut Heap, least: Option<u64>) -> Option<(u64, u64)>
    requires { IsHeap least_first (heap_items waiting.old) }
    ensures order { IsHeap least_first (heap_items waiting.new) }
    ensures len { OnSome result (heap_len waiting.new + 1 ≡ heap_len waiting.old) }
    ensures capacity { heap_capacity waiting.new ≡ heap_capacity waiting.old }
    ensures items { IfSome result (λ p. IsPermutation (heap_items waiting.old) (record { 0 = p } ∷ heap_items waiting.new)) }
    ensures reached { IfSome result (λ p. IsReached least p.0) }
    ensures unchanged { IfNone result (waiting.new ≡ waiting.old) }
    ensures none { IfNone result (All (λ p. ¬ IsReached least p.0.0) (heap_items waiting.old)) }
{
    let &Reverse((at, _)) = waiting.peek()?;
    if !is_reached(at, least) {
        return None;
    }
    let Reverse(pair) = waiting.pop()?;
    Some(pair)
}

// Moves all fences that are reached.
fn move_reached(waiting: &mut Heap, reached: &mut Heap, least: Option<u64>)
    requires { AreWhole waiting.old reached.old }
    ensures whole { AreWhole waiting.new reached.new }
    ensures same { IsPermutation (fences_in (heap_items waiting.old) (heap_items reached.old))
        (fences_in (heap_items waiting.new) (heap_items reached.new)) }
    ensures none { All (λ p. ¬ IsReached least p.0.0) (heap_items waiting.new) }
{
    while let Some((at, k)) = pop_reached(waiting, least) {
        put(reached, (k, at));
    }
}

// Takes out the least number whose end is reached. Those before it wait again.
fn pop_least(waiting: &mut Heap, reached: &mut Heap, least: Option<u64>) -> Option<u64>
    requires whole { AreWhole waiting.old reached.old }
    requires none { All (λ p. ¬ IsReached least p.0.0) (heap_items waiting.old) }
    ensures whole { AreWhole waiting.new reached.new }
    ensures same { IfNone result (IsPermutation (fences_in (heap_items waiting.old) (heap_items reached.old))
        (fences_in (heap_items waiting.new) (heap_items reached.new))) }
    ensures none { IfNone result (All (λ f. ¬ IsReached least f.1) (fences_in (heap_items waiting.new) (heap_items reached.new))) }
    ensures taken { IfSome result (λ k. IsLeastOf least k (fences_in (heap_items waiting.old) (heap_items reached.old))
        (fences_in (heap_items waiting.new) (heap_items reached.new))) }
{
    while let Some((k, at)) = pop(reached) {
        if is_reached(at, least) {
            return Some(k);
        }
        put(waiting, (at, k));
    }
    None
}

impl Fences {
    /// No fence is armed.
    pub fn new(alloc: Global) -> Self
        ensures { result ≡ [] }
    {
        Fences {
            waiting: BinaryHeap::new(alloc),
            reached: BinaryHeap::new(alloc),
        }
    }

    /// The numbers strictly rise in the map.
    pub fn known(&self)
        ensures { map_of.IsSorted nat_cmp self.now }
    {
        let _ = &self.waiting;
    }

    /// Arms the fence of method `k`, which ended when the history had the length `at`.
    pub fn arm(&mut self, k: u64, at: u64) -> Result<(), Mem>
        requires { map_of.at nat_cmp self.old k ≡ None }
        ensures ok { OnOk result (self.new ≡ map_of.set nat_cmp self.old k (Some at)) }
        ensures err { OnErr result (self.new ≡ self.old) }
    {
        self.waiting.reserve(self.reached.len() + 1)?;
        self.reached.reserve(self.waiting.len() + 1)?;
        put(&mut self.waiting, (at, k));
        Ok(())
    }

    /// Takes out the next fence that fires, and answers its method's number. `least` is the least
    /// cursor of the loaded subscriptions, `None` where there are none, and `opening` whether one is
    /// opened that is neither loaded nor closed. To fire all of n fences, one after another, takes
    /// n log n steps, and a call after that answers at once, as long as `least` does not fall: a
    /// lower `least` sends fences that an earlier call found reached back to those that wait.
    pub fn fired(&mut self, least: Option<u64>, opening: bool) -> Option<u64>
        ensures none { IsNone result ↔ (IsTrue opening ⊎ ((k : ℕ) → ¬ CanFire self.old least k)) }
        ensures least { IfSome result (IsLeastToFire self.old least) }
        ensures unchanged { IfNone result (self.new ≡ self.old) }
        ensures taken { IfSome result (λ k. self.new ≡ map_of.set nat_cmp self.old k None) }
    {
        if opening {
            return None;
        }
        move_reached(&mut self.waiting, &mut self.reached, least);
        pop_least(&mut self.waiting, &mut self.reached, least)
    }
}
