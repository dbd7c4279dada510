//! Doing what there is to do until nothing is left: a round of phases, and rounds until one changes nothing. There is no
//! code here: each function is a law of the definitions, which its contract states.
#![tactic(auto)]

ghost use Rattle.std.specs.Prelude.{◌≡◌, ℕ, List, Bool, true};
ghost use Rattle.rounds_model.specs.Tower.{often, tower, Leads};
ghost use Rattle.rounds_model.specs.Rounds.{through, none_in, Acts};

/// A step that leads on comes to where nothing is left to do, by the tower of its measures.
pub fn towers_end<W>()
    ensures stuck { (is_kept stuck : W → Bool) (ms : List (W → ℕ)) (f : W → W) → Leads (λ w. is_kept w ≡ true) stuck ms f → (w : W) →
        is_kept w ≡ true → stuck (tower f ms w) ≡ true }
    ensures kept { (is_kept stuck : W → Bool) (ms : List (W → ℕ)) (f : W → W) → Leads (λ w. is_kept w ≡ true) stuck ms f → (w : W) →
        is_kept w ≡ true → is_kept (tower f ms w) ≡ true }
{}

/// However many steps it takes until nothing is left to do, they then lead to where the tower ends.
pub fn steps_end_at_the_tower<W>()
    ensures { (is_kept stuck : W → Bool) (ms : List (W → ℕ)) (f : W → W) → Leads (λ w. is_kept w ≡ true) stuck ms f →
        (n : ℕ) (w : W) → is_kept w ≡ true → stuck (often n f w) ≡ true → often n f w ≡ tower f ms w }
{}

/// A round of phases leads on where each of their acts does.
pub fn rounds_lead_on<W, A>()
    ensures { (is_kept : W → Bool) (can : W → A → Bool) (done : A → W → W) (ms : List (W → ℕ)) → Acts (λ w. is_kept w ≡ true) can done ms →
        (phases : W → List (W → List A)) → Leads (λ w. is_kept w ≡ true) (λ w. none_in can (phases w) w) ms (λ w. through done (phases w) w) }
{}
