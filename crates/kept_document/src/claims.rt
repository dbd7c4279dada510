//! The claims on one field of a document.
ghost use Rattle.std.specs.Prelude.{◌≡◌, ◌∷◌, ◌++◌, ◌==◌, [], not, filter, option_map, IfOk, OnOk, OnErr};
ghost use Rattle.ejson_value.specs.View.{view};
ghost use Rattle.merge_model.specs.Kept.{claimed, give, placed, first_value, is_empty};
ghost use Rattle.kept_document.specs.Claims.{pairs};
ghost use Rattle.kept_document.specs.Held.{keeps, changed_claims};

use ejson_value::{Mem, Value, compare, copy};
use std::alloc::Global;
use std::marker::Model;

/// A subscription that publishes a field, with its value.
#[derive(Drop)]
pub(crate) struct Claim {
    sub: u64,
    value: Value,
}

/// The claims on a field, that of the subscription which began first at the front. A claim that is
/// alone is kept plain: only those behind the first take a list. A contract sees them as pairs of a
/// subscription and its value.
#[derive(Drop)]
pub(crate) struct Claims {
    first: Option<Claim>,
    others: Vec<Claim>,
}

impl Model for Claims {
    ghost use Rattle.std.specs.Prelude.{ℕ, List};
    ghost use Rattle.value_model.specs.Val.{Val};
    ghost use Rattle.kept_document.specs.Claims.{in_order, claims_code, HasFirst};

    ghost Value = { List (ℕ × Val) };

    ghost coded = { claims_code };

    ghost view = { λ a. in_order a.first a.others.items };

    ghost invariant = { λ a. HasFirst a.first a.others.items };
}

// The subscription's value.
fn claim_in(claims: &[Claim], sub: u64) -> Option<&Value>
    ensures { option_map (λ v. view v.now) result ≡ claimed sub (pairs claims.now) }
{
    for claim in claims {
        if claim.sub == sub {
            return Some(&claim.value);
        }
    }
    None
}

// Puts copies of the claims behind the others.
fn push_all(copies: &mut Claims, claims: &[Claim]) -> Result<(), Mem>
    ensures { OnOk result (copies.new ≡ copies.old ++ pairs claims.now) }
{
    for claim in claims {
        copies.push(claim.sub, &claim.value)?;
    }
    Ok(())
}

// Puts copies of the claims behind the others, where the subscription has this value: in its place
// where it has one, else behind all others.
fn push_given(copies: &mut Claims, claims: &[Claim], sub: u64, value: &Value) -> Result<(), Mem>
    ensures { OnOk result (copies.new ≡ copies.old ++ give (pairs claims.now) sub (view value.now)) }
{
    let mut is_given = false;
    for claim in claims {
        if !is_given && claim.sub == sub {
            copies.push(sub, value)?;
            is_given = true;
        } else {
            copies.push(claim.sub, &claim.value)?;
        }
    }
    if !is_given {
        copies.push(sub, value)?;
    }
    Ok(())
}

// Puts copies of the claims behind the others, but for those of the subscription.
fn push_without(copies: &mut Claims, claims: &[Claim], sub: u64) -> Result<(), Mem>
    ensures { OnOk result (copies.new ≡ copies.old ++ filter (λ e. not (sub == e.0)) (pairs claims.now)) }
{
    for claim in claims {
        if claim.sub != sub {
            copies.push(claim.sub, &claim.value)?;
        }
    }
    Ok(())
}

impl Claims {
    pub(crate) fn new(alloc: Global) -> Claims
        ensures { result ≡ [] }
    {
        Claims {
            first: None,
            others: Vec::new(alloc),
        }
    }

    pub(crate) fn is_empty(&self) -> bool
        ensures { result ≡ is_empty self.now }
    {
        self.first.is_none()
    }

    /// The value that the client sees.
    pub(crate) fn first(&self) -> Option<&Value>
        ensures { option_map (λ v. view v.now) result ≡ first_value self.now }
    {
        match &self.first {
            None => None,
            Some(claim) => Some(&claim.value),
        }
    }

    /// The subscription's value.
    pub(crate) fn claim_of(&self, sub: u64) -> Option<&Value>
        ensures { option_map (λ v. view v.now) result ≡ claimed sub self.now }
    {
        match &self.first {
            None => None,
            Some(claim) => {
                if claim.sub == sub {
                    Some(&claim.value)
                } else {
                    claim_in(self.others.as_slice(), sub)
                }
            }
        }
    }

    // Whether the subscription has this value already, where None is no value.
    fn keeps(&self, sub: u64, value: Option<&Value>) -> bool
        ensures { result ≡ keeps sub (option_map (λ v. view v.now) value.entry) self.now }
    {
        match (self.claim_of(sub), value) {
            (None, None) => true,
            (Some(old), Some(new)) => compare(old, new).is_eq(),
            _ => false,
        }
    }

    /// One more claim, behind all others.
    pub(crate) fn push(&mut self, sub: u64, value: &Value) -> Result<(), Mem>
        ensures ok { OnOk result (self.new ≡ self.old ++ (sub, view value.now) ∷ []) }
        ensures err { OnErr result (self.new ≡ self.old) }
    {
        let value = copy(value)?;
        let claim = Claim { sub, value };
        match &self.first {
            None => self.first = Some(claim),
            Some(_) => self.others.push(claim)?,
        }
        Ok(())
    }

    // Puts copies of these claims behind the others, where the subscription has this value: in its
    // place where it has one, else behind all others.
    fn give_to(&self, copies: &mut Claims, sub: u64, value: &Value) -> Result<(), Mem>
        ensures { OnOk result (copies.new ≡ copies.old ++ give self.now sub (view value.now)) }
    {
        let Some(claim) = &self.first else {
            return copies.push(sub, value);
        };
        if claim.sub == sub {
            copies.push(sub, value)?;
            push_all(copies, self.others.as_slice())
        } else {
            copies.push(claim.sub, &claim.value)?;
            push_given(copies, self.others.as_slice(), sub, value)
        }
    }

    // A copy in which the subscription has this value: in its place where it has one, else behind all others.
    fn given(&self, alloc: Global, sub: u64, value: &Value) -> Result<Claims, Mem>
        ensures { IfOk result (λ claims. claims ≡ give self.now sub (view value.now)) }
    {
        let mut copies = Claims::new(alloc);
        self.give_to(&mut copies, sub, value)?;
        Ok(copies)
    }

    // Puts copies of these claims behind the others, but for those of the subscription.
    fn others_to(&self, copies: &mut Claims, sub: u64) -> Result<(), Mem>
        ensures { OnOk result (copies.new ≡ copies.old ++ filter (λ e. not (sub == e.0)) self.now) }
    {
        let Some(claim) = &self.first else {
            return Ok(());
        };
        if claim.sub != sub {
            copies.push(claim.sub, &claim.value)?;
        }
        push_without(copies, self.others.as_slice(), sub)
    }

    // A copy in which the subscription has none.
    fn without(&self, alloc: Global, sub: u64) -> Result<Claims, Mem>
        ensures { IfOk result (λ claims. claims ≡ filter (λ e. not (sub == e.0)) self.now) }
    {
        let mut copies = Claims::new(alloc);
        self.others_to(&mut copies, sub)?;
        Ok(copies)
    }

    /// A copy with what the subscription publishes now, where that is something else than before.
    pub(crate) fn changed(
        &self,
        alloc: Global,
        sub: u64,
        value: Option<&Value>,
    ) -> Result<Option<Claims>, Mem>
        ensures { IfOk result (λ claims. claims ≡ changed_claims sub (option_map (λ v. view v.now) value.entry) self.now) }
    {
        if self.keeps(sub, value) {
            Ok(None)
        } else {
            Ok(Some(self.placed(alloc, sub, value)?))
        }
    }

    // A copy with what the subscription publishes now, where None is nothing.
    fn placed(&self, alloc: Global, sub: u64, value: Option<&Value>) -> Result<Claims, Mem>
        ensures { IfOk result (λ claims. claims ≡ placed sub (option_map (λ v. view v.now) value.entry) self.now) }
    {
        match value {
            None => self.without(alloc, sub),
            Some(value) => self.given(alloc, sub, value),
        }
    }
}
