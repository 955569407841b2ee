//! Whether parts can be those of one call.

ghost use Rattle.std.specs.Prelude.{◌≡◌, ◌<◌, ◌⊎◌, true, false, ℕ, Some, length, slice_get};
ghost use Rattle.std.specs.List.{list_all};
ghost use Rattle.session_core.specs.Part.{PartState, is_waiting, have_slot};
ghost use Rattle.session_core.specs.State.{AreApart};
ghost use Rattle.session_machine.specs.Begun.{HaveRequests};
ghost use Rattle.session_machine.specs.Ties.{is_ordered, AreOrdered, AreFree};

use session_core::PartOrder;
use session_machine::Part;

/// Whether parts can be those of one call: each has a request and waits, no two have one slot, and each
/// is free of the order or none is.
pub fn can_begin(parts: &[Part]) -> bool
    ensures some { result ≡ true → HaveRequests parts.now }
    ensures waiting { result ≡ true → list_all (λ p. is_waiting p.phase) parts.now ≡ true }
    ensures apart { result ≡ true → AreApart parts.now }
    ensures alike { result ≡ true → AreOrdered parts.now ⊎ AreFree parts.now }
{
    have_requests(parts)
        && are_waiting(parts)
        && are_apart(parts)
        && (are_ordered(parts) || are_free(parts))
}

fn have_requests(parts: &[Part]) -> bool
    ensures { result ≡ true → HaveRequests parts.now }
{
    for at in 0..parts.len() {
        if !has_request(&parts[at]) {
            return false;
        }
    }
    true
}

fn has_request(part: &Part) -> bool
    ensures { result ≡ true → 0 < length part.now.request }
{
    part.request().len() > 0
}

fn are_waiting(parts: &[Part]) -> bool
    ensures { result ≡ list_all (λ p. is_waiting p.phase) parts.now }
{
    parts.iter().all(|part| part.is_waiting())
}

/// Whether no two parts have one slot.
fn are_apart(parts: &[Part]) -> bool
    ensures { result ≡ true → AreApart parts.now }
{
    for at in 0..parts.len() {
        if !is_apart(parts, at) {
            return false;
        }
    }
    true
}

/// Whether no part before this one has its slot.
fn is_apart(parts: &[Part], at: usize) -> bool
    requires { at < length parts.now }
    ensures { result ≡ true → (i : ℕ) (p q : PartState) → i < at → slice_get parts.now i ≡ Some p
        → slice_get parts.now at ≡ Some q → have_slot p.order q.order ≡ false }
{
    for before in 0..at {
        if have_slot(parts[before].order(), parts[at].order()) {
            return false;
        }
    }
    true
}

fn have_slot(one: PartOrder, other: PartOrder) -> bool
    ensures { result ≡ have_slot one other }
{
    match (one, other) {
        (PartOrder::OfSlot(slot), PartOrder::OfSlot(another)) => slot == another,
        _ => false,
    }
}

fn are_ordered(parts: &[Part]) -> bool
    ensures { result ≡ true → AreOrdered parts.now }
{
    for at in 0..parts.len() {
        if !is_ordered(parts[at].order()) {
            return false;
        }
    }
    true
}

fn are_free(parts: &[Part]) -> bool
    ensures { result ≡ true → AreFree parts.now }
{
    for at in 0..parts.len() {
        if is_ordered(parts[at].order()) {
            return false;
        }
    }
    true
}

fn is_ordered(order: PartOrder) -> bool
    ensures { result ≡ is_ordered order }
{
    !matches!(order, PartOrder::Free)
}
