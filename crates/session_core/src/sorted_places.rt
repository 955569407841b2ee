//! Ascending lists of places. The first and the last place are changed in constant time.

ghost use Rattle.std.specs.Prelude.{◌≡◌, ◌<◌, ◌≤◌, ◌+◌, ◌++◌, true, [], ◌∷◌, drop, length};
ghost use Rattle.std.specs.VecDeque.{deque_capacity};
ghost use Rattle.session_core.specs.Inner.Lane.{In, Ascends, without, with_place};

use std::collections::VecDeque;

/// Takes a place out, if it is there.
pub fn take_place(places: &mut VecDeque<u64>, place: u64)
    requires { Ascends places.old.items }
    ensures items { places.new.items ≡ without place places.old.items }
    ensures capacity { deque_capacity places.new ≡ deque_capacity places.old }
{
    if is_first(places, place) {
        places.pop_front();
        return;
    }
    if let Ok(index) = places.binary_search(&place) {
        places.remove(index);
    }
}

fn is_first(places: &VecDeque<u64>, place: u64) -> bool
    ensures { result ≡ true → places.now.items ≡ place ∷ drop 1 places.now.items }
{
    match places.front() {
        Some(first) => *first == place,
        None => false,
    }
}

/// Puts a place in that is not there. There is room for it.
pub(crate) fn put_place(places: &mut VecDeque<u64>, place: u64)
    requires ascends { Ascends places.old.items }
    requires absent { In place places.old.items → ⊥ }
    requires room { length places.old.items < deque_capacity places.old }
    ensures items { places.new.items ≡ with_place place places.old.items }
    ensures capacity { deque_capacity places.old ≤ deque_capacity places.new }
{
    if let Err(index) = places.binary_search(&place) {
        let _ = places.insert(index, place);
    }
}

/// Takes out the first place of two lists, one after the other.
pub(crate) fn take_first(places: &mut VecDeque<u64>, others: &mut VecDeque<u64>)
    ensures taken { places.new.items ++ others.new.items ≡ drop 1 (places.old.items ++ others.old.items) }
    ensures capacity { deque_capacity places.new ≡ deque_capacity places.old }
    ensures room { deque_capacity others.new ≡ deque_capacity others.old }
{
    if places.is_empty() {
        others.pop_front();
        return;
    }
    places.pop_front();
}

/// Moves all places of a list to the front of another one. There is room for them.
pub(crate) fn move_before(places: &mut VecDeque<u64>, others: &mut VecDeque<u64>)
    requires { length places.old.items + length others.old.items ≤ deque_capacity others.old }
    ensures moved { others.new.items ≡ places.old.items ++ others.old.items }
    ensures empty { places.new.items ≡ [] }
    ensures capacity { deque_capacity places.new ≡ deque_capacity places.old }
    ensures room { deque_capacity others.new ≡ deque_capacity others.old }
{
    while let Some(place) = places.pop_back() {
        others.push_front_reserved(place);
    }
}
