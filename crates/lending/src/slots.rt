//! Things and the slots that they lie in.
ghost use Rattle.std.specs.Prelude.{◌≡◌, ℕ, ◌<◌, ◌≤◌, List, [], map, Some, IfSome, vec_len, vec_capacity, IsTrue, slice_index_or, slice_set, false};
ghost use Rattle.std.specs.Slots.{slots_items, slots_filled, slots_len, IsFull};
ghost use Rattle.lending.specs.inner.Kept.{LayHome};

use crate::lends::HOME;
use atomic_table::Closed;
use std::alloc::Global;

// Each thing in a slot of its own.
pub(crate) fn into_slots<T: Drop>(things: Vec<T>, mut slots: Vec<Option<T>>) -> Vec<Option<T>>
    requires empty { slots.items ≡ [] }
    requires room { vec_len things ≤ vec_capacity slots }
    ensures { result.items ≡ map Some things.items }
{
    for thing in things {
        slots.push_reserved(Some(thing));
    }
    slots
}

// The things of slots of which none is empty.
pub(crate) fn out_of_slots<T: Drop>(slots: Vec<Option<T>>, mut things: Vec<T>) -> Vec<T>
    requires empty { things.items ≡ [] }
    requires room { vec_len slots ≤ vec_capacity things }
    ensures { (xs : List T) → slots.items ≡ map Some xs → result.items ≡ xs }
{
    for slot in slots {
        if let Some(thing) = slot {
            things.push_reserved(thing);
        }
    }
    things
}

// The thing of slot i of a table at its end, where it is at home.
pub(crate) fn take_home<T: Drop>(closed: &mut Closed<Option<T>, Global>, i: usize) -> Option<T>
    requires word { (i < slots_len closed.old.words) × IsFull closed.old.words }
    requires slot { (i < slots_len closed.old.slots) × IsTrue (slice_index_or (slots_filled closed.old.slots) i false) }
    ensures home { IfSome result (λ y. LayHome (slots_items closed.old.words) (slots_items closed.old.slots) i y) }
    ensures others { (slots_items closed.new.slots ≡ slots_items closed.old.slots)
        × (slots_filled closed.new.slots ≡ slice_set (slots_filled closed.old.slots) i false)
        × (slots_len closed.new.slots ≡ slots_len closed.old.slots) × (closed.new.words ≡ closed.old.words) }
{
    let word = closed.word(i);
    let slot = closed.take(i);
    if word == HOME {
        return slot;
    }
    None
}
