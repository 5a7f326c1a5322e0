//! Laws of what is there: the objects that a program declares, and those that its threads make.

ghost use Rattle.std.specs.Prelude.{◌≡◌, ◌≢◌, ℕ, ◌<◌, ◌≤◌, false, List, length, Option, Some, None, slice_get};
ghost use Rattle.std.specs.List.{AllByRecursion};
ghost use Rattle.plain_monitor.specs.Limits.{most_made};
ghost use Rattle.plain_monitor.specs.declared.entry.Value.TheVariants.{Ref};
ghost use Rattle.plain_monitor.specs.declared.entry.Entry.{Entry};
ghost use Rattle.plain_monitor.specs.declared.entry.Entry.TheVariants.{Put, New, Print};
ghost use Rattle.plain_monitor.specs.declared.entry.Logged.{Logged};
ghost use Rattle.plain_monitor.specs.Objects.{PlainObject, new_objects, take_entry, named};
ghost use Rattle.plain_monitor.specs.History.{RisesAbove, objects_after, last_stamp, log_of, appended};
ghost use Rattle.plain_monitor.specs.Made.{Numbering, made_number, class_if_there, is_there, made_by, needs, take_made, made_after};
ghost use Rattle.plain_history.specs.Stamps.{IsAboveBounds, BoundsRise};
ghost use Rattle.plain_history.specs.Store.{HasPlaces, store_after_all, store_of_both};
ghost use Rattle.plain_history.specs.Known.{makes, MayFollow, IsMadeBelow, IsKnownAt, IsKnown, SlotsAreKnown, news, two_threads, made_late, printed_early};

/// An entry that finds what it needs after all others, and that stands after each New of what it needs, finds it at its place
/// in the order too, and then there is what is there after it, as if it stood last. So stands each entry above its thread's
/// last whose thread knows what it needs.
pub fn an_appended_entry_finds_what_it_needs()
    ensures taken_last { (n : Numbering) (logs : List (List Logged)) (t : ℕ) (l : Logged)
        (before after : List (List ℕ))
        → AllByRecursion (RisesAbove 0) logs → made_after n logs ≡ Some before
        → take_made n before t l.entry ≡ Some after → MayFollow logs t l
        → made_after n (appended logs t l) ≡ Some after }
    ensures known { (logs : List (List Logged)) (t : ℕ) (l : Logged)
        → t < length logs → last_stamp (log_of logs t) < l.stamp
        → AllByRecursion (λ o. IsMadeBelow logs o (last_stamp (log_of logs t))) (needs l.entry)
        → MayFollow logs t l }
{}

/// What is known stays known with each entry that is taken, at the same stamp and at each greater one. A thread knows the
/// object that it makes. An object that is there keeps its class. What a thread has made is what its log says.
pub fn what_is_known_stays_known()
    ensures stays { (n : Numbering) (before after : List (List ℕ)) (logs : List (List Logged)) (t : ℕ)
        (l : Logged) (o s now : ℕ)
        → AllByRecursion (RisesAbove 0) logs → t < length logs → last_stamp (log_of logs t) < l.stamp
        → take_made n before t l.entry ≡ Some after → IsKnownAt n before logs o s → s ≤ now
        → IsKnownAt n after (appended logs t l) o now }
    ensures new { (n : Numbering) (before after : List (List ℕ)) (logs : List (List Logged)) (t : ℕ) (l : Logged)
        (o now : ℕ)
        → AllByRecursion (RisesAbove 0) logs → t < length logs → last_stamp (log_of logs t) < l.stamp
        → made_after n logs ≡ Some before → take_made n before t l.entry ≡ Some after → makes l.entry ≡ Some o
        → l.stamp ≤ now → IsKnownAt n after (appended logs t l) o now }
    ensures class { (n : Numbering) (before after : List (List ℕ)) (t : ℕ) (e : Entry) (o c : ℕ)
        → take_made n before t e ≡ Some after → class_if_there n before o ≡ Some c → class_if_there n after o ≡ Some c }
    ensures own_log { (n : Numbering) (logs : List (List Logged)) (made : List (List ℕ)) (t : ℕ)
        → AllByRecursion (RisesAbove 0) logs → made_after n logs ≡ Some made
        → made_by made t ≡ news (log_of logs t) }
{}

/// An object that isn't there after a history is as it was at first: it has a free monitor, new slots and no hash.
pub fn what_is_not_there_is_new()
    ensures { (n : Numbering) (shape : List (ℕ × ℕ)) (logs : List (List Logged)) (made : List (List ℕ))
        (objects : List PlainObject) (o : ℕ)
        → made_after n logs ≡ Some made → objects_after shape logs ≡ Some objects
        → is_there n made o ≡ false → slice_get objects o ≡ slice_get (new_objects shape) o }
{}

/// What the slots of objects refer to is known at their bounds: at first, and after each entry above the bounds whose thread
/// knows what it needs, where the bounds rise. So an object's owner knows what its slots refer to.
pub fn owners_know_what_their_slots_refer_to()
    ensures at_first { (n : Numbering) (made : List (List ℕ)) (shape : List (ℕ × ℕ)) (logs : List (List Logged))
        (kept : List ℕ)
        → SlotsAreKnown n made (new_objects shape) logs kept }
    ensures stays { (n : Numbering) (made now_made : List (List ℕ)) (before after : List PlainObject)
        (logs : List (List Logged)) (kept now : List ℕ) (t : ℕ) (l : Logged)
        → AllByRecursion (RisesAbove 0) logs → IsAboveBounds before logs kept t l
        → take_entry before t l.entry ≡ Some after → take_made n made t l.entry ≡ Some now_made
        → AllByRecursion (IsKnown n made logs t) (needs l.entry) → BoundsRise after logs kept now t l
        → SlotsAreKnown n made before logs kept → SlotsAreKnown n now_made after (appended logs t l) now }
    ensures owner { (n : Numbering) (made : List (List ℕ)) (objects : List PlainObject) (logs : List (List Logged))
        (kept : List ℕ) (t p i o : ℕ) (x : PlainObject)
        → SlotsAreKnown n made objects logs kept → slice_get objects p ≡ Some x → x.monitor.owner ≡ Some t
        → slice_get x.slots i ≡ Some (Ref o) → IsKnown n made logs t o }
{}

/// An entry that finds what it needs after all others, and whose stamp is above its thread's last, may still be refused at its
/// place: a Print of an object that another thread made, by one that doesn't know the object by its stamps.
pub fn a_print_before_its_new_is_refused()
    ensures there { (before : List (List ℕ)) × (made_after two_threads made_late ≡ Some before)
        × (take_made two_threads before 1 printed_early.entry ≡ Some before) }
    ensures above { last_stamp (log_of made_late 1) < printed_early.stamp }
    ensures refused { made_after two_threads (appended made_late 1 printed_early) ≡ None }
{}

/// What no thread may make: another number than its next one, and so no number of another thread; one object more than it may
/// make; one of a class that there isn't.
pub fn no_object_is_made_out_of_turn()
    ensures next { (n : Numbering) (made : List (List ℕ)) (t o c : ℕ)
        → o ≢ made_number n t (length (made_by made t)) → take_made n made t (New o c) ≡ None }
    ensures of_another { (n : Numbering) (made : List (List ℕ)) (t u k c : ℕ)
        → t ≢ u → k < most_made → take_made n made t (New (made_number n u k) c) ≡ None }
    ensures too_many { (n : Numbering) (made : List (List ℕ)) (t o c : ℕ)
        → most_made ≤ length (made_by made t) → take_made n made t (New o c) ≡ None }
    ensures class { (n : Numbering) (made : List (List ℕ)) (t o c : ℕ)
        → n.classes ≤ c → take_made n made t (New o c) ≡ None }
{}

/// What isn't there can't be used: no entry that names it is taken, and no Print and no Put of it.
pub fn no_object_is_used_before_its_new()
    ensures named { (n : Numbering) (made : List (List ℕ)) (t : ℕ) (e : Entry) (o : ℕ)
        → named e ≡ Some o → is_there n made o ≡ false → take_made n made t e ≡ None }
    ensures handed_on { (n : Numbering) (made : List (List ℕ)) (t o : ℕ) → is_there n made o ≡ false
        → (take_made n made t (Print (Ref o)) ≡ None)
        × ((p i : ℕ) → take_made n made t (Put p i (Ref o)) ≡ None) }
{}

/// Of the two states that a history goes by, what is there and the objects, each says a part of what an entry needs and does.
/// Together they take the entries of logs exactly where one store does, in which an object may not be there, and the store is
/// theirs after them.
pub fn two_states_take_what_one_store_takes()
    ensures { (n : Numbering) (slots : ℕ) (shape : List (ℕ × ℕ)) (logs : List (List Logged)) → HasPlaces n slots shape
        → store_after_all n slots shape logs ≡ store_of_both n (made_after n logs) (objects_after shape logs) }
{}
