//! How large a program may be, and so a heap and the logs of its threads: the numbers of the definitions, for code.
ghost use Rattle.std.specs.Prelude.{◌≡◌, ℕ, ◌+◌, ◌*◌};
ghost use Rattle.plain_monitor.specs.Limits.{most_threads, most_classes, most_slots, most_objects, most_made, most_in_all, most_holds, most_fuel, entries_for};

/// Threads of a program.
pub const THREADS: u32 = 16;
/// Classes of a program.
pub const CLASSES: u32 = 64;
/// Slots of an object.
pub const SLOTS: u32 = 16;
/// Objects that a program declares.
pub const OBJECTS: u32 = 4096;
/// Objects that a thread may make, besides those of the program.
pub const MADE: u32 = 1024;
/// Objects in all, those that threads may make among them.
pub const IN_ALL: u32 = OBJECTS + MADE * THREADS;
/// Holds of a thread, on all objects together.
pub const HOLDS: u32 = 64;
/// Instructions that a thread may execute.
pub const FUEL: u32 = 200_000;
/// Entries of a log besides two for each unit of fuel: an Exit for each hold, a hash and an end.
pub const LAST_ENTRIES: u32 = HOLDS + 2;

/// Each is the limit of the definitions.
pub fn code_has_the_limits()
    ensures threads { THREADS ≡ most_threads }
    ensures classes { CLASSES ≡ most_classes }
    ensures slots { SLOTS ≡ most_slots }
    ensures objects { OBJECTS ≡ most_objects }
    ensures made { MADE ≡ most_made }
    ensures in_all { IN_ALL ≡ most_in_all }
    ensures holds { HOLDS ≡ most_holds }
    ensures fuel { FUEL ≡ most_fuel }
    ensures entries { (fuel : ℕ) → 2 * fuel + LAST_ENTRIES ≡ entries_for fuel }
{}
