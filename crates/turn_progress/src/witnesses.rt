//! Laws that what laws of turns ask for comes about. The functions do nothing.

ghost use Rattle.std.specs.Prelude.{◌≡◌, true};
ghost use Rattle.core_law.specs.Reached.{IsReachable};
ghost use Rattle.core_steps.specs.SmallWorlds.{small, running};

/// A heap of one thread comes to a world in which that thread runs. So what `a_heap_of_one_thread_has_no_others` asks for comes about.
pub fn a_heap_of_one_thread_comes_to_a_world_in_which_it_runs()
    ensures { (small.shape.threads ≡ 1) × IsReachable small running × ((running.known 0).running ≡ true) }
{}
