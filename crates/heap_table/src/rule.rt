//! The rule of the table: it is a sound world, which the heap comes to.
use crate::setting::Setting;
use atomic_table::{Seat, Table, TableRule};
use std::alloc::Global;
use std::marker::Model;

/// What a seat knows: what some threads know. No value of it is made.
pub struct Knows {}

impl Model for Knows {
    ghost use Rattle.std.specs.Prelude.{List, []};
    ghost use Rattle.core_world.specs.Threads.ThreadView.{ThreadView};

    ghost Value = { List ThreadView };

    ghost view = { λ m. [] };
}

pub struct WorldIsSound;

impl TableRule<(), Knows, Setting> for WorldIsSound {
    ghost use Rattle.heap_table.specs.inner.Firsts.{first_knowns};
    ghost use Rattle.heap_table.specs.inner.Ruled.{Ruled};

    ghost holds = { Ruled };

    ghost first = { λ b. first_knowns 0 b.shape.threads };
}

pub type Words = Table<(), Knows, Setting, WorldIsSound, Global>;

pub type Place = Seat<(), Knows>;
