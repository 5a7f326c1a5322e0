//! The shots of dumps that a pass takes.
ghost use Rattle.std.specs.Prelude.{◌≡◌, ◌+◌, ◌<◌, ◌≤◌, [], ◌∷◌, ◌++◌, length, IfOk, vec_capacity, vec_len, All};
ghost use Rattle.heap_table.specs.Cells.{cells_shown};

use plain_monitor::List;
use std::alloc::{AllocError, Global};
use std::marker::Model;
use std::mem;

/// Who has an object's lock by its header, and how often.
#[derive(Clone, Copy, Debug, PartialEq, Eq)]
pub struct Cell {
    pub owner: Option<u32>,
    pub count: u32,
}

/// A dump: its number among those of its thread, from 1, the length of each thread's log, and a cell for each object.
#[derive(Drop)]
pub struct Shot {
    pub number: u32,
    pub cut: List<u64>,
    pub cells: List<Cell>,
}

impl Model for Shot {
    ghost use Rattle.core_world.specs.Threads.ThreadView as known;
    ghost use Rattle.heap_table.specs.Cells.{cells_shown};

    ghost Value = { known.DumpShot };

    ghost view = { λ s. record { number = s.number; cut = s.cut; cells = cells_shown s.cells } };
}

/// A shot that is being taken, with room for so many lengths and cells.
#[derive(Drop)]
pub struct Draft {
    pub threads: u32,
    pub objects: usize,
    pub cut: Vec<u64>,
    pub cells: Vec<Cell>,
    pub ghost room: { (threads ≤ vec_capacity cut) × (objects ≤ vec_capacity cells) },
}

impl Draft {
    fn new(alloc: Global, threads: u32, objects: usize) -> Result<Draft, AllocError>
        ensures { IfOk result (λ d. (d.threads ≡ threads) × (d.objects ≡ objects) × (d.cut.items ≡ [])
            × (d.cells.items ≡ [])) }
    {
        Ok(Draft {
            threads,
            objects,
            cut: Vec::with_capacity(alloc, threads as usize)?,
            cells: Vec::with_capacity(alloc, objects)?,
        })
    }
}

/// The shots that were taken, the one that is being taken, and empty ones: as many as are left of four.
#[derive(Drop)]
pub struct Shots {
    pub threads: u32,
    pub objects: usize,
    pub taken: Vec<Shot>,
    pub draft: Draft,
    spare: Vec<Draft>,
    pub ghost room: { (vec_len taken + vec_len spare ≡ 4) × (4 ≤ vec_capacity taken) },
    pub ghost fits: { (draft.threads ≡ threads) × (draft.objects ≡ objects) },
    pub ghost spares: { All (λ d. (d.threads ≡ threads) × (d.objects ≡ objects) × (d.cut.items ≡ []) × (d.cells.items ≡ [])) spare.items },
}

fn spares(alloc: Global, threads: u32, objects: usize) -> Result<Vec<Draft>, AllocError>
    ensures spares { IfOk result (λ v. All (λ d. (d.threads ≡ threads) × (d.objects ≡ objects) × (d.cut.items ≡ [])
        × (d.cells.items ≡ [])) v.items) }
    ensures count { IfOk result (λ v. vec_len v ≡ 4) }
{
    let mut spare = Vec::with_capacity(alloc, 4)?;
    for _i in 0..4usize {
        spare.push(Draft::new(alloc, threads, objects)?)?;
    }
    Ok(spare)
}

impl Shots {
    /// Makes room for four shots of so many lengths and cells, and takes none.
    ///
    /// # Errors
    ///
    /// `AllocError` where an allocation fails.
    pub fn new(alloc: Global, threads: u32, objects: usize) -> Result<Shots, AllocError>
        ensures { IfOk result (λ s. (s.threads ≡ threads) × (s.objects ≡ objects) × (s.taken.items ≡ [])
            × (s.draft.cut.items ≡ []) × (s.draft.cells.items ≡ [])) }
    {
        let taken = Vec::with_capacity(alloc, 4)?;
        let draft = Draft::new(alloc, threads, objects)?;
        let spare = spares(alloc, threads, objects)?;
        Ok(Shots {
            threads,
            objects,
            taken,
            draft,
            spare,
        })
    }

    /// Takes the draft as the next shot, with the next number, from 1.
    pub fn take(&mut self)
        requires { length self.old.taken.items < 4 }
        ensures fixed { (self.new.threads ≡ self.old.threads) × (self.new.objects ≡ self.old.objects) }
        ensures taken { self.new.taken.items ≡ self.old.taken.items
            ++ record {
              number = length self.old.taken.items + 1;
              cut = self.old.draft.cut.items;
              cells = cells_shown self.old.draft.cells.items;
            } ∷ [] }
    {
        let number = self.taken.len() as u32 + 1;
        if let Some(next) = self.spare.pop() {
            let Draft { cut, cells, .. } = mem::replace(&mut self.draft, next);
            self.taken.push_reserved(Shot {
                number,
                cut: List::of(cut),
                cells: List::of(cells),
            });
        }
    }
}
