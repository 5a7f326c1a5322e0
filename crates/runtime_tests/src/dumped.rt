//! Dumps of who has which object.
use crate::compare::{holds, same};
use crate::lab::Lab;
use crate::lab::Thread::{First, Second};
use core_world::{Progress, TooManyDumps};
use heap_table::Cell;
use plain_monitor::Path;
use std::test::Fail;

// Whether this object alone is owned, by this thread, and so often.
fn owns_alone(cells: &[Cell], object: usize, thread: u32, count: u32) -> bool {
    for (at, cell) in cells.iter().enumerate() {
        let (owner, held) = if at == object {
            (Some(thread), count)
        } else {
            (None, 0)
        };
        if cell.owner != owner || cell.count != held {
            return false;
        }
    }
    true
}

#[test]
fn a_dump_shows_the_owner_by_a_bias(rt: HostRuntime) -> Result<(), Fail> {
    let mut lab = Lab::begin(rt.alloc(), true)?;
    lab.resumes(&rt, First);
    lab.enters(&rt, First, 3, 1, Path::BiasTaken);
    lab.enters(&rt, First, 3, 1, Path::BiasOwn);
    lab.stops(&rt, First);
    lab.resumes(&rt, Second);
    same(&rt, lab.dump(Second), Some(Ok(Progress::Done(1))));
    let Some(shot) = lab.pass(Second).shots().first() else {
        panic!(rt; "it was taken")
    };
    same(&rt, shot.number, 1);
    holds(&rt, matches!(shot.cut.items(), [2, 0]));
    same(&rt, shot.cells.items().len(), 101);
    holds(&rt, owns_alone(shot.cells.items(), 3, 0, 2));
    same(&rt, lab.dump(Second), Some(Ok(Progress::Done(2))));
    same(&rt, lab.dump(Second), Some(Ok(Progress::Done(3))));
    same(&rt, lab.dump(Second), Some(Ok(Progress::Done(4))));
    same(&rt, lab.dump(Second), Some(Err(TooManyDumps)));
    Ok(())
}
