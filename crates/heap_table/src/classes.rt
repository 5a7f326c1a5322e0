//! The class of an object.
ghost use Rattle.core_world.specs.Trees.Plans.{class_steps};
ghost use Rattle.heap_table.specs.Parts.{IsDueOn, HasMadeSteps};
ghost use Rattle.heap_table.specs.Seen.{IsOf};

use crate::call_context::CallContext;
use crate::heap::Heap;
use crate::pass::Pass;
use core_world::{Stage, WordId};

impl Heap {
    /// Finds the class of the object, at this stage of a call. The shape tells that of a declared object. For an
    /// object that a thread makes, it loads the class word, which has the class plus 1.
    #[inline(always)]
    pub fn class_of(&self, pass: &mut Pass, call: &CallContext, stage: Stage, object: u32) -> u32
        requires heap { IsOf self.now pass.old }
        requires due { IsDueOn self.now pass.old call.now.task
            (class_steps call.now stage self.now.heap.shape object) }
        ensures { HasMadeSteps self.now (class_steps call.now stage self.now.heap.shape object)
            pass.old pass.new result }
    {
        let shape = self.shape();
        if object < shape.declared() {
            return shape.class_of(object);
        }
        let word = self.load(pass, call, stage, WordId::Class { object });
        word.saturating_sub(1) as u32
    }
}
