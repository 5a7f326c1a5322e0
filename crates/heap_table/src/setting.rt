//! What no step changes of a heap.
use crate::shape::HeapShape;

/// The shape, what the hash generators start from, and whether the heap has biases.
#[derive(Drop)]
pub struct Setting {
    pub shape: HeapShape,
    pub start: u32,
    pub biasing: bool,
}
