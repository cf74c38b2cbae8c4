// What of a varblock no symbol decides.
use coeff_walk::shape::Shape;

// Corner, size and turn, the order's number, and the block contexts of channels 1, 0, 2.
#[derive(Clone, Copy)]
pub struct Plan {
    pub shape: Shape,
    pub order: usize,
    pub block_contexts: [usize; 3],
}
