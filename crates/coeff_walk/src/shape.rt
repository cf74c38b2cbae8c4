// Where a varblock stands and what it looks like: its corner x, y and how many blocks it is wide, whether it turns; 2 to the power
// `exponent` blocks.
#[derive(Clone, Copy)]
pub struct Shape {
    pub x: usize,
    pub y: usize,
    pub wide: usize,
    pub exponent: usize,
    pub turn: bool,
}
