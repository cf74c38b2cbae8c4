// Floats of their bit patterns. Every NaN is one value.
pub(crate) fn of_pattern(b: u32) -> f32 {
    if b % 0x8000_0000 / 0x80_0000 != 255 {
        return f32::from_bits(b);
    }
    if b % 0x80_0000 == 0 {
        return f32::from_bits(b);
    }
    0.0 / 0.0
}
