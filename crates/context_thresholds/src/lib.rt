#![tactic(auto)]
// Lists of thresholds, read from bits.
ghost use Rattle.std.specs.Prelude.{◌≡◌, ◌+◌, ◌-◌, ◌<◌, ◌≤◌, List, ℕ};
ghost use Rattle.bits.specs.Bits.{Bytes, Read};
ghost use Rattle.bits.specs.Reads.{bits_before, got_of};
ghost use Rattle.bits.specs.laws.Near.{Near};
ghost use Rattle.context_thresholds.specs.Thresholds.{lf_value, qf_value, read_values, read_list};
ghost use Rattle.context_thresholds.specs.laws.Steps.{thresholds_of};
ghost use Rattle.context_thresholds.specs.laws.Lists.{lf_near, qf_any};

use bits::{BitPlace, End, U32Specifier};

// A kind of threshold: how one is read.
pub trait Threshold {
    // What the bits behind so many say.
    ghost reading: { List ℕ → ℕ → Read ℕ };

    fn read(bytes: &[u8], p: BitPlace) -> Result<(u32, BitPlace), End>
        ensures { result ≡ got_of (bits_before p) (reading bytes.now (bits_before p)) };

    // At most 34 bits are one.
    ghost near: { (s : List ℕ) → Bytes s → (p : ℕ) → Near (λ (v : ℕ). Unit) (reading s p) p 34 2 };
}

// Of the LF lists: a signed number, as its bit pattern.
#[derive(Clone, Copy)]
pub struct Lf;

// Of the qf list.
#[derive(Clone, Copy)]
pub struct Qf;

// How many values a list has, the place behind it, and the values in fixed places, without a heap;
// unused places are 0.
#[derive(Clone, Copy)]
pub struct Thresholds {
    pub count: u32,
    pub next: BitPlace,
    pub values: [u32; 15],
}

impl Threshold for Lf {
    ghost reading = { lf_value };

    #[tactic(auto, using(crate::specs::laws::Steps::by_value, crate::specs::laws::Steps::by_end), unfolding(crate::specs::Thresholds::lf_value))]
    fn read(bytes: &[u8], p: BitPlace) -> Result<(u32, BitPlace), End> {
        let d0 = U32Specifier { offset: 0, bits: 4 };
        let d1 = U32Specifier {
            offset: 16,
            bits: 8,
        };
        let d2 = U32Specifier {
            offset: 272,
            bits: 16,
        };
        let d3 = U32Specifier {
            offset: 65808,
            bits: 32,
        };
        let (u, next) = bits::read_u32(bytes, p, d0, d1, d2, d3)?;
        Ok((coded_numbers::unpack_signed(u), next))
    }

    ghost near = { lf_near };
}

impl Threshold for Qf {
    ghost reading = { qf_value };

    #[tactic(auto, using(crate::specs::laws::Steps::by_value, crate::specs::laws::Steps::by_end, crate::specs::laws::Lists::qf_u32_le), unfolding(crate::specs::Thresholds::qf_value))]
    fn read(bytes: &[u8], p: BitPlace) -> Result<(u32, BitPlace), End> {
        let d0 = U32Specifier { offset: 0, bits: 2 };
        let d1 = U32Specifier { offset: 4, bits: 3 };
        let d2 = U32Specifier {
            offset: 12,
            bits: 5,
        };
        let d3 = U32Specifier {
            offset: 44,
            bits: 8,
        };
        let (u, next) = bits::read_u32(bytes, p, d0, d1, d2, d3)?;
        Ok((1 + u, next))
    }

    ghost near = { qf_any };
}

// The bits end in a value at p of a list that starts at start.
fn short_list(start: BitPlace, p: BitPlace, short: End) -> End
    requires { (bits_before start ≤ bits_before p) × (bits_before p ≤ bits_before start + 514) × (short.taken ≤ 2) }
    ensures { result.taken ≡ bits_before p - bits_before start + short.taken }
{
    let before = p.bits_read().wrapping_sub(start.bits_read());
    End {
        taken: before as u32 + short.taken,
    }
}

// n values one after the other, of a list that starts at start.
fn read_values<T: Threshold>(
    bytes: &[u8],
    start: BitPlace,
    from: BitPlace,
    n: u32,
) -> Result<Thresholds, End>
    requires { (n ≤ 15) × (from.bit < 8) × (bits_before from ≡ bits_before start + 4) }
    ensures { result ≡ thresholds_of (bits_before start) (read_values (T.reading bytes.now) n (bits_before from)) }
{
    let end = n as usize;
    let mut values = [0u32; 15];
    let mut next = from;
    for k in 0..end {
        match T::read(bytes, next) {
            Err(short) => return Err(short_list(start, next, short)),
            Ok((value, behind)) => {
                values[k] = value;
                next = behind;
            }
        }
    }
    Ok(Thresholds {
        count: n,
        next,
        values,
    })
}

// Four bits give the length.
#[tactic(auto, using(crate::specs::laws::Halfway::list_short))]
pub fn read_list<T: Threshold>(bytes: &[u8], p: BitPlace) -> Result<Thresholds, End>
    ensures { result ≡ thresholds_of (bits_before p) (read_list bytes.now (T.reading bytes.now) (bits_before p)) }
{
    let (n, next) = bits::read_bits(bytes, p, 4)?;
    read_values::<T>(bytes, p, next, n)
}
