#![tactic(auto)]
// C interface: reads of the bit reader, one at a time.
ghost use Rattle.std.specs.Prelude.{◌≡◌, min};
ghost use Rattle.refusal.specs.Said.{said_at};
ghost use Rattle.refusal.specs.Handed.{with, handed};
ghost use Rattle.bits.specs.Bits.{read_bits, read_u32};
ghost use Rattle.bits.specs.Reads.{got_of};
ghost use Rattle.coded_numbers.specs.Signed.{unpack_signed};
ghost use Rattle.c_reads.specs.Reader.{results, answered, bits_at, choice};

use bits::{BitPlace, End, U32Specifier};
use refusal::Refusal;

// The value and the place behind it, or the refusal and the bits that the read took; value and place
// then stay as they were.
fn hand_out(
    got: Result<(u32, BitPlace), End>,
    value: &mut u32,
    next_byte: &mut usize,
    next_bit: &mut u32,
    taken: &mut u32,
) -> u32
    ensures { with (said_at result taken.new 0) (results value.new next_byte.new next_bit.new)
        ≡ handed (answered got) (results value.old next_byte.old next_bit.old) }
{
    match got {
        Ok((v, next)) => {
            *value = v;
            *next_byte = next.byte;
            *next_bit = next.bit;
            *taken = 0;
            0
        }
        Err(end) => {
            let said = Refusal::BitsEnd(end.taken as usize).numbers();
            *taken = end.taken;
            said.number
        }
    }
}

#[unsafe(no_mangle)]
pub extern "C" fn netbuff_read_bits(
    bytes: &[u8],
    byte: usize,
    bit: u32,
    n: u32,
    value: &mut u32,
    next_byte: &mut usize,
    next_bit: &mut u32,
    taken: &mut u32,
) -> u32
    ensures { with (said_at result taken.new 0) (results value.new next_byte.new next_bit.new)
        ≡ handed (answered (got_of (bits_at byte bit) (read_bits bytes.now (bits_at byte bit) (min n 32))))
        (results value.old next_byte.old next_bit.old) }
{
    let got = bits::read_bits(bytes, BitPlace { byte, bit }, n);
    hand_out(got, value, next_byte, next_bit, taken)
}

// The four choices are lent as pairs of an offset and a number of bits.
#[unsafe(no_mangle)]
pub extern "C" fn netbuff_read_u32(
    bytes: &[u8],
    byte: usize,
    bit: u32,
    choices: &[u32; 8],
    value: &mut u32,
    next_byte: &mut usize,
    next_bit: &mut u32,
    taken: &mut u32,
) -> u32
    ensures { with (said_at result taken.new 0) (results value.new next_byte.new next_bit.new)
        ≡ handed (answered (got_of (bits_at byte bit)
        (read_u32 bytes.now (bits_at byte bit) (choice choices.now 0) (choice choices.now 1) (choice choices.now 2) (choice choices.now 3))))
        (results value.old next_byte.old next_bit.old) }
{
    let d0 = U32Specifier {
        offset: choices[0],
        bits: choices[1],
    };
    let d1 = U32Specifier {
        offset: choices[2],
        bits: choices[3],
    };
    let d2 = U32Specifier {
        offset: choices[4],
        bits: choices[5],
    };
    let d3 = U32Specifier {
        offset: choices[6],
        bits: choices[7],
    };
    let got = bits::read_u32(bytes, BitPlace { byte, bit }, d0, d1, d2, d3);
    hand_out(got, value, next_byte, next_bit, taken)
}

#[unsafe(no_mangle)]
pub extern "C" fn netbuff_unpack_signed(u: u32) -> u32
    ensures { result ≡ unpack_signed u }
{
    coded_numbers::unpack_signed(u)
}
