#![tactic(auto)]
// The context census as a page, docs/CENSUS.md, if there is an argument: the numbers of all contexts of coefficients, with the
// entries and the flag that each is made of and the situations of one block that have it. Without one: how many numbers occur.
use coeff_context::coefficient_context;
use coeff_context::tables::{COEFF_FREQ_CONTEXT, COEFF_NUM_NONZERO_CONTEXT};
use std::env::{Env, FillError};
use std::{fmt, io};

// From the least to the largest.
#[derive(Clone, Copy)]
struct Span {
    least: u32,
    largest: u32,
}

impl Span {
    fn of(n: u32) -> Span {
        Span {
            least: n,
            largest: n,
        }
    }

    // One that has n too.
    fn with(self, n: u32) -> Span {
        Span {
            least: self.least.min(n),
            largest: self.largest.max(n),
        }
    }
}

impl fmt::Display for Span {
    fn fmt<W: fmt::Write>(&self, f: &mut fmt::Formatter<W>) -> fmt::Result {
        if self.least < self.largest {
            write!(f, "{} to {}", self.least, self.largest)
        } else {
            write!(f, "{}", self.least)
        }
    }
}

// Remaining counts and places of situations.
#[derive(Clone, Copy)]
struct Situations {
    counts: Span,
    places: Span,
}

impl Situations {
    fn of(count: u32, place: u32) -> Situations {
        Situations {
            counts: Span::of(count),
            places: Span::of(place),
        }
    }

    fn with(self, count: u32, place: u32) -> Situations {
        Situations {
            counts: self.counts.with(count),
            places: self.places.with(place),
        }
    }
}

// Whether a situation of one block, with the flag of this number, has it.
fn has(number: u32, count: u32, place: u32) -> bool {
    match coefficient_context(1, count, place, number & 1) {
        Ok(context) => context == number,
        Err(_) => false,
    }
}

// All situations of one block that have the number, if any has.
fn with_number(number: u32) -> Option<Situations> {
    let mut all: Option<Situations> = None;
    for count in 1..64u32 {
        for place in 0..63u32 {
            if has(number, count, place) {
                all = Some(match all {
                    Some(others) => others.with(count, place),
                    None => Situations::of(count, place),
                });
            }
        }
    }
    all
}

// Entry i of a table, counted from 0; 0 where there is none.
fn entry(table: &[u8; 63], i: u32) -> u8 {
    table.get(i as usize).copied().unwrap_or(0)
}

// The row of a number with flag 0, and of the one behind it, the same with flag 1.
fn put_row(
    rt: &impl Print,
    nonzeros: &[u8; 63],
    frequencies: &[u8; 63],
    number: u32,
) -> io::Result<()> {
    if let Some(Situations { counts, places }) = with_number(number) {
        let nonzero = entry(nonzeros, counts.least.saturating_sub(1));
        let frequency = entry(frequencies, places.least);
        let with_flag = number | 1;
        println!(rt; "| {number} | {with_flag} | {nonzero} | {counts} | {frequency} | {places} |")?;
    }
    Ok(())
}

fn put_rows(rt: &impl Print) -> io::Result<()> {
    let nonzeros = COEFF_NUM_NONZERO_CONTEXT;
    let frequencies = COEFF_FREQ_CONTEXT;
    for sum in 0..229u32 {
        put_row(rt, &nonzeros, &frequencies, 2 * sum)?;
    }
    Ok(())
}

fn put_head(rt: &impl Print) -> io::Result<()> {
    println!(rt; "# The context census\n")?;
    println!(rt;
        "Each coefficient that is read has a context, a number from 0 to 457, and the cluster map gives each context its cluster. This page lists the numbers and the situations that have them, where no more coefficients are due than places remain (document 02, No. 9); a reading that comes to another situation is never accepted. Crate context_census makes the page from the call `coefficient_context`, and the gate holds it to what that program prints.\n"
    )?;
    println!(rt;
        "A situation is what decides a context: the varblock's number of blocks, a power of two up to 1,024; the remaining count n, how many coefficients that are not 0 are still due, at least 1; the place i, counted from 0 behind the low-frequency cells, with n + i at most 63 × blocks; and the flag, 1 if the symbol before was not 0, and at place 0 if the count is at most 4 × blocks.\n"
    )?;
    println!(rt;
        "- The number is 2 × (non-zero entry + frequency entry) + flag. The entries are those of the two tables of 63, by n / blocks rounded up and by i / blocks rounded down. Nothing else counts: a situation of many blocks has the number of one of one block (coeff_context `one-block`)."
    )?;
    println!(rt;
        "- Two situations have the same number exactly if they have both entries and the flag in common (`same-number`)."
    )?;
    println!(rt;
        "- No number is above 457 (`below`), and each occurs, in varblocks of every number of blocks (`each-number`), where both flags count as allowed at every place."
    )?;
    println!(rt;
        "- A row holds for each of its counts and places as far as n + i is at most 63 × blocks; then the sum of the two quotients is at most 63.\n"
    )?;
    println!(rt;
        "| Flag 0 | Flag 1 | Non-zero entry | n / blocks, rounded up | Frequency entry | i / blocks, rounded down |"
    )?;
    println!(rt; "|--|--|--|--|--|--|")
}

// How many of the numbers below 500 occur.
fn occurring() -> usize {
    (0..500u32)
        .filter(|number| with_number(*number).is_some())
        .count()
}

// Whether there is an argument behind the program's name.
fn has_argument(rt: &impl Env) -> bool {
    !matches!(rt.arg(1, &mut [0u8; 1]), Err(FillError::NotPresent))
}

fn main(rt: HostRuntime) -> io::Result<()> {
    if has_argument(&rt) {
        put_head(&rt)?;
        return put_rows(&rt);
    }
    let numbers = occurring();
    println!(rt; "{numbers} numbers occur")
}
