#![tactic(auto)]
// Makes the calls of a recorded list again, and compares the answers with those that were recorded
// (compare/RECORD.md). The list is the file `answers.bin`.
ghost use Rattle.io.specs.Counts.{IsPrefixLen};

use call::CALLS;
use recorded_lists::list::number;
use recorded_words::decode;
use std::rt::Files;
use std::{fs, io};
use streams::read_full;

mod alike;
mod answer;
mod call;
mod census;
mod coefficients;
mod columns;
mod contexts;
mod cut;
mod floats;
mod group_layout;
mod lent;
mod orders;
mod record;
mod store;
mod transform;
mod walk;

// The bytes of the list, none where it cannot be read.
fn read_file(rt: &impl Files, out: &mut [u8]) -> usize
    ensures { IsPrefixLen result out.new }
{
    match fs::open(rt, "answers.bin") {
        Ok(mut file) => read_full(&mut file, out),
        Err(_) => 0,
    }
}

// A list begins with "NETBUFF2".
fn is_list(file: &[u8], words: &[u32]) -> bool {
    file.len() % 4 == 0 && number(words, 0) == 0x4254_454e && number(words, 1) == 0x3246_4655
}

fn replay_all(rt: &impl Print, file: &[u8], words: &[u32]) -> io::Result<()> {
    if !is_list(file, words) {
        return println!(rt; "no recorded list");
    }
    let mut records = 0;
    for call in CALLS {
        records = walk::replay_call(rt, file, words, call)?;
    }
    println!(rt; "{records} records")
}

fn main(rt: HostRuntime) -> io::Result<()> {
    let mut file = [0u8; 262144];
    let mut words = [0u32; 65536];
    let n = read_file(&rt, &mut file);
    let k = decode(&file[..n], &mut words);
    replay_all(&rt, &file[..n], &words[..k])
}
