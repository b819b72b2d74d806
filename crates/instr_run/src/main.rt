// The tables by byte and by tag, numbers at the end of a slice, a front at the limit; then every tag's record is written, checked and
// seen, and each byte of each record is damaged in turn. The counts are the program's own.
#![tactic(auto)]

mod forms;

ghost use Rattle.std.specs.Prelude.{◌+◌, ◌*◌, ◌^◌, ◌<◌};

use instr::records::Record;
use instr::refusals::Refusal;
use instr::{listings, numbers, records, tables};
use std::io;

// One for each tag.
const RECORDS: usize = 77;

const LENGTH: usize = listings::FRONT + Record::LENGTH * RECORDS;

// A front of so many records in five bytes of 7: whether it is written, and what stands there then.
fn run_front(rt: &impl Print, count: u32) -> io::Result<()> {
    let mut s = [7u8; 5];
    let written = listings::write_front(&mut s, count);
    println!(rt; "{count} records written {}", u8::from(written))?;
    println!(rt; "  version {}", numbers::byte_at(&s, 0))?;
    println!(rt; "  length {}", numbers::u32_at(&s, 1))
}

// A record with this tag; the bytes of the fields that it uses all differ. Every tag uses the node.
fn sample(tag: u8) -> Record {
    let row = tables::row_of(tag);
    Record {
        tag,
        small: row.small & 0x81,
        first: row.first & 0x8283,
        second: row.second & 0x8485,
        line: row.line & 0x8687,
        flags: row.flags & 0x8889,
        value: row.value & 0x8A8B8C8D8E8F9091,
        node: 0x92939495,
    }
}

// The record of a tag that the base emits, as record n: whether it is written.
fn put(out: &mut [u8], n: u32, tag: u8) -> bool
    requires { n < 2 ^ 16 }
{
    if tables::size_of(tag) == 0 {
        return false;
    }
    match out.get_mut(listings::FRONT + Record::LENGTH * n as usize..) {
        Some(part) => records::write_record(part, sample(tag)),
        None => false,
    }
}

// The records of all tags, one after the other behind the front; how many there are.
fn fill(out: &mut [u8]) -> u32 {
    let mut count = 0;
    for tag in 0..=u8::MAX {
        if put(out, count, tag) {
            count += 1;
        }
    }
    count
}

// How many tags' records are seen in their order, and read as they were written.
fn seen(s: &[u8]) -> usize {
    let mut n = 0;
    for tag in 0..=u8::MAX {
        let part = listings::view(s, n);
        if part.len() == Record::LENGTH && records::read_record(part, 0) == sample(tag) {
            n += 1;
        }
    }
    n
}

// Whether a record of 21 bytes reads as the whole one does, with a 0 for its last byte.
fn cut_reads(part: &[u8]) -> bool {
    if part.len() != Record::LENGTH {
        return false;
    }
    let whole = records::read_record(part, 0);
    let node = whole.node - whole.node % 256;
    records::read_record(&part[..21], 0) == Record { node, ..whole }
}

// How many records do so.
fn cut(s: &[u8]) -> usize {
    (0..RECORDS)
        .filter(|&n| cut_reads(listings::view(s, n)))
        .count()
}

// Whether a test holds of a listing with the byte at `at` one higher. The byte is put back.
fn damaged<F: FnOnce(&[u8]) -> bool>(s: &mut [u8], at: usize, test: F) -> bool
    requires { F.IsAlwaysCallable test }
{
    if s.len() <= at {
        return false;
    }
    let old = s[at];
    s[at] = old.wrapping_add(1);
    let holds = test(s);
    s[at] = old;
    holds
}

fn is_refused(s: &[u8]) -> bool {
    listings::check_listing(s).is_err()
}

// The first byte of each record in turn, then the second, and so on.
fn damage_records(rt: &impl Print, s: &mut [u8]) -> io::Result<()> {
    for place in 0..Record::LENGTH {
        let n = (listings::FRONT + place..LENGTH)
            .step_by(Record::LENGTH)
            .filter(|&at| damaged(s, at, is_refused))
            .count();
        println!(rt; "byte {place} damaged, refused {n}")?;
    }
    Ok(())
}

// How many bytes of records, damaged one at a time, leave a record that is good by itself just where the listing is taken.
fn all_alone(s: &mut [u8]) -> usize {
    (listings::FRONT..LENGTH)
        .filter(|&at| {
            let start = at - (at - listings::FRONT) % Record::LENGTH;
            damaged(s, at, |s| {
                records::good_record(records::read_record(s, start)) != is_refused(s)
            })
        })
        .count()
}

fn say(rt: &impl Print, text: &str, answer: Result<(), Refusal>) -> io::Result<()> {
    match answer {
        Ok(()) => println!(rt; "{text} seen"),
        Err(q) => println!(rt; "{text} {} {} {}", q.reason.number(), q.place, q.extra),
    }
}

// All tags' records, written into a listing, and then its front.
fn run_written(rt: &impl Print, s: &mut [u8]) -> io::Result<()> {
    let written = fill(s);
    println!(rt; "written {written}")?;
    say(rt, "no front", listings::view_check(s, 0))?;
    listings::write_front(s, written);
    Ok(())
}

// The listing checked, and its records seen.
fn run_seen(rt: &impl Print, s: &[u8]) -> io::Result<()> {
    println!(rt; "checked {}", listings::check_listing(s).unwrap_or(0))?;
    println!(rt; "seen {}", seen(s))?;
    println!(rt; "seen without the last byte {}", cut(s))?;
    say(rt, "first", listings::view_check(s, 0))?;
    say(rt, "last", listings::view_check(s, 76))?;
    say(rt, "past", listings::view_check(s, 77))?;
    say(rt, "far past", listings::view_check(s, 1000))
}

// The listing with one byte damaged at a time.
fn run_damaged(rt: &impl Print, s: &mut [u8]) -> io::Result<()> {
    damage_records(rt, s)?;
    let front = (0..listings::FRONT)
        .filter(|&at| damaged(s, at, is_refused))
        .count();
    println!(rt; "front bytes damaged, refused {front}")?;
    println!(rt; "damaged, a record alone decides {}", all_alone(s))?;
    println!(rt; "seen again {}", seen(s))
}

fn main(rt: HostRuntime) -> io::Result<()> {
    forms::run_tables(&rt)?;
    forms::run_numbers(&rt)?;
    run_front(&rt, 1048576)?;
    run_front(&rt, 1048577)?;
    let mut listing = [0u8; LENGTH];
    run_written(&rt, &mut listing)?;
    run_seen(&rt, &listing)?;
    run_damaged(&rt, &mut listing)
}
