// What the tables say of a byte, beside what the tag of that byte says; numbers at the end of a slice.
use instr::tables::Row;
use instr::tag::Tag;
use instr::{numbers, tables};
use std::io;

// The fields of a byte that is no tag.
const NO_FIELDS: Row = Row {
    small: 0,
    first: 0,
    second: 0,
    line: 0,
    flags: 0,
    value: 0,
};

// How many bytes have the size of their tag, or 0 where there is none.
fn sizes_agree() -> usize {
    (0..=u8::MAX)
        .filter(|&byte| tables::size_of(byte) == Tag::try_from(byte).map_or(0, |tag| tag.size()))
        .count()
}

// How many have the row of their tag, or no fields where there is none.
fn rows_agree() -> usize {
    (0..=u8::MAX)
        .filter(|&byte| tables::row_of(byte)
            == Tag::try_from(byte).map_or(NO_FIELDS, |tag| tag.row()))
        .count()
}

// How many of the first 20 numbers have a default tag that its byte converts back to, or none.
fn defaults_agree() -> usize {
    (0..20)
        .map(|k| tables::default_tag(k))
        .filter(|&tag| tag == tag.and_then(|t| Tag::try_from(t.byte()).ok()))
        .count()
}

// The sizes of all tags together.
fn total_size() -> u32 {
    let mut sum = 0;
    for byte in 0..=u8::MAX {
        sum += u32::from(tables::size_of(byte));
    }
    sum
}

fn say_default(rt: &impl Print, k: usize) -> io::Result<()> {
    match tables::default_tag(k) {
        Some(tag) => println!(rt; "default {k} {}", tag.byte()),
        None => println!(rt; "default {k} no value"),
    }
}

pub fn run_tables(rt: &impl Print) -> io::Result<()> {
    println!(rt; "sizes agree {}", sizes_agree())?;
    println!(rt; "rows agree {}", rows_agree())?;
    println!(rt; "default tags agree {}", defaults_agree())?;
    say_default(rt, 16)?;
    say_default(rt, 17)?;
    println!(rt; "size {}", total_size())
}

// Numbers in nine bytes: the last that is there whole, the next, and past the end.
pub fn run_numbers(rt: &impl Print) -> io::Result<()> {
    let s = [1u8, 2, 3, 4, 5, 6, 7, 8, 9];
    println!(rt; "byte at 8 {}", numbers::byte_at(&s, 8))?;
    println!(rt; "byte at 9 {}", numbers::byte_at(&s, 9))?;
    println!(rt; "u16 at 7 {}", numbers::u16_at(&s, 7))?;
    println!(rt; "u16 at 8 {}", numbers::u16_at(&s, 8))?;
    println!(rt; "u32 at 5 {}", numbers::u32_at(&s, 5))?;
    println!(rt; "u32 at 6 {}", numbers::u32_at(&s, 6))?;
    println!(rt; "u64 at 1 {}", numbers::u64_at(&s, 1))?;
    println!(rt; "u64 at 2 {}", numbers::u64_at(&s, 2))?;
    println!(rt; "u64 at the last place {}", numbers::u64_at(&s, usize::MAX))
}
