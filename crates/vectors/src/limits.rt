// Units at the limits, lowered and resolved: what lowering counted, and the first line of the printed stage.
use super::answers::{Lent, foreseen};
use super::show;
use samples::{made, text};
use std::io;
use std::io::Write;

type Marks = [u32; 65536];

// The resolved listing of 32,761 Nops in a loop, and more.
type Code = [u8; 750000];

// A unit of `made`, with what it is made of.
#[derive(Clone, Copy)]
enum Made {
    Construct(u16),
    Flagged(u8),
    WhileNops(u32),
    Branches(u32),
    Whiles(u16),
    Blocks(u16),
    Casts(u16),
}

// The Break in Blocks alone is refused by the walk, which comes after the reading. Branches have two labels more than there are: as many as
// the tables hold by which a unit is looked at, and one more.
const CASES: [(&str, Made); 17] = [
    ("Construct with 255 arguments", Made::Construct(255)),
    ("Construct with 256 arguments", Made::Construct(256)),
    ("flagged argument at index 15", Made::Flagged(15)),
    ("flagged argument at index 16", Made::Flagged(16)),
    ("While on false, 32760 Nops", Made::WhileNops(32760)),
    ("While on false, 32761 Nops", Made::WhileNops(32761)),
    ("254 branches", Made::Branches(254)),
    ("255 branches", Made::Branches(255)),
    ("4094 branches", Made::Branches(4094)),
    ("4095 branches", Made::Branches(4095)),
    ("65534 branches", Made::Branches(65534)),
    ("65535 branches", Made::Branches(65535)),
    ("depth 200, a Break in Whiles", Made::Whiles(199)),
    ("depth 200, a Break in Blocks", Made::Blocks(199)),
    ("depth 201, a Break in Blocks", Made::Blocks(200)),
    ("depth 200, a Nop in DynCasts", Made::Casts(198)),
    ("depth 201, a Nop in DynCasts", Made::Casts(199)),
];

impl Made {
    // Into a page: where the unit ends.
    fn make(self, page: &mut [u8]) -> usize {
        match self {
            Made::Construct(args) => made::construct(page, args),
            Made::Flagged(index) => made::flagged(page, index),
            Made::WhileNops(count) => made::while_nops(page, count),
            Made::Branches(count) => made::branches(page, count),
            Made::Whiles(depth) => made::whiles(page, depth),
            Made::Blocks(depth) => made::blocks(page, depth),
            Made::Casts(depth) => made::casts(page, depth),
        }
    }
}

// The page's first n bytes as a unit, and whether looking at it says the same. Its text goes to the page: by then the unit is not needed.
fn first_line(
    rt: &impl Print,
    n: usize,
    page: &mut [u8],
    lent: Lent,
    code: &mut Code,
) -> io::Result<()> {
    let unit = text::first(page, n);
    let lowered = lent.lower(unit);
    let alike = foreseen(unit, lowered.resolve(code));
    if let Ok(c) = lowered.answer {
        show::labelled(rt, c)?;
        print!(rt; "; ")?;
    }
    let length = lowered.stage(code, page).unwrap_or(0);
    let words = text::first(page, length);
    let end = text::find(words, b'\n');
    io::writer(rt).write_all(text::first(words, end))?;
    println!(rt;
        "{}",
        if alike {
            ", as foreseen"
        } else {
            ", not as foreseen"
        }
    )
}

// The arrays stand here and not in `first_line`: the check computes with the length of a local, and of this one it runs out of stack.
fn try_unit(rt: &impl Print, made: Made, page: &mut [u8], listing: &mut [u8]) -> io::Result<()> {
    let mut marks: Marks = [0; 65536];
    let mut code: Code = [0; 750000];
    let lent = Lent {
        listing,
        marks: &mut marks,
    };
    let n = made.make(page);
    first_line(rt, n, page, lent, &mut code)
}

pub fn all(rt: &impl Print, page: &mut [u8], listing: &mut [u8]) -> io::Result<()> {
    for (name, made) in CASES {
        print!(rt; "{name}: ")?;
        try_unit(rt, made, page, listing)?;
    }
    Ok(())
}
