// Units at the limits, made byte by byte where they fit. Each function answers where its unit ends.
ghost use Rattle.std.specs.Prelude.{◌≤◌, ◌^◌};

use super::page::Page;
use ir::expr::{CODE_AS_REF, CONST_BOOL, ExprKind};
use ir::stmt::StmtKind;

fn byte(v: usize) -> u8 {
    (v % 256) as u8
}

// A unit's front and the length of its block.
fn front(out: &mut [u8], body: usize) -> Page<'_>
    requires { body ≤ 2 ^ 40 }
{
    let mut page = Page::new(out, 0);
    page.put(1);
    page.put_u32(body + 5);
    page.put(0);
    page.put_u32(body);
    page
}

impl Page<'_> {
    // The last four bytes of a number.
    fn put_u32(&mut self, v: usize) {
        self.word(&v.to_be_bytes()[4..]);
    }

    fn zeros(&mut self, count: usize) {
        for _ in 0..count {
            self.put(0);
        }
    }

    // A node's length and kind.
    fn head(&mut self, length: usize, kind: u8) {
        self.put_u32(length);
        self.put(kind);
    }

    // Nodes of five bytes each.
    fn bare(&mut self, count: usize, kind: u8) {
        for _ in 0..count {
            self.head(1, kind);
        }
    }

    // A call of AsRef on a null, which is a value: 22 bytes.
    fn as_ref(&mut self) {
        self.head(18, ExprKind::IntrinsicCall as u8);
        self.put(CODE_AS_REF);
        self.put(0);
        self.put(1);
        self.put_u32(0);
        self.put_u32(6);
        self.head(2, ExprKind::Null as u8);
        self.put(0);
    }
}

// A block of so many Returns, of six bytes, and so many Breaks, of five.
pub fn flat(out: &mut [u8], returns: u8, breaks: u32) -> usize {
    let first = usize::from(returns);
    let second = breaks as usize;
    let mut page = front(out, 6 * first + 5 * second);
    for _ in 0..first {
        page.head(2, StmtKind::Return as u8);
        page.put(0);
    }
    page.bare(second, StmtKind::Break as u8);
    page.at()
}

// So many Blocks, one in another, and a Break in the last.
pub fn blocks(out: &mut [u8], count: u16) -> usize {
    let depth = usize::from(count);
    let mut page = front(out, 9 * depth + 5);
    for inner in (0..depth).rev() {
        page.head(9 * inner + 10, StmtKind::Block as u8);
        page.put_u32(9 * inner + 5);
    }
    page.bare(1, StmtKind::Break as u8);
    page.at()
}

// An expression statement: so many DynCasts, one in another, and a Nop in the last.
pub fn casts(out: &mut [u8], count: u16) -> usize {
    let depth = usize::from(count);
    let mut page = front(out, 10 * depth + 10);
    page.head(10 * depth + 6, StmtKind::Expr as u8);
    for inner in (0..depth).rev() {
        page.head(10 * inner + 11, ExprKind::DynCast as u8);
        page.zeros(5);
    }
    page.bare(1, ExprKind::Nop as u8);
    page.at()
}

// An expression statement: a call of a function with so many parameters, up to its arguments, which take so many bytes.
fn call_front(out: &mut [u8], params: u8, length: usize) -> Page<'_>
    requires { length ≤ 2 ^ 32 }
{
    let marked = usize::from(params);
    let mut page = front(out, marked + length + 26);
    page.head(marked + length + 22, StmtKind::Expr as u8);
    page.head(marked + length + 17, ExprKind::FreeCall as u8);
    page.zeros(11);
    page.put(params);
    page.zeros(marked);
    page.put_u32(length);
    page
}

// Such a call with so many Nops as arguments.
pub fn call(out: &mut [u8], params: u8, args: u16) -> usize {
    let given = usize::from(args);
    let mut page = call_front(out, params, 5 * given);
    page.bare(given, ExprKind::Nop as u8);
    page.at()
}

// A Branches statement with so many branches, each with a Nop for its condition and an empty block: two labels more than branches.
pub fn branches(out: &mut [u8], count: u32) -> usize {
    let made = count as usize;
    let mut page = front(out, 9 * made + 10);
    page.head(9 * made + 6, StmtKind::Branches as u8);
    page.put_u32(9 * made);
    for _ in 0..made {
        page.head(1, ExprKind::Nop as u8);
        page.put_u32(0);
    }
    page.put(0);
    page.at()
}

// So many Whiles, one in another, each with a Nop for its condition, and a Break in the last.
pub fn whiles(out: &mut [u8], count: u16) -> usize {
    let depth = usize::from(count);
    let mut page = front(out, 14 * depth + 5);
    for inner in (0..depth).rev() {
        page.head(14 * inner + 15, StmtKind::While as u8);
        page.bare(1, ExprKind::Nop as u8);
        page.put_u32(14 * inner + 5);
    }
    page.bare(1, StmtKind::Break as u8);
    page.at()
}

// A While on `false` with so many Nop statements.
pub fn while_nops(out: &mut [u8], count: u32) -> usize {
    let nops = count as usize;
    let mut page = front(out, 10 * nops + 16);
    page.head(10 * nops + 12, StmtKind::While as u8);
    page.head(3, ExprKind::Const as u8);
    page.put(byte(CONST_BOOL));
    page.put(0);
    page.put_u32(10 * nops);
    for _ in 0..nops {
        page.head(6, StmtKind::Expr as u8);
        page.head(1, ExprKind::Nop as u8);
    }
    page.at()
}

// An expression statement: a Construct with so many Nops as arguments.
pub fn construct(out: &mut [u8], count: u16) -> usize {
    let given = usize::from(count);
    let mut page = front(out, 5 * given + 18);
    page.head(5 * given + 14, StmtKind::Expr as u8);
    page.head(5 * given + 9, ExprKind::Construct as u8);
    page.put_u32(0);
    page.put_u32(5 * given);
    page.bare(given, ExprKind::Nop as u8);
    page.at()
}

// A call whose arguments are so many Nops and then one that is flagged, with as many parameters.
pub fn flagged(out: &mut [u8], index: u8) -> usize {
    let before = usize::from(index);
    let mut page = call_front(out, byte(before + 1), 5 * before + 22);
    page.bare(before, ExprKind::Nop as u8);
    page.as_ref();
    page.at()
}
