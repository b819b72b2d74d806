// Words and numbers as text, on a page.
ghost use Rattle.std.specs.Prelude.{◌+◌, ◌≤◌, ◌<◌, ◌≡◌, [], ◌∷◌, length, set};
ghost use Rattle.std.proofs.lemmas.List.Edits.{sets};
ghost use Rattle.definitions.specs.Text as Text;
ghost use Rattle.print.specs.Values.{sign_of};
ghost use Rattle.print.specs.Writing.{far, Wrote, Field};

use crate::Form;

// A lent buffer, and the place where the next byte goes. What lies past the buffer's end is counted and not written, so that an empty
// buffer gives a text's length.
#[derive(Drop)]
pub(crate) struct Page<'a> {
    out: &'a mut [u8],
    at: usize,
}

// A digit in a base, capital above 9. Where no digit is above 9, none is looked up.
fn digit<const BASE: u64>(d: u64) -> u8
    requires { (d < BASE) × (BASE ≤ 16) }
    ensures { result ≡ Text.digit d }
{
    if BASE <= 10 {
        return b'0' + d as u8;
    }
    b"0123456789ABCDEF"[d as usize]
}

// How many decimal digits a number has. The limit is the least number with more than were counted,
// so that no division is needed.
fn places(n: u64) -> usize
    ensures { (result ≡ Text.places n) × (result ≤ 20) }
{
    let mut count = 1;
    let mut limit = 10;
    while limit <= n {
        // The next limit would not fit, and no number has more than one digit more.
        if count == 19 {
            return 20;
        }
        limit *= 10;
        count += 1;
    }
    count
}

// A byte at its place, where the buffer has it.
fn store(out: &mut [u8], at: usize, b: u8)
    ensures { out.new ≡ set out.old at b }
{
    if at < out.len() {
        out[at] = b;
    }
}

// So many digits of a number in a base, the last one first, each at its place. Past the buffer's end
// there is nothing to do.
fn set_digits<const BASE: u64>(out: &mut [u8], at: usize, count: usize, n: u64)
    requires { (0 < BASE) × (BASE ≤ 16) × (at + count < far) }
    ensures { out.new ≡ sets out.old at (Text.digits BASE count n) }
{
    if out.len() <= at {
        return;
    }
    let mut rest = n;
    for k in (0..count).rev() {
        store(out, at + k, digit::<BASE>(rest % BASE));
        rest /= BASE;
    }
}

impl Page<'_> {
    pub(crate) fn new(out: &mut [u8]) -> Page<'_>
        ensures start { (result.at ≡ 0) × (result.out.now ≡ out.old) }
        ensures buffer { result.out.ghost_name ≡ out.entry.ghost_name }
    {
        Page { out, at: 0 }
    }

    pub(crate) fn at(&self) -> usize
        ensures { result ≡ self.now.at }
    {
        self.at
    }

    // A byte.
    fn put(&mut self, b: u8)
        requires { self.old.at < far }
        ensures { Wrote (b ∷ []) self.old self.new }
    {
        store(self.out, self.at, b);
        self.at += 1;
    }

    // The bytes of a word.
    pub(crate) fn word(&mut self, text: &[u8])
        requires { self.old.at + length text.now ≤ far }
        ensures { Wrote text.now self.old self.new }
    {
        for &b in text {
            self.put(b);
        }
    }

    // So many digits of a number in a base, and the byte that ends the field.
    fn put_digits<const BASE: u64>(&mut self, count: usize, n: u64, end: u8)
        requires digits { (0 < BASE) × (BASE ≤ 16) }
        requires room { self.old.at + count < far }
        ensures { Field (count + 1) (Text.digits BASE count n) end self.old self.new }
    {
        set_digits::<BASE>(self.out, self.at, count, n);
        self.at += count;
        self.put(end);
    }

    // A number in decimal, and the byte that ends its field.
    pub(crate) fn decimal(&mut self, n: u64, end: u8)
        requires { self.old.at + 21 ≤ far }
        ensures { Field 21 (Text.decimal n) end self.old self.new }
    {
        self.put_digits::<10>(places(n), n, end);
    }

    // So many hexadecimal digits, and the byte that ends the field.
    pub(crate) fn hexadecimal(&mut self, count: usize, n: u64, end: u8)
        requires { (count ≤ 16) × (self.old.at + 17 ≤ far) }
        ensures { Field 17 (Text.hexadecimal count n) end self.old self.new }
    {
        self.put_digits::<16>(count, n, end);
    }

    // A number with its sign, and the byte that ends its field.
    fn integer(&mut self, n: i16, end: u8)
        requires { self.old.at + 22 ≤ far }
        ensures { Field 22 (Text.integer n) end self.old self.new }
    {
        if n < 0 {
            self.put(b'-');
        }
        self.decimal(u64::from(n.unsigned_abs()), end);
    }

    // A record's first or second, as the form has it, and the byte that ends its field.
    pub(crate) fn carried(&mut self, form: Form, w: u16, end: u8)
        requires { self.old.at + 22 ≤ far }
        ensures { Field 22 (Text.integer (sign_of form w)) end self.old self.new }
    {
        match form {
            Form::Labels => self.decimal(u64::from(w), end),
            Form::Distances => self.integer(w.cast_signed(), end),
        }
    }
}
