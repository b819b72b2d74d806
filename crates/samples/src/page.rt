// Bytes, one after another, in a lent buffer.
ghost use Rattle.std.specs.Prelude.{◌≡◌, [], ◌∷◌};
ghost use Rattle.samples.specs.Written.{Written, place_of, bytes_of, buffer_of};

// The buffer, and the place where the next byte goes. Bytes that do not fit are left out.
// In this it differs from print's Page, which counts them, since there an empty buffer gives a text's length: this place stops at the end.
#[derive(Drop)]
pub struct Page<'a> {
    out: &'a mut [u8],
    at: usize,
}

impl Page<'_> {
    // From a place on.
    pub fn new(out: &mut [u8], at: usize) -> Page<'_>
        ensures start { (place_of result ≡ at) × (bytes_of result ≡ out.old) }
        ensures buffer { buffer_of result ≡ out.entry.ghost_name }
    {
        Page { out, at }
    }

    pub fn at(&self) -> usize
        ensures { result ≡ place_of self.now }
    {
        self.at
    }

    pub fn put(&mut self, b: u8)
        ensures { Written (b ∷ []) self.old self.new }
    {
        if self.at < self.out.len() {
            self.out[self.at] = b;
            self.at += 1;
        }
    }

    pub fn word(&mut self, text: &[u8])
        ensures { Written text.now self.old self.new }
    {
        for &b in text {
            self.put(b);
        }
    }
}
