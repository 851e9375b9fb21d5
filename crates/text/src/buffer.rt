// A sheet: a lent buffer, and the place in it of the next byte. What finds no room is dropped, and the place stays at the end.
ghost use Rattle.std.specs.Prelude.{◌≡◌, [], ◌∷◌};
ghost use Rattle.text.specs.Rules.{Puts};

#[derive(Drop)]
pub struct Sheet<'a> {
    pub out: &'a mut [u8],
    pub at: usize,
}

impl<'a> Sheet<'a> {
    // At the start of a buffer.
    pub fn new(out: &'a mut [u8]) -> Self
        ensures { result ≡ record { out = out.entry; at = 0 } }
    {
        Sheet { out, at: 0 }
    }

    pub fn put(&mut self, b: u8)
        ensures { Puts self.old (b ∷ []) self.new }
    {
        if self.at < self.out.len() {
            self.out[self.at] = b;
            self.at += 1;
        }
    }

    pub fn put_all(&mut self, bytes: &[u8])
        ensures { Puts self.old bytes.now self.new }
    {
        for &b in bytes {
            self.put(b);
        }
    }
}
