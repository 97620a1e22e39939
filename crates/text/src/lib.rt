// Bytes, texts and numbers put into a lent buffer as far as there is room, and counted all the same.
// Internal: called by our crates alone, which show what each function requires.
#![tactic(auto)]

ghost use Rattle.std.specs.Prelude.{◌+◌, ◌≤◌, ◌≡◌, length, List, [], ◌∷◌};
ghost use Rattle.text.specs.Bytes.{decimal};
ghost use Rattle.text.specs.Lies.{farthest};
ghost use Rattle.text.specs.Pages.{Writes};

// A text that is put into a lent buffer as far as there is room, and counted all the same, as C's snprintf does.
#[derive(Drop)]
pub struct Page<'a> {
    pub buffer: &'a mut [u8],
    pub end: usize,
}

impl<'a> Page<'a> {
    // An empty page over a buffer.
    pub fn new(buffer: &'a mut [u8]) -> Page<'a>
        ensures lent { result.buffer ≡ buffer.entry }
        ensures front { result.end ≡ 0 }
    {
        Page { buffer, end: 0 }
    }

    // Puts a byte.
    pub fn put_byte(&mut self, byte: u8)
        requires { self.old.end ≤ farthest + 512 }
        ensures { Writes (byte ∷ []) self.old self.new }
    {
        if self.end < self.buffer.len() {
            self.buffer[self.end] = byte;
        }
        self.end += 1;
    }

    // Puts a text: at once where there is room for all of it, and else as much as there is room for.
    pub fn put_text(&mut self, text: &[u8])
        requires { self.old.end + length text.now ≤ farthest + 512 }
        ensures { Writes text.now self.old self.new }
    {
        let end = self.end + text.len();
        if end <= self.buffer.len() {
            self.buffer[self.end..end].copy_from_slice(text);
        } else if self.end < self.buffer.len() {
            let room = self.buffer.len() - self.end;
            self.buffer[self.end..].copy_from_slice(&text[..room]);
        }
        self.end = end;
    }

    // Puts a number in decimal.
    pub fn put_number(&mut self, n: u32)
        requires { self.old.end ≤ farthest + 256 }
        ensures puts { Writes (decimal n) self.old self.new }
        ensures upper_bound { self.new.end ≤ self.old.end + 10 }
    {
        if n < 10 {
            return self.put_byte(48 + n as u8);
        }
        self.put_number(n / 10);
        self.put_byte(48 + (n % 10) as u8);
    }
}
