// A line in the making, in a buffer that is long enough for any, for there is no heap: bytes put one behind the other, and where the next one comes.
ghost use Rattle.std.specs.Prelude.{◌≡◌, [], ◌∷◌, ◌++◌, ◌+◌, ◌/◌, ◌%◌, ◌<◌, ◌≤◌, T, take};
ghost use Rattle.names.specs.Table.{documented, op_of, line_of};
ghost use Rattle.names.specs.Inner.Code.{last_of, unpacked, piece_at};

use crate::show::text;
use crate::table::{form_of, name_of};

#[derive(Clone, Copy)]
pub struct Line {
    buffer: [u8; 64],
    length: usize,
}

impl Line {
    fn push(&mut self, b: u8)
        requires { self.old.length < 64 }
        ensures { (self.new.length ≡ self.old.length + 1) × (take self.new.length self.new.buffer ≡ take self.old.length self.old.buffer ++ (b ∷ [])) }
    {
        self.buffer[self.length] = b;
        self.length += 1;
    }

    // The last byte of a packed text, if it has one.
    fn put_last(&mut self, p: u64)
        requires { self.old.length < 64 }
        ensures { (self.new.length ≤ self.old.length + 1) × (take self.new.length self.new.buffer ≡ take self.old.length self.old.buffer ++ last_of p) }
    {
        if p >= 256 {
            self.push((p % 256) as u8);
        }
    }

    // A text that is packed behind a 1: at most seven bytes.
    fn put(&mut self, p: u64)
        requires { self.old.length + 7 ≤ 64 }
        ensures { (self.new.length ≤ self.old.length + 7) × (take self.new.length self.new.buffer ≡ take self.old.length self.old.buffer ++ unpacked 7 p) }
    {
        let p1 = p / 256;
        let p2 = p1 / 256;
        let p3 = p2 / 256;
        let p4 = p3 / 256;
        let p5 = p4 / 256;
        self.put_last(p5 / 256);
        self.put_last(p5);
        self.put_last(p4);
        self.put_last(p3);
        self.put_last(p2);
        self.put_last(p1);
        self.put_last(p);
    }

    fn put_text(&mut self, o: u32, w: u32)
        requires { self.old.length + 7 ≤ 64 }
        ensures { (self.new.length ≤ self.old.length + 7) × (take self.new.length self.new.buffer ≡ take self.old.length self.old.buffer ++ piece_at o w) }
    {
        self.put(text(o, w));
    }

    // The five places of a form, one after the other: 0 is nothing.
    fn put_texts(&mut self, f: u32, w: u32)
        requires { self.old.length + 35 ≤ 64 }
        ensures { (self.new.length ≤ self.old.length + 35) × (take self.new.length self.new.buffer ≡ take self.old.length self.old.buffer ++ (piece_at (f % 32) w ++ (piece_at (f / 32 % 32) w ++ (piece_at (f / 32 / 32 % 32) w ++ (piece_at (f / 32 / 32 / 32 % 32) w ++ piece_at (f / 32 / 32 / 32 / 32 % 32) w))))) }
    {
        let f1 = f / 32;
        let f2 = f1 / 32;
        let f3 = f2 / 32;
        self.put_text(f % 32, w);
        self.put_text(f1 % 32, w);
        self.put_text(f2 % 32, w);
        self.put_text(f3 % 32, w);
        self.put_text(f3 / 32 % 32, w);
    }

    pub fn bytes(&self) -> &[u8]
        requires { self.now.length ≤ 64 }
        ensures { result.now ≡ take self.now.length self.now.buffer }
    {
        &self.buffer[..self.length]
    }
}

// The line of a documented word. 43 bytes are what the parts can come to; no line has more than 31 (proofs/Widths.antt).
pub fn spelt(w: u32) -> Line
    requires { T (documented (op_of w)) }
    ensures { (result.length ≤ 43) × (take result.length result.buffer ≡ line_of w) }
{
    let op = w / 16777216;
    let mut line = Line {
        buffer: [0; 64],
        length: 0,
    };
    line.put(name_of(op));
    line.put_texts(form_of(op), w);
    line.push(b'\n');
    line
}
