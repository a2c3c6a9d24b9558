// Standard input, byte by byte: a buffer that is filled anew when it is used up, four times at most. With a buffer of 65,536 bytes
// these are the first 262,144 bytes.
ghost use Rattle.std.specs.Prelude.{◌+◌, ◌-◌, ◌*◌, ◌≤◌, IfSome, length};
ghost use Rattle.std.specs.Iterator.{at_most};

use std::iter::once;

// No input has more bytes, nor more lines.
pub const MAX_BYTES: usize = 262144;

// The buffer's next byte, where its bytes end, and how often it may still be filled. No list: reading fills a buffer that is lent whole.
#[derive(Clone, Copy)]
pub struct Input {
    buffer: [u8; 65536],
    at: usize,
    end: usize,
    fills: usize,
    ghost in_buffer: { end ≤ 65536 },
}

impl Input {
    pub fn new() -> Input {
        Input {
            buffer: [0; 65536],
            at: 0,
            end: 0,
            fills: 4,
        }
    }

    // The next line, which stands at the start of `line` then, without its LF. Of a longer one only the start is kept; no form is as
    // long as that.
    pub fn read_line<'a>(&mut self, line: &'a mut [u8]) -> Option<&'a [u8]> {
        let first = self.next()?;
        let mut length = 0;
        for byte in once(first).chain(self).take_while(|byte| *byte != b'\n') {
            length = put(line, length, byte);
        }
        Some(&line[..length])
    }

    // The next lines, with each LF, or those that are left. They may have no room.
    pub fn read_lines(&mut self, text: &mut [u8], count: usize) -> Option<usize>
        ensures { IfSome result (λ n. n ≤ length text.new) }
    {
        let mut left = count;
        let mut length = 0;
        let mut fits = true;
        // Bytes come until so many lines have ended.
        while 0 < left
            && let Some(byte) = self.next()
        {
            fits = length < text.len();
            length = put(text, length, byte);
            if byte == b'\n' {
                left -= 1;
            }
        }
        fits.then_some(length)
    }
}

// Puts a byte where there is room, and answers where the next one goes.
fn put(text: &mut [u8], at: usize, b: u8) -> usize
    requires { at ≤ length text.old }
    ensures { result ≤ length text.new }
{
    if at == text.len() {
        return at;
    }
    text[at] = b;
    at + 1
}

impl Iterator for Input {
    type Item = u8;

    ghost remaining = { λ s. at_most (s.fills * 65536 + (s.end - s.at)) };

    fn next(&mut self) -> Option<u8> {
        if self.end <= self.at && 0 < self.fills {
            self.end = io::read_full(0, &mut self.buffer);
            self.at = 0;
            self.fills -= 1;
        }
        let byte = *self.buffer[..self.end].get(self.at)?;
        self.at += 1;
        Some(byte)
    }
}
