use lent::Lent;
use std::fmt;
use std::str::from_utf8;

const SHOWN: usize = 40;

// What as many bytes take at most: a byte is written as up to four.
const ROOM: usize = 4 * SHOWN;

// Bytes of the source as text on one line: what cannot be printed behind a backslash, and at most 40 of them.
#[derive(Clone, Copy)]
pub struct Shown<'a>(pub &'a [u8]);

impl fmt::Display for Shown<'_> {
    fn fmt<W: fmt::Write>(&self, f: &mut fmt::Formatter<W>) -> fmt::Result {
        // Gathered first, since each write has its price.
        let mut room = [0; ROOM];
        let mut line = Lent {
            items: &mut room,
            used: 0,
        };
        for byte in self.0.iter().take(SHOWN) {
            escape(&mut line, *byte);
        }
        let used = line.used;
        let text = from_utf8(room.get(..used).unwrap_or(&[])).unwrap_or("");
        f.write_str("\"")?;
        f.write_str(text)?;
        f.write_str("\"")?;
        let length = self.0.len();
        if length > SHOWN {
            write!(f, " .. {length} bytes")?;
        }
        Ok(())
    }
}

fn escape(line: &mut Lent<u8>, byte: u8) {
    match byte {
        b'"' | b'\\' => {
            line.push(b'\\');
            line.push(byte);
        }
        // The library would escape `'` too.
        b' '..=b'~' => line.push(byte),
        _ => {
            for code in byte.escape_ascii() {
                line.push(code);
            }
        }
    }
}
