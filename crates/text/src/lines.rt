// Standard input, line by line. It comes in pieces, and a line may lie in several of them. (std's own reader of lines puts
// them on the heap.)
ghost use Rattle.std.specs.Prelude.{◌+◌, ◌<◌, ◌≤◌, length};

use crate::output;
use std::io;
use std::io::Read;

// The longest line, without its end.
pub const LONGEST: usize = 4096;

// What a line is read into: one byte more, so that a line that is too long shows by its length.
pub const ROOM: usize = 4097;

// What a piece is read into.
pub const PIECE: usize = 4096;

// A piece, of whose first `count` bytes those from `at` on are not yet taken.
#[derive(Clone, Copy)]
pub struct Reader {
    piece: [u8; PIECE],
    at: usize,
    count: usize,
}

impl Reader {
    pub fn new() -> Reader {
        Reader {
            piece: [0; PIECE],
            at: 0,
            count: 0,
        }
    }

    // Reads the next piece where the last is used up. At the end of the input it is empty.
    fn refill(&mut self, from: &mut impl Read) -> io::Result<()> {
        if self.count <= self.at {
            self.count = from.read(&mut self.piece)?;
            self.at = 0;
        }
        Ok(())
    }

    // What is not yet taken.
    fn rest(&self) -> &[u8]
        ensures { 0 < length result.now → self.now.at + length result.now ≤ 4096 }
    {
        self.piece.get(self.at..self.count).unwrap_or(&[])
    }

    // Reads the next line, and gives its length; the last line may lack its end. Nothing says that the input ends, so the
    // turns are counted, up to a number that no run comes to.
    pub fn read_line(
        &mut self,
        from: &mut impl Read,
        line: &mut [u8],
    ) -> io::Result<Option<usize>> {
        let mut length = 0;
        for _ in 0..u64::MAX {
            self.refill(from)?;
            let rest = self.rest();
            if rest.is_empty() {
                return Ok(if length == 0 { None } else { Some(length) });
            }
            let end = rest.iter().position(|byte| *byte == b'\n');
            let taken = end.unwrap_or(rest.len());
            length = output::put_all(line, length, &rest[..taken]);
            self.at += taken;
            if end.is_some() {
                self.at += 1;
                return Ok(Some(length));
            }
        }
        Ok(None)
    }
}
