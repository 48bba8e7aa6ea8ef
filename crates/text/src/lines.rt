// The lines of a text, one after the other.
ghost use Rattle.std.specs.Prelude.{◌≡◌, ◌≤◌, length};
ghost use Rattle.std.specs.Iterator.{YieldsFirstRef, item_count};
ghost use Rattle.text.specs.Split.{lines, kept};
ghost use Rattle.text.specs.Left.{lines_left, kept_left};

use crate::splitting::{next_line, split_line};

// All lines.
#[derive(Drop)]
pub struct Lines<'a> {
    left: &'a [u8],
}

impl<'a> Lines<'a> {
    pub fn of(text: &'a [u8]) -> Lines<'a>
        ensures left { lines_left result ≡ lines text.now }

        // So the lines of a text in memory can be counted.
        ensures few { length (lines_left result) ≤ length text.now }
    {
        Lines { left: text }
    }
}

impl<'a> Iterator for Lines<'a> {
    type Item = &'a [u8];

    ghost next_gives = { YieldsFirstRef lines_left };

    ghost remaining = { item_count lines_left };

    fn next(&mut self) -> Option<&'a [u8]> {
        let (line, rest) = split_line(self.left)?;
        self.left = rest;
        Some(line)
    }
}

// The lines that do not start with c.
#[derive(Drop)]
pub struct KeptLines<'a> {
    left: &'a [u8],
}

impl<'a> KeptLines<'a> {
    pub fn of(text: &'a [u8]) -> KeptLines<'a>
        ensures { kept_left result ≡ kept (lines text.now) }
    {
        KeptLines { left: text }
    }
}

impl<'a> Iterator for KeptLines<'a> {
    type Item = &'a [u8];

    ghost next_gives = { YieldsFirstRef kept_left };

    ghost remaining = { item_count kept_left };

    fn next(&mut self) -> Option<&'a [u8]> {
        let (line, rest) = next_line(self.left)?;
        self.left = rest;
        Some(line)
    }
}
