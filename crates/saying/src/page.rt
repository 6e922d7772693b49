// Lines gathered and written a page at a time. An error or a refusal is written at once (`print`): it comes before the first line of a page, or
// behind the last, once that is written.
ghost use Rattle.std.specs.Prelude.{◌≤◌};

use crate::line::{Line, said};

// How much a page holds.
const ROOM: usize = 4096;

#[derive(Clone, Copy, Debug, PartialEq, Eq)]
pub struct Page {
    text: [u8; ROOM],
    filled: usize,
    ghost in_room: { filled ≤ 4096 },
}

pub fn new_page() -> Page {
    Page {
        text: [0u8; ROOM],
        filled: 0,
    }
}

// Writes what the page holds, and empties it.
pub fn flush(page: &mut Page) {
    io::write_all(crate::STDOUT, &page.text[..page.filled]);
    page.filled = 0;
}

fn add_octet(page: &mut Page, octet: u8) {
    let n = page.filled;
    if n < ROOM {
        page.text[n] = octet;
        page.filled = n + 1;
    }
}

// Puts the line on the page; a full page is written first.
pub fn add(page: &mut Page, line: Line) {
    if crate::line::ROOM < line.at {
        return;
    }
    if ROOM < page.filled + line.at + 1 {
        flush(page);
    }
    for &octet in said(&line) {
        add_octet(page, octet);
    }
    add_octet(page, b'\n');
}
