// A line of output, put together in memory and written at once. What does not fit is left out.
ghost use Rattle.std.specs.Prelude.{◌≡◌, ◌≤◌, length};
ghost use Rattle.saying.specs.Lines.{InRoom};

pub const ROOM: usize = 240;

// One octet more than there is room for: the line's end. No invariant, since who makes one would have to prove it: of a line within its room each
// function gives one (`InRoom`).
#[derive(Clone, Copy, Debug, PartialEq, Eq)]
pub struct Line {
    pub at: usize,
    pub text: [u8; 241],
}

pub fn empty() -> Line
    ensures { result.at ≡ 0 }
{
    Line {
        at: 0,
        text: [0u8; 241],
    }
}

pub fn put(line: Line, octet: u8) -> Line
    ensures { InRoom line.at result.at }
{
    let mut l = line;
    let at = l.at;
    if at < ROOM {
        l.text[at] = octet;
        l.at = at + 1;
    }
    l
}

pub fn say(line: Line, text: &[u8]) -> Line
    ensures { InRoom line.at result.at }
{
    let mut l = line;
    for &octet in text {
        l = put(l, octet);
    }
    l
}

// Spaces up to a column, counted from 0.
pub fn pad(line: Line, column: usize) -> Line
    ensures { InRoom line.at result.at }
{
    let mut l = line;
    for _ in line.at..column {
        l = put(l, b' ');
    }
    l
}

pub fn say_number(line: Line, n: u64) -> Line
    ensures { InRoom line.at result.at }
{
    let mut digits = [0u8; 20];
    let k = io::decimal(n, &mut digits);
    say(line, &digits[..k])
}

// The number as the next column of a table.
pub fn say_tab(line: Line, n: u64) -> Line
    ensures { InRoom line.at result.at }
{
    say_number(put(line, b'\t'), n)
}

// The number, so that it ends at a column; behind a space where the line has come too far.
pub fn say_right(line: Line, column: usize, n: u64) -> Line
    ensures { InRoom line.at result.at }
{
    let mut digits = [0u8; 20];
    let k = io::decimal(n, &mut digits);
    say(pad(line, begin(line.at, column, k)), &digits[..k])
}

// Where so many digits begin that end at a column, at least a space behind `at`.
fn begin(at: usize, column: usize, digits: usize) -> usize {
    match column.checked_sub(digits) {
        Some(begin) if at < begin => begin,
        _ if at == 0 => 0,
        _ => at.wrapping_add(1),
    }
}

// What a line says; nothing where it claims to say more than there is room for.
pub fn said(line: &Line) -> &[u8]
    ensures { length result.now ≤ 240 }
{
    if line.at <= ROOM {
        return &line.text[..line.at];
    }
    b""
}

// The line with its end, at once.
pub fn print(line: Line) {
    let mut text = line.text;
    if line.at <= ROOM {
        text[line.at] = b'\n';
        io::write_all(crate::STDOUT, &text[..line.at + 1]);
    }
}
