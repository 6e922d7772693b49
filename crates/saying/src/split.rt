// The words of a line, and its parts.
ghost use Rattle.std.specs.Prelude.{◌+◌, ◌≤◌, length};

fn is_space(octet: u8) -> bool {
    matches!(octet, b' ' | b'\t' | b'\r')
}

// What stands before the first octet of that value, and what behind it: all, and nothing, where there is none.
pub fn parted(text: &[u8], octet: u8) -> (&[u8], &[u8])
    ensures { length result.0.now + length result.1.now ≤ length text.now }
{
    match text.iter().position(|&x| x == octet) {
        Some(i) => (&text[..i], &text[i + 1..]),
        None => (text, b""),
    }
}

// Word k of a line, from 0; empty where it has fewer.
pub fn word(line: &[u8], k: usize) -> &[u8] {
    line.split(|&x| is_space(x))
        .filter(|w| !w.is_empty())
        .nth(k)
        .unwrap_or(b"")
}

// How many words a line has.
pub fn word_count(line: &[u8]) -> usize {
    line.split(|&x| is_space(x))
        .filter(|w| !w.is_empty())
        .count()
}
