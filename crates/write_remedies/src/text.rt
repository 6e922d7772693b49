// The lines of a text file: `head`, `carried`, `language`, `ordered`, and a text behind its key.
ghost use Rattle.saying.specs.Lines.{InRoom};

use saying::{Line, parted, word, word_count};
use std::rt::Env;

// What can be wrong with a line.
#[derive(Clone, Copy, Debug, PartialEq, Eq)]
enum Fault {
    Name,
    Head,
    Carried,
    Language,
    Ordered,
    NotUtf8,
    Above,
    Escape,
}

// Room for nine texts of up to 128 characters: of more, or longer ones, so much is kept that they are refused.
pub type Area = [u8; 2304];

// What the lines have given so far beside octets, keys and lengths.
#[derive(Clone, Copy, Debug, PartialEq, Eq)]
pub struct Given {
    pub language: Option<u16>,
    pub ordered: Option<bool>,
    pub texts: usize,
    pub octets: usize,
}

// The first n, or all.
pub fn first<T>(s: &[T], n: usize) -> &[T] {
    &s[..n.min(s.len())]
}

fn nothing() -> Given {
    Given {
        language: None,
        ordered: None,
        texts: 0,
        octets: 0,
    }
}

fn say_fault(line: Line, fault: Fault) -> Line
    ensures { InRoom line.at result.at }
{
    match fault {
        Fault::Name => saying::say(
            line,
            b"neither head, carried, language, ordered nor F1 to F8",
        ),
        Fault::Head => saying::say(line, b"head not 6 octets, as `head 00 1F 00 00 00 00`"),
        Fault::Carried => saying::say(line, b"carried not 12 octets of two hexadecimal digits"),
        Fault::Language => saying::say(
            line,
            b"language not two letters, nor octets as `\\x00\\x1F`",
        ),
        Fault::Ordered => saying::say(line, b"ordered neither yes nor no"),
        Fault::NotUtf8 => saying::say(line, b"text not in UTF-8"),
        Fault::Above => saying::say(line, b"text with a character above U+FFFF"),
        Fault::Escape => saying::say(
            line,
            b"text with a backslash before neither another nor u and four hexadecimal digits",
        ),
    }
}

fn print_fault(rt: &impl Env, line: u64, fault: Fault) {
    let l = saying::say_argument(rt, saying::say(saying::empty(), b"error: FILE "), 1, b"");
    let l = saying::say_number(saying::say(l, b" line "), line);
    saying::print(say_fault(saying::say(l, b": "), fault));
}

// The octet that a word of two digits is.
fn octet_of(word: &[u8]) -> Option<u8> {
    match word {
        [x, y] => u8::try_from(spelling::pair(*x, *y)).ok(),
        _ => None,
    }
}

// How many words stand behind the first.
fn words_behind(line: &[u8]) -> usize {
    word_count(line).saturating_sub(1)
}

// Whether the words behind the first are as many octets as there is room for; they stand there then.
fn read_octets(line: &[u8], out: &mut [u8]) -> bool {
    for k in 0..out.len() {
        let Some(x) = octet_of(word(line, k + 1)) else {
            return false;
        };
        out[k] = x;
    }
    words_behind(line) == out.len()
}

fn read_language(g: Given, line: &[u8]) -> Result<Given, Fault> {
    let language = u16::try_from(spelling::read_language(word(line, 1))).ok();
    if words_behind(line) != 1 || language.is_none() {
        return Err(Fault::Language);
    }
    Ok(Given { language, ..g })
}

fn read_ordered(g: Given, line: &[u8]) -> Result<Given, Fault> {
    let ordered = match word(line, 1) {
        b"yes" => Some(true),
        b"no" => Some(false),
        _ => None,
    };
    if words_behind(line) != 1 || ordered.is_none() {
        return Err(Fault::Ordered);
    }
    Ok(Given { ordered, ..g })
}

fn read_words(
    g: Given,
    line: &[u8],
    head: &mut [u8; 6],
    carried: &mut [u8; 12],
) -> Result<Given, Fault> {
    if word_count(line) == 0 {
        return Ok(g);
    }
    match word(line, 0) {
        b"head" => read_octets(line, head).then_some(g).ok_or(Fault::Head),
        b"carried" => read_octets(line, carried)
            .then_some(g)
            .ok_or(Fault::Carried),
        b"language" => read_language(g, line),
        b"ordered" => read_ordered(g, line),
        _ => Err(Fault::Name),
    }
}

// The key that a word names.
fn key_of(word: &[u8]) -> Option<u8> {
    match word {
        [b'F', key @ b'1'..=b'8'] => Some(*key - b'0'),
        _ => None,
    }
}

// What stands behind a key and one space: only spaces are before the F.
fn text_of(line: &[u8]) -> &[u8] {
    match parted(line, b'F').1 {
        [_, _, text @ ..] => text,
        _ => b"",
    }
}

fn fault_of(fault: u8) -> Fault {
    match fault {
        spelling::ABOVE => Fault::Above,
        spelling::ESCAPE => Fault::Escape,
        _ => Fault::NotUtf8,
    }
}

// One text more, up to the ninth.
fn add(
    g: Given,
    key: u8,
    text: &[u8],
    keys: &mut [u8; 9],
    lengths: &mut [u16; 9],
    area: &mut Area,
) -> Given {
    let k = g.texts;
    let n = text.len();
    if 8 < k || 256 < n {
        return g;
    }
    keys[k] = key;
    lengths[k] = n as u16;
    Given {
        texts: k + 1,
        octets: files::put_at(area, g.octets, text),
        ..g
    }
}

fn read_text(
    g: Given,
    key: u8,
    text: &[u8],
    keys: &mut [u8; 9],
    lengths: &mut [u16; 9],
    area: &mut Area,
) -> Result<Given, Fault> {
    let mut units = [0u8; 256];
    let r = spelling::read_text(text, &mut units);
    if r.fault != spelling::END {
        return Err(fault_of(r.fault));
    }
    Ok(add(g, key, first(&units, r.octets), keys, lengths, area))
}

// A line without the carriage return that other systems end it with.
fn ended(line: &[u8]) -> &[u8] {
    line.strip_suffix(b"\r").unwrap_or(line)
}

fn read_line(
    g: Given,
    line: &[u8],
    head: &mut [u8; 6],
    carried: &mut [u8; 12],
    keys: &mut [u8; 9],
    lengths: &mut [u16; 9],
    area: &mut Area,
) -> Result<Given, Fault> {
    match key_of(word(line, 0)) {
        Some(key) => read_text(g, key, text_of(line), keys, lengths, area),
        None => read_words(g, parted(line, b'#').0, head, carried),
    }
}

// Behind a mark of the byte order, as some editors write it.
fn unmarked(text: &[u8]) -> &[u8] {
    text.strip_prefix(b"\xEF\xBB\xBF").unwrap_or(text)
}

// What the lines give; where one is at fault, an error line names it.
pub fn read_lines(
    rt: &impl Env,
    text: &[u8],
    head: &mut [u8; 6],
    carried: &mut [u8; 12],
    keys: &mut [u8; 9],
    lengths: &mut [u16; 9],
    area: &mut Area,
) -> Option<Given> {
    let mut g = nothing();
    let mut number: u64 = 1;
    for line in unmarked(text).split(|&x| x == b'\n') {
        match read_line(g, ended(line), head, carried, keys, lengths, area) {
            Ok(given) => g = given,
            Err(fault) => {
                print_fault(rt, number, fault);
                return None;
            }
        }
        number = number.wrapping_add(1);
    }
    Some(g)
}
