// What is printed, gathered so that it is written at once. Each function puts something behind what is there, and answers where it ends.
ghost use Rattle.io.specs.Counts.{IsPrefixLen};

use spelling::digit;

// Eight lines of 127 characters, of up to six octets each, and the lines before them fit.
pub type Sheet = [u8; 8192];

pub fn put(sheet: &mut Sheet, from: usize, text: &[u8]) -> usize
    ensures { IsPrefixLen result sheet.new }
{
    files::put_at(sheet, from, text)
}

pub fn put_key(sheet: &mut Sheet, from: usize, key: u8) -> usize
    ensures { IsPrefixLen result sheet.new }
{
    let name = [b'F', digit(key)];
    put(sheet, from, &name)
}

// A language, with what stands behind it.
pub fn put_language(sheet: &mut Sheet, from: usize, language: u16, behind: &[u8]) -> usize
    ensures { IsPrefixLen result sheet.new }
{
    let mut text = [0u8; 8];
    let n = spelling::spell_language(language, &mut text);
    let at = put(sheet, from, b"language ");
    let at = put(sheet, at, &text[..n]);
    put(sheet, at, behind)
}

pub fn put_text(sheet: &mut Sheet, from: usize, text: &[u8]) -> usize
    ensures { IsPrefixLen result sheet.new }
{
    let mut spelled = [0u8; 762];
    let n = spelling::spell_text(text, &mut spelled);
    put(sheet, from, &spelled[..n])
}

// An octet in hexadecimal, behind a space; 0 for one that is not there.
fn put_octet(sheet: &mut Sheet, from: usize, octets: &[u8], i: usize) -> usize
    ensures { IsPrefixLen result sheet.new }
{
    let x = octets.get(i).copied().unwrap_or(0);
    let text = [b' ', digit(x / 16), digit(x)];
    put(sheet, from, &text)
}

// A line of a name and n octets.
pub fn put_octets(
    sheet: &mut Sheet,
    from: usize,
    name: &[u8],
    octets: &[u8],
    first: usize,
    n: usize,
) -> usize
    ensures { IsPrefixLen result sheet.new }
{
    let mut at = put(sheet, from, name);
    for k in 0..n {
        at = put_octet(sheet, at, octets, first.wrapping_add(k));
    }
    put(sheet, at, b"\n")
}
