// Shows the remedy texts of a telegram 8.8A by their keys, or prints the text file that `write_remedies` writes it from.
#![tactic(auto)]

ghost use Rattle.io.specs.Counts.{IsPrefixLen};

mod sheet;

use files::Host;
use gateway::Remedies;
use saying::STDOUT;
use sheet::{Sheet, put, put_key, put_language, put_octets, put_text};
use words::REMEDIES;

fn help() {
    io::write_all(
        STDOUT,
        b"remedies TELEGRAM [file]

Shows the remedy texts of a telegram 8.8A, the report of code 8A08, as a desk
shows them beside its keys F1 to F8.

TELEGRAM  a file with the telegram's octets

Prints the language and whether it is the one ordered, as
`language de ordered yes`, then a line for each block in the telegram's order,
with two spaces between key and text, as `F3  Lock the door`.
A text has two octets a character (UNICODE16) and is printed in UTF-8. What
cannot be shown (control characters, halves of pairs, FFFE and FFFF) is printed
as `\\u` and four hexadecimal digits, and a backslash as two. A language that is
not two letters is printed by its octets, as `\\x00\\x1F`.
With the word `file` it prints the text file from which `write_remedies` writes
the same telegram again, with its reserve 0.

A telegram that breaks a rule gets one line that begins with `refused` and the
number of document 02:
  21 E-telegram length: under 30 octets, or over 2,110 (1,024 of another code)
  28 block runs past the end, or octets after the last
  29 field out of its range or length that disagrees, also another code
  30 key twice
A file that cannot be read gets one line that begins with `error`.
",
    );
}

// The key of block k; 0 where there is none.
fn key_of(telegram: &[u8], k: usize) -> u8 {
    match gateway::remedy_block(telegram, k) {
        Ok(Some(b)) => b.key,
        _ => 0,
    }
}

fn put_block(sheet: &mut Sheet, from: usize, telegram: &[u8], k: usize, gap: &[u8]) -> usize
    ensures { IsPrefixLen result sheet.new }
{
    let at = put_key(sheet, from, key_of(telegram, k));
    let at = put(sheet, at, gap);
    let at = put_text(sheet, at, gateway::remedy_text(telegram, k));
    put(sheet, at, b"\n")
}

// A line for each of n blocks, with a gap between key and text.
fn put_blocks(sheet: &mut Sheet, from: usize, telegram: &[u8], n: u8, gap: &[u8]) -> usize
    ensures { IsPrefixLen result sheet.new }
{
    let mut at = put(sheet, from, b"");
    for k in 0..n {
        at = put_block(sheet, at, telegram, k as usize, gap);
    }
    at
}

fn put_ordered(sheet: &mut Sheet, from: usize, ordered: u8) -> usize
    ensures { IsPrefixLen result sheet.new }
{
    let at = put(sheet, from, b"ordered ");
    if ordered == 1 {
        return put(sheet, at, b"yes\n");
    }
    put(sheet, at, b"no\n")
}

// As a desk shows it.
fn put_shown(sheet: &mut Sheet, telegram: &[u8], m: Remedies) -> usize
    ensures { IsPrefixLen result sheet.new }
{
    let at = put_language(sheet, 0, m.language, b" ");
    let at = put_ordered(sheet, at, m.ordered);
    put_blocks(sheet, at, telegram, m.count, b"  ")
}

// As a file of which it is written.
fn put_file(sheet: &mut Sheet, telegram: &[u8], m: Remedies) -> usize
    ensures { IsPrefixLen result sheet.new }
{
    let at = put_octets(sheet, 0, b"head", telegram, 0, 6);
    let at = put_octets(sheet, at, b"carried", telegram, 8, 12);
    let at = put_language(sheet, at, m.language, b"\n");
    let at = put_ordered(sheet, at, m.ordered);
    put_blocks(sheet, at, telegram, m.count, b" ")
}

fn print_shown(telegram: &[u8], m: Remedies) {
    let mut sheet = [0u8; 8192];
    let n = put_shown(&mut sheet, telegram, m);
    io::write_all(STDOUT, &sheet[..n]);
}

fn print_file(telegram: &[u8], m: Remedies) {
    let mut sheet = [0u8; 8192];
    let n = put_file(&mut sheet, telegram, m);
    io::write_all(STDOUT, &sheet[..n]);
}

fn answer(telegram: &[u8], as_file: bool) {
    match gateway::read_remedies(telegram) {
        Err(f) => words::print_refused(f),
        Ok(m) if as_file => print_file(telegram, m),
        Ok(m) => print_shown(telegram, m),
    }
}

// An octet more than the longest shows a telegram too long.
fn ask(rt: &impl Host, as_file: bool) {
    let mut telegram = [0u8; REMEDIES + 1];
    let Ok(n) = files::read(rt, 1, b"TELEGRAM", &mut telegram) else {
        return;
    };
    answer(&telegram[..n], as_file);
}

fn main(rt: HostRuntime) {
    let n = saying::argument_count(&rt);
    if saying::asks_help(&rt, n) {
        help();
        return;
    }
    let as_file = saying::has_option(&rt, 2, n, b"file");
    if saying::words_before(n, saying::one_if(as_file)) == 1 {
        ask(&rt, as_file);
        return;
    }
    saying::print_usage(b"remedies TELEGRAM [file]");
}
