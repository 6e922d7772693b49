// Writes a telegram 8.8A, with remedy texts, out of a text file.
#![tactic(auto)]

mod text;
mod why;

use files::Host;
use gateway::Refusal;
use saying::STDOUT;
use std::rt::Env;
use text::{Area, Given, first};

fn help() {
    io::write_all(
        STDOUT,
        b"write_remedies FILE TELEGRAM

Writes a telegram 8.8A with remedy texts, the report of code 8A08, to TELEGRAM.

FILE      a text file in UTF-8 of lines, where # begins a comment:
            head 00 00 00 00 00 00   octets 1-6, in hexadecimal
            carried 00 .. 00         octets 9-20
            language de              two letters, or octets, as `\\x00\\x1F`
            ordered yes              or no: whether that language was ordered
            F3 Lock the door         a key, F1 to F8, one space, and its text
          The texts stand in the telegram in the order of their lines. All that
          is behind the space is text, # too; two backslashes are one, and
          `\\u` with four hexadecimal digits is the character of that number.
          Head and carried are zeros where they are not given. Of two lines for
          one of the first four the last counts.
          `remedies TELEGRAM file` prints such a file.
TELEGRAM  the telegram's file; what exists is replaced only where it is such a
          telegram, as `remedies` reads one

Prints `written in de: 4 texts, 470 octets`.
Where nothing was written it prints one line that begins with `refused` and the
number of document 02, or with `error`, and TELEGRAM is as it was:
  29 field out of its range: not 1 to 8 texts, or one of over 127 characters
  30 key twice
It is replaced whole, by way of TELEGRAM.new, with its owner and mode but
without access lists; links stay; one that is read-only or has hard links is an
error. TELEGRAM.lock names the process at work: others wait, and where it holds
on for five seconds their line begins with `error: busy`. What a killed one left
is taken away.
",
    );
}

fn print_refused(f: Refusal, keys: &[u8], lengths: &[u16]) {
    saying::print(why::say_more(words::say_refused(f, b""), f, keys, lengths));
}

fn print_written(language: u16, n: usize, octets: usize) {
    let mut text = [0u8; 8];
    let k = spelling::spell_language(language, &mut text);
    let l = saying::say(saying::say(saying::empty(), b"written in "), &text[..k]);
    let l = saying::say_number(saying::say(l, b": "), n as u64);
    let l = if n == 1 {
        saying::say(l, b" text, ")
    } else {
        saying::say(l, b" texts, ")
    };
    saying::print(saying::say(saying::say_number(l, octets as u64), b" octets"));
}

fn write(
    rt: &impl Host,
    g: Given,
    language: u16,
    ordered: bool,
    head: &[u8; 6],
    carried: &[u8; 12],
    keys: &[u8; 9],
    lengths: &[u16; 9],
    area: &Area,
) {
    let keys = first(keys, g.texts);
    let lengths = first(lengths, g.texts);
    let area = first(area, g.octets);
    // Nine texts of 128 characters have room: what is refused is refused as such.
    let mut out = [0u8; 2400];
    let wrote = gateway::write_area(
        head,
        carried,
        language,
        ordered as u8,
        keys,
        lengths,
        area,
        &mut out,
    );
    match wrote {
        Err(f) => print_refused(f, keys, lengths),
        Ok(n) => {
            if words::write_remedies(rt, 2, 1, first(&out, n)) {
                print_written(language, keys.len(), n);
            }
        }
    }
}

// The language, and whether it was ordered; where a line is missing, an error line says which.
fn language_in(rt: &impl Env, g: Given) -> Option<(u16, bool)> {
    let whole = g.language.zip(g.ordered);
    if g.language.is_none() {
        saying::print_word(rt, 1, b"FILE", b"no line `language`");
    } else if g.ordered.is_none() {
        saying::print_word(rt, 1, b"FILE", b"no line `ordered`");
    }
    whole
}

fn read_lines(rt: &impl Host, given: &[u8]) {
    let mut head = [0u8; 6];
    let mut carried = [0u8; 12];
    let mut keys = [0u8; 9];
    let mut lengths = [0u16; 9];
    let mut area = [0u8; 2304];
    let g = text::read_lines(
        rt,
        given,
        &mut head,
        &mut carried,
        &mut keys,
        &mut lengths,
        &mut area,
    );
    let Some(g) = g else {
        return;
    };
    if let Some((language, ordered)) = language_in(rt, g) {
        write(
            rt, g, language, ordered, &head, &carried, &keys, &lengths, &area,
        );
    }
}

fn ask(rt: &impl Host) {
    let mut given = [0u8; 65537];
    let Ok(n) = files::read(rt, 1, b"FILE", &mut given) else {
        return;
    };
    if n == 65537 {
        files::print_long(rt, 1, b"FILE", 65536);
        return;
    }
    read_lines(rt, &given[..n]);
}

fn main(rt: HostRuntime) {
    let n = saying::argument_count(&rt);
    if saying::asks_help(&rt, n) {
        help();
        return;
    }
    if n == 3 {
        ask(&rt);
        return;
    }
    saying::print_usage(b"write_remedies FILE TELEGRAM");
}
