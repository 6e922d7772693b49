// What a program may not write over, by the octets that stand there: the part of the guard that needs the library (`files` has the rest).
// Over a store `take` and `sweep` alone write, and refuse what has not its length, which no list and no telegram has.
use gateway::{FORM_1, FORM_2, STORE};
use saying::print_word;
use std::rt::Env;

// What is written. `Anyway` are bus data too, of which the caller has said that they may be as long as a telegram.
#[derive(Clone, Copy, Debug, PartialEq, Eq)]
pub enum Written {
    Data,
    Anyway,
    Telegram,
    Remedies,
}

// A list without a signal says nothing of any bit: eight zeros are one, and bus data too.
fn is_list_in(octets: &[u8], form: u8) -> bool {
    gateway::judge(octets, form).is_ok_and(|n| 0 < n.signals)
}

fn is_list(octets: &[u8]) -> bool {
    is_list_in(octets, FORM_1) || is_list_in(octets, FORM_2)
}

// Whether `take` would accept it.
fn is_telegram(octets: &[u8]) -> bool {
    let mut store = [0u8; STORE];
    gateway::take(&mut store, 1, 0, octets).is_ok()
}

// Whether `remedies` would show it.
fn is_remedies(octets: &[u8]) -> bool {
    gateway::read_remedies(octets).is_ok()
}

// By its length alone: bus data come to have a telegram's head by a value, and then one marshalling in a row of them would fail.
fn is_as_long(octets: &[u8]) -> bool {
    matches!(octets.len(), 40 | 128)
}

// Whether it may go; where not, an error line says what is against the file of argument i.
fn told(rt: &impl Env, i: usize, name: &[u8], may_go: bool, against: &[u8]) -> bool {
    if !may_go {
        print_word(rt, i, name, against);
    }
    may_go
}

fn is_no_list(rt: &impl Env, i: usize, name: &[u8], old: &[u8]) -> bool {
    told(rt, i, name, !is_list(old), b"reads as a signal list")
}

fn is_no_telegram(rt: &impl Env, i: usize, name: &[u8], old: &[u8]) -> bool {
    let against = b"as long as a telegram; the word `anyway` marshals into it all the same";
    told(rt, i, name, !is_as_long(old), against)
}

fn is_old_telegram(rt: &impl Env, i: usize, name: &[u8], old: &[u8]) -> bool {
    told(rt, i, name, is_telegram(old), b"exists and is no telegram")
}

fn is_old_remedies(rt: &impl Env, i: usize, name: &[u8], old: &[u8]) -> bool {
    let against = b"exists and is no telegram that `remedies` reads";
    told(rt, i, name, is_remedies(old), against)
}

// Whether what stands in the file of argument i may go; where not, an error line has said so.
pub fn may_replace(rt: &impl Env, i: usize, name: &[u8], old: &[u8], written: Written) -> bool {
    match written {
        Written::Anyway => is_no_list(rt, i, name, old),
        Written::Data => is_no_list(rt, i, name, old) && is_no_telegram(rt, i, name, old),
        Written::Telegram => is_old_telegram(rt, i, name, old),
        Written::Remedies => is_old_remedies(rt, i, name, old),
    }
}
