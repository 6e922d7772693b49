// What the program is given: the words behind RECORDS, and the records of the file.
use std::rt::Env;

// As many records as are read; a train has 63 at most.
pub const RECORDS: usize = 1170;

pub const OCTETS: usize = RECORDS * 56;

// The marks of a pair.
const LEADING: u8 = 1;

const LED: u8 = 8;

#[derive(Clone, Copy, Debug, PartialEq, Eq)]
pub struct Given {
    pub ok: bool,
    pub table: bool,
    // the mark whose vehicle is the next word
    due: Option<u8>,
    // the highest vehicle, and the word that names it
    vehicle: usize,
    at: usize,
}

fn not_ok(g: Given) -> Given {
    Given { ok: false, ..g }
}

// The first n octets; all where there are fewer.
pub fn first(octets: &[u8], n: usize) -> &[u8] {
    &octets[..n.min(octets.len())]
}

// Octet i, or 0 where there is none.
pub fn octet_at(octets: &[u8], i: usize) -> u8 {
    octets.get(i).copied().unwrap_or(0)
}

// Record v, from 0; zeros where the octets end.
pub fn record_of(records: &[u8], v: usize) -> [u8; 56] {
    let mut record = [0u8; 56];
    if RECORDS < v {
        return record;
    }
    for i in 0..56 {
        record[i] = octet_at(records, v * 56 + i);
    }
    record
}

// A mark more for vehicle v, from 1.
fn add_mark(pairs: &mut [u8; RECORDS], v: usize, mark: u8) {
    if 1 <= v && v <= RECORDS {
        pairs[v - 1] |= mark;
    }
}

fn no_vehicle(rt: &impl Env, i: usize, g: Given) -> Given {
    saying::print_word(
        rt,
        i,
        b"vehicle",
        b"not a whole number from 1 to 4294967295",
    );
    not_ok(g)
}

// Word i as the vehicle of the mark that is due.
fn take_vehicle(rt: &impl Env, i: usize, pairs: &mut [u8; RECORDS], mark: u8, g: Given) -> Given {
    let v = match saying::number_of(rt, i, 4294967295) {
        None | Some(0) => return no_vehicle(rt, i, g),
        Some(n) => n as usize,
    };
    add_mark(pairs, v, mark);
    let g = Given { due: None, ..g };
    if v <= g.vehicle {
        return g;
    }
    Given {
        vehicle: v,
        at: i,
        ..g
    }
}

fn take_name(rt: &impl Env, i: usize, g: Given) -> Given {
    let mut g = g;
    if saying::is_word(rt, i, b"leading") {
        g.due = Some(LEADING);
    } else if saying::is_word(rt, i, b"led") {
        g.due = Some(LED);
    } else if saying::is_word(rt, i, b"table") {
        g.table = true;
    } else {
        saying::print_word(rt, i, b"word", b"neither leading, led nor table");
        g.ok = false;
    }
    g
}

fn take_word(rt: &impl Env, i: usize, pairs: &mut [u8; RECORDS], g: Given) -> Given {
    match g.due {
        None => take_name(rt, i, g),
        Some(mark) => take_vehicle(rt, i, pairs, mark, g),
    }
}

// Where the last word wants a vehicle behind it.
fn ended(rt: &impl Env, n: usize, g: Given) -> Given {
    if g.due.is_none() {
        return g;
    }
    let last = n.wrapping_sub(1);
    saying::print_word(rt, last, b"word", b"no vehicle behind it");
    not_ok(g)
}

// The words of n, the program's own name among them, behind RECORDS. Where one is no good, an error line has said so.
pub fn read_words(rt: &impl Env, n: usize, pairs: &mut [u8; RECORDS]) -> Given {
    let mut g = Given {
        ok: true,
        table: false,
        due: None,
        vehicle: 0,
        at: 0,
    };
    for i in 2..n {
        g = take_word(rt, i, pairs, g);
        if !g.ok {
            return g;
        }
    }
    ended(rt, n, g)
}

// Whether every vehicle that was named is one of n; where not, an error line names the highest.
pub fn has_vehicles(rt: &impl Env, g: Given, n: usize) -> bool {
    if g.vehicle <= n {
        return true;
    }
    let l = saying::say_error(rt, g.at, b"vehicle", b"");
    saying::print(saying::say_number(saying::say(l, b"above the number of records, "), n as u64));
    false
}
