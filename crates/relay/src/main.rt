// A gateway in the middle: what a vehicle was heard saying, composed anew under the gateway's own list.
#![tactic(auto)]

use files::Host;
use gateway::{LONGEST, STORE};
use saying::STDOUT;

#[derive(Clone, Copy, Debug, PartialEq, Eq)]
struct Asked {
    clock: u32,
    vehicle: usize,
    form: u8,
}

// The signals that the telegram carries, and how many of them were live.
#[derive(Clone, Copy, Debug, PartialEq, Eq)]
struct Count {
    carried: u64,
    live: u64,
}

fn help() {
    io::write_all(
        STDOUT,
        b"relay LIST STORE CLOCK VEHICLE OUT [form2]

Does what a gateway in the middle of a train does: reads every signal of VEHICLE
in STORE at CLOCK under its own signal list LIST, composes the telegram of the
same type anew under LIST, and writes it to OUT.

LIST      the signal list of the gateway in the middle
STORE     its store; `take` makes one and fills it
CLOCK     the millisecond counter there, 0 to 4294967295
VEHICLE   1 to 63
OUT       the telegram's file; what exists is replaced only where it is a
          telegram, as `take` takes one

Each value goes out as it was read, the list's replacement where it was not
live. The mark of a check goes out as it was read where every signal under it
that the telegram carries was live, and as error where one was not or it carries
none. The version is that of LIST, and what LIST does not know does not go on.
Prints `relayed R1 version 2 octets 128, live 128 of 129 signals`, of those that
the telegram carries; `believe` says which. A vehicle that was never heard has
no type: refused 9. A replacement that would go out and that LIST itself does
not know as a code is refused, 15.
With the word `form2` LIST is in form 2.
Where nothing was relayed it prints one line that begins with `refused` and the
number of document 01, or with `error`, and OUT is as it was. OUT is replaced as
`compose help` says.
",
    );
}

// One signal more, if the telegram carries it.
fn counted(list: &[u8], store: &[u8], asked: Asked, kind: usize, k: usize, so_far: Count) -> Count {
    let Ok(e) = gateway::signal_entry(list, asked.form, k) else {
        return so_far;
    };
    if !words::is_carried(e.signal, kind) {
        return so_far;
    }
    let Ok(r) = gateway::read(list, asked.form, store, asked.clock, asked.vehicle, k) else {
        return so_far;
    };
    Count {
        carried: so_far.carried.wrapping_add(1),
        live: so_far.live.wrapping_add(r.reason.is_live() as u64),
    }
}

fn count_all(list: &[u8], signals: usize, store: &[u8], asked: Asked, kind: usize) -> Count {
    let mut c = Count {
        carried: 0,
        live: 0,
    };
    for k in 0..signals {
        c = counted(list, store, asked, kind, k, c);
    }
    c
}

fn print_relayed(list: &[u8], store: &[u8], asked: Asked, kind: usize, octets: usize) {
    let Ok(n) = gateway::judge(list, asked.form) else {
        return;
    };
    let l = words::say_telegram(saying::say(saying::empty(), b"relayed "), kind);
    let l = saying::say_number(saying::say(l, b" version "), n.version as u64);
    let l = saying::say_number(saying::say(l, b" octets "), octets as u64);
    let c = count_all(list, n.signals, store, asked, kind);
    let l = saying::say_number(saying::say(l, b", live "), c.live);
    let l = saying::say_number(saying::say(l, b" of "), c.carried);
    saying::print(saying::say(l, b" signals"));
}

fn relay_out(rt: &impl Host, list: &[u8], store: &[u8], asked: Asked, kind: usize, out: &mut [u8]) {
    match gateway::relay(list, asked.form, store, asked.clock, asked.vehicle, out) {
        Err(f) => words::print_refused_store(f, store.len()),
        Ok(()) => {
            if words::write_telegram(rt, 5, 1, 2, out) {
                print_relayed(list, store, asked, kind, out.len());
            }
        }
    }
}

// The type of what was heard, 0 for none: the length of what comes out goes by it.
fn type_of(store: &[u8], asked: Asked) -> usize {
    match gateway::holding(store, asked.clock, asked.vehicle) {
        Ok(Some(h)) => h.kind,
        _ => 0,
    }
}

fn relay(rt: &impl Host, list: &[u8], store: &[u8], asked: Asked) {
    let kind = type_of(store, asked);
    if kind == 3 {
        let mut out = [0u8; 40];
        relay_out(rt, list, store, asked, kind, &mut out);
    } else {
        let mut out = [0u8; 128];
        relay_out(rt, list, store, asked, kind, &mut out);
    }
}

fn read_files(rt: &impl Host, asked: Asked) {
    let mut list = [0u8; LONGEST + 1];
    let Ok(n) = files::read(rt, 1, b"LIST", &mut list) else {
        return;
    };
    let mut store = [0u8; STORE + 1];
    let Ok(m) = files::read(rt, 2, b"STORE", &mut store) else {
        return;
    };
    relay(rt, &list[..n], &store[..m], asked);
}

fn ask(rt: &impl Host, form: u8) {
    let Some(clock) = saying::clock_argument(rt, 3) else {
        return;
    };
    let Some(vehicle) = saying::number_argument(rt, 4, b"VEHICLE", 4294967295) else {
        return;
    };
    read_files(
        rt,
        Asked {
            clock,
            vehicle: vehicle as usize,
            form,
        },
    );
}

fn main(rt: HostRuntime) {
    let n = saying::argument_count(&rt);
    if saying::asks_help(&rt, n) {
        help();
        return;
    }
    let is_form_2 = saying::has_option(&rt, 6, n, b"form2");
    if saying::words_before(n, saying::one_if(is_form_2)) == 5 {
        ask(&rt, words::form_of(is_form_2));
        return;
    }
    saying::print_usage(b"relay LIST STORE CLOCK VEHICLE OUT [form2]");
}
