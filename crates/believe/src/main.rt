// What a gateway believes: every signal of the vehicles heard, with place, value and reason.
#![tactic(auto)]

ghost use Rattle.std.specs.Prelude.{◌≤◌};

use files::Host;
use gateway::{Entry, LONGEST, Reading, STORE, Signal, VEHICLES};
use saying::{Line, Page, STDOUT};
use words::Totals;

// How much is asked: with 3 words every vehicle, with 4 one, with 5 one signal of it; as lines for people, or as a table.
#[derive(Clone, Copy, Debug, PartialEq, Eq)]
struct Asked {
    words: usize,
    clock: u32,
    vehicle: usize,
    signal: usize,
    table: bool,
    form: u8,
    // where the values of the lines end
    column: usize,
}

fn help() {
    io::write_all(
        STDOUT,
        b"believe LIST STORE CLOCK [VEHICLE [SIGNAL]] [table] [form2]

What a gateway with the signal list LIST believes at CLOCK of the vehicles in
STORE: of all that were heard, of one, or of one signal of it, counted from 0.

LIST      a signal list; `judge LIST` says what is wrong with one
STORE     a store; `take` makes one and fills it
CLOCK     the millisecond counter now, 0 to 4294967295

Prints for each vehicle a line with type, version and age of its telegram, for
the age `expired` where `sweep` has marked it, and the gap, the time from the
telegram before it; for a vehicle's first it is the clock at which that came.
Then a line for each signal, VEHICLE SIGNAL PLACE VALUE REASON.  A signal of 16
bits at a place where UIC 556 Appendix B has a speed, percentage or current is
shown in its unit too, behind the reason, as `(160 km/h)`. At the end stand,
without VEHICLE, the vehicles never heard, and, without SIGNAL, how often each
reason was given:
  0 live ok        3 too old                   6 mark error
  1 live forced    4 type does not carry it    7 mark undefined
  2 never heard    5 newer than the telegram   8 code not known
With 2 to 8 the value is the list's replacement. A common signal is called R3.
An age above half of the counter's range is called a stamp after the clock.
With the word `table` it prints a line of names, then a line for each signal,
each of 13 columns with a tab between: vehicle, its telegram, version and age
(or `expired`; a dash each where it was never heard), signal, type, start,
width, value, reason, the vehicle's gap, and shown and unit, which are the value
in its unit and that unit (a dash each where it has none).
With the word `form2` LIST is in form 2: each PLACE has the serial number of the
signal behind it, as `(4.3)` or `(no serial number)`, and the table a column
more behind the gap, serial, with a dash for none. `convert help` says how one
is printed.
Bad input gets one line that begins with `refused` and the number of document
01, or with `error`.
",
    );
}

// A signal as a row of the table, and as a line for people, up to what it is in its unit.
fn row_of(store: &[u8], asked: Asked, k: usize, s: Signal, serial: usize, r: Reading) -> Line
    ensures { result.at ≤ 240 }
{
    let l = words::say_head(saying::empty(), store, asked.clock, asked.vehicle);
    let l = saying::put(saying::say_tab(l, k as u64), b'\t');
    let l = saying::say_tab(words::say_telegram(l, s.kind), s.start as u64);
    let l = saying::say_tab(saying::say_tab(l, s.width as u64), r.value);
    let l = saying::say_tab(l, r.reason.number() as u64);
    let l = words::say_gap_tab(l, store, asked.vehicle);
    words::say_serial_tab(l, asked.form, serial)
}

fn line_of(asked: Asked, k: usize, s: Signal, serial: usize, r: Reading) -> Line
    ensures { result.at ≤ 240 }
{
    let l = saying::say_right(saying::empty(), 2, asked.vehicle as u64);
    let l = saying::say(saying::say_right(l, 7, k as u64), b"  ");
    let l = words::say_signal(l, asked.form, s, serial);
    let l = saying::say(saying::say_right(l, asked.column, r.value), b"  ");
    words::say_reason(l, r.reason.number())
}

fn one_signal(
    page: &mut Page,
    list: &[u8],
    store: &[u8],
    asked: Asked,
    k: usize,
    e: Entry,
    totals: Totals,
) -> Totals {
    let Ok(r) = gateway::read(list, asked.form, store, asked.clock, asked.vehicle, k) else {
        return totals;
    };
    let s = e.signal;
    let serial = words::serial_at(list, asked.form, k);
    let shown = words::shown_at(list, asked.form, store, asked.clock, asked.vehicle, k, s);
    if asked.table {
        let l = row_of(store, asked, k, s, serial, r);
        saying::add(page, words::say_shown_tabs(l, shown));
    } else {
        let l = line_of(asked, k, s, serial, r);
        saying::add(page, words::say_shown(l, shown));
    }
    words::count_reason(totals, r.reason.number())
}

fn print_head(page: &mut Page, store: &[u8], asked: Asked) {
    if !asked.table {
        words::print_head(page, store, asked.clock, asked.vehicle);
    }
}

fn one_vehicle(
    page: &mut Page,
    list: &[u8],
    signals: usize,
    store: &[u8],
    asked: Asked,
    totals: Totals,
) -> Totals {
    print_head(page, store, asked);
    let mut t = totals;
    for k in 0..signals {
        if let Ok(e) = gateway::signal_entry(list, asked.form, k) {
            t = one_signal(page, list, store, asked, k, e, t);
        }
    }
    t
}

fn of_vehicle(asked: Asked, vehicle: usize) -> Asked {
    Asked { vehicle, ..asked }
}

fn in_column(asked: Asked, column: usize) -> Asked {
    Asked { column, ..asked }
}

fn all_vehicles(
    page: &mut Page,
    list: &[u8],
    signals: usize,
    store: &[u8],
    asked: Asked,
) -> Totals {
    let mut t = words::no_totals();
    for v in 1..=VEHICLES {
        if words::is_heard(store, v) {
            t = one_vehicle(page, list, signals, store, of_vehicle(asked, v), t);
        }
    }
    if !asked.table {
        words::print_never(page, store);
    }
    t
}

fn print_totals(page: &mut Page, asked: Asked, totals: Totals) {
    if !asked.table {
        words::print_totals(page, totals);
    }
}

fn print_names(page: &mut Page, asked: Asked) {
    if asked.table {
        let l = saying::say(
            saying::empty(),
            b"vehicle\ttelegram\tversion\tage\tsignal\ttype\tstart\twidth\tvalue\treason\tgap",
        );
        let l = words::say_serial_name(l, asked.form, b"serial");
        saying::add(page, saying::say(l, b"\tshown\tunit"));
    }
}

fn print_one(list: &[u8], store: &[u8], asked: Asked) {
    match gateway::signal_entry(list, asked.form, asked.signal) {
        Err(f) => words::print_refused(f),
        Ok(e) => {
            let mut page = saying::new_page();
            print_names(&mut page, asked);
            print_head(&mut page, store, asked);
            let none = words::no_totals();
            one_signal(&mut page, list, store, asked, asked.signal, e, none);
            saying::flush(&mut page);
        }
    }
}

fn print_all(list: &[u8], signals: usize, store: &[u8], asked: Asked) {
    let mut page = saying::new_page();
    print_names(&mut page, asked);
    if asked.words == 3 {
        let t = all_vehicles(&mut page, list, signals, store, asked);
        print_totals(&mut page, asked, t);
    } else {
        let none = words::no_totals();
        let t = one_vehicle(&mut page, list, signals, store, asked, none);
        print_totals(&mut page, asked, t);
    }
    saying::flush(&mut page);
}

// Refused as a reading is: 1 to 4, then 5, 6 and 11.
fn judge(list: &[u8], store: &[u8], asked: Asked) {
    let n = match gateway::judge(list, asked.form) {
        Ok(n) => n,
        Err(f) => return words::print_refused(f),
    };
    if let Err(f) = gateway::holding(store, asked.clock, asked.vehicle) {
        words::print_refused_store(f, store.len());
        return;
    }
    let column = words::value_column(list, asked.form, n.signals, 9, true, 48);
    if asked.words == 5 {
        print_one(list, store, in_column(asked, column));
    } else {
        print_all(list, n.signals, store, in_column(asked, column));
    }
}

fn read_files(rt: &impl Host, asked: Asked) {
    let mut list = [0u8; LONGEST + 1];
    let Ok(n) = files::read(rt, 1, b"LIST", &mut list) else {
        return;
    };
    let mut store = [0u8; STORE + 1];
    let Ok(m) = files::read(rt, 2, b"STORE", &mut store) else {
        return;
    };
    judge(&list[..n], &store[..m], asked);
}

fn ask(rt: &impl Host, words: usize, table: bool, form: u8) {
    let Some(clock) = saying::clock_argument(rt, 3) else {
        return;
    };
    let Some(vehicle) = saying::number_or(rt, words, 4, b"VEHICLE", 1) else {
        return;
    };
    let Some(signal) = saying::number_or(rt, words, 5, b"SIGNAL", 0) else {
        return;
    };
    read_files(
        rt,
        Asked {
            words,
            clock,
            vehicle: vehicle as usize,
            signal: signal as usize,
            table,
            form,
            column: 0,
        },
    );
}

fn main(rt: HostRuntime) {
    let n = saying::argument_count(&rt);
    if saying::asks_help(&rt, n) {
        help();
        return;
    }
    let table = saying::has_option(&rt, 4, n, b"table");
    let is_form_2 = saying::has_option(&rt, 4, n, b"form2");
    let options = saying::one_if(table) + saying::one_if(is_form_2);
    let words = saying::words_before(n, options);
    if (3..=5).contains(&words) {
        ask(&rt, words, table, words::form_of(is_form_2));
        return;
    }
    saying::print_usage(b"believe LIST STORE CLOCK [VEHICLE [SIGNAL]] [table] [form2]");
}
