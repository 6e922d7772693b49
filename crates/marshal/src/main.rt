// Marshals routed signals out of a store into a file of vehicle bus data, and shows each route.
#![tactic(auto)]

ghost use Rattle.std.specs.Prelude.{◌≤◌};

use files::{Host, Rules};
use gateway::{Counts, LONGEST, Reading, Refusal, Route, STORE, Signal};
use saying::{Line, Page, STDOUT};
use std::fs::File;
use words::Written;

const MOST: usize = 4096;

// What is asked beside the files: the clock, lines for the routes or a table of them, bus data of a telegram's length, and the list's form.
#[derive(Clone, Copy, Debug, PartialEq, Eq)]
struct Order {
    clock: u32,
    routes: bool,
    table: bool,
    anyway: bool,
    form: u8,
    // where the values of the lines end
    column: usize,
}

fn help() {
    io::write_all(
        STDOUT,
        b"marshal LIST STORE CLOCK DATA [routes] [table] [anyway] [form2]

Writes the value of each route of LIST, read out of STORE at CLOCK, into its
field of the vehicle bus data in the file DATA, and changes no other bit of it.

LIST      a signal list; `judge LIST` says what is wrong with one
STORE     a store; `take` makes one and fills it
CLOCK     the millisecond counter now, 0 to 4294967295
DATA      up to 4096 octets, long enough for every route; a signal list is not
          written over, and data as long as a telegram (40 or 128 octets) only
          with the word `anyway`

Prints `marshalled 14 routes, 11 live`; live are the reasons 0 and 1. With the
word `routes` it prints above that a line for each route,
ROUTE FIELD-OF-DATA VEHICLE PLACE VALUE REASON.  What `believe` shows in a unit
is shown in it here too, as `(160 km/h)`.
With the word `table` it prints instead a line of names, then a line for each
route, each of eleven columns with a tab between: route, data_start, vehicle,
signal, type, start, width, value, reason, and shown and unit, which are the
value in its unit and that unit (a dash each where it has none).
With the word `form2` LIST is in form 2: each PLACE has the serial number of the
signal behind it, as `(4.3)` or `(no serial number)`, and the table a column
more behind the reason, serial, with a dash for none. `convert help` says how
one is printed.
`believe help` lists the reasons.
Where nothing was marshalled it prints one line that begins with `refused` and
the number of document 01, or with `error`, and DATA is as it was. It is
replaced whole, by way of DATA.new, with its owner and mode but without access
lists; links stay; one that is read-only or has hard links is an error.
DATA.lock names the process at work: others wait, and where it holds on for five
seconds their line begins with `error: busy`. What a killed one left is taken
away.
",
    );
}

// A route as a row of the table, and as a line for people, up to what its signal is in its unit.
fn row_of(order: Order, r: usize, t: Route, s: Signal, serial: usize, x: Reading) -> Line
    ensures { result.at ≤ 240 }
{
    let l = saying::say_tab(
        saying::say_number(saying::empty(), r as u64),
        t.start as u64,
    );
    let l = saying::say_tab(saying::say_tab(l, t.vehicle as u64), t.signal as u64);
    let l = words::say_telegram(saying::put(l, b'\t'), s.kind);
    let l = saying::say_tab(saying::say_tab(l, s.start as u64), s.width as u64);
    let l = saying::say_tab(saying::say_tab(l, x.value), x.reason.number() as u64);
    words::say_serial_tab(l, order.form, serial)
}

fn line_of(order: Order, r: usize, t: Route, s: Signal, serial: usize, x: Reading) -> Line
    ensures { result.at ≤ 240 }
{
    let l = saying::say(saying::say_right(saying::empty(), 3, r as u64), b"  ");
    let l = saying::say_right(words::say_field(l, t.start, s.width), 36, t.vehicle as u64);
    let l = words::say_signal(saying::say(l, b"  "), order.form, s, serial);
    let l = saying::say(saying::say_right(l, order.column, x.value), b"  ");
    words::say_reason(l, x.reason.number())
}

fn one_route(page: &mut Page, list: &[u8], store: &[u8], order: Order, r: usize, t: Route) {
    let form = order.form;
    let Ok(e) = gateway::signal_entry(list, form, t.signal) else {
        return;
    };
    let Ok(x) = gateway::read(list, form, store, order.clock, t.vehicle, t.signal) else {
        return;
    };
    let s = e.signal;
    let serial = words::serial_at(list, form, t.signal);
    let shown = words::shown_at(list, form, store, order.clock, t.vehicle, t.signal, s);
    if order.table {
        let l = row_of(order, r, t, s, serial, x);
        saying::add(page, words::say_shown_tabs(l, shown));
    } else {
        let l = line_of(order, r, t, s, serial, x);
        saying::add(page, words::say_shown(l, shown));
    }
}

fn in_column(order: Order, column: usize) -> Order {
    Order { column, ..order }
}

fn print_routes(page: &mut Page, list: &[u8], n: Counts, store: &[u8], order: Order) {
    let column = words::value_column(list, order.form, n.signals, 38, true, 77);
    let placed = in_column(order, column);
    for r in 0..n.routes {
        if let Ok(Some(t)) = gateway::route_entry(list, order.form, r) {
            one_route(page, list, store, placed, r, t);
        }
    }
}

fn print_count(page: &mut Page, n: Counts, live: usize) {
    let l = saying::say_number(
        saying::say(saying::empty(), b"marshalled "),
        n.routes as u64,
    );
    let l = saying::say_number(saying::say(l, b" routes, "), live as u64);
    saying::add(page, saying::say(l, b" live"));
}

fn print_names(page: &mut Page, form: u8) {
    let l = saying::say(saying::empty(), b"route\tdata_start\tvehicle\tsignal");
    let l = saying::say(l, b"\ttype\tstart\twidth\tvalue\treason");
    let l = words::say_serial_name(l, form, b"serial");
    saying::add(page, saying::say(l, b"\tshown\tunit"));
}

fn print_done(list: &[u8], n: Counts, store: &[u8], order: Order, live: usize) {
    let mut page = saying::new_page();
    if order.table {
        print_names(&mut page, order.form);
    }
    if order.routes || order.table {
        print_routes(&mut page, list, n, store, order);
    }
    if !order.table {
        print_count(&mut page, n, live);
    }
    saying::flush(&mut page);
}

// Where the last route ends, in octets: no other ends later.
fn needed(list: &[u8], form: u8, routes: usize) -> usize {
    if routes == 0 {
        return 0;
    }
    let Ok(Some(t)) = gateway::route_entry(list, form, routes - 1) else {
        return 0;
    };
    let Ok(e) = gateway::signal_entry(list, form, t.signal) else {
        return 0;
    };
    t.start.wrapping_add(e.signal.width).wrapping_add(7) / 8
}

// Data that are too short: how long they are, and how long they have to be.
fn print_refused(f: Refusal, list: &[u8], form: u8, n: Counts, store: usize, octets: usize) {
    let l = words::say_refused_store(f, store);
    if f != Refusal::DataShort {
        saying::print(l);
        return;
    }
    let l = saying::say_number(saying::say(l, b": "), octets as u64);
    let end = needed(list, form, n.routes);
    let l = saying::say_number(saying::say(l, b" octets, "), end as u64);
    saying::print(saying::say(l, b" needed"));
}

fn marshal_bus(
    rt: &impl Host,
    file: File,
    path: &[u8],
    list: &[u8],
    n: Counts,
    store: &[u8],
    order: Order,
    bus: &mut [u8],
) {
    match gateway::marshal(list, order.form, store, order.clock, bus) {
        Err(f) => {
            files::drop_new(rt, path, file);
            print_refused(f, list, order.form, n, store.len(), bus.len());
        }
        Ok(live) => {
            if files::commit(rt, 4, b"DATA", path, file, bus) {
                print_done(list, n, store, order, live);
            }
        }
    }
}

// Whether the data may go; a file too long is no bus data at all.
fn is_data(rt: &impl Host, data: &[u8], anyway: bool) -> bool {
    if MOST < data.len() {
        files::print_long(rt, 4, b"DATA", MOST as u64);
        return false;
    }
    let written = if anyway {
        Written::Anyway
    } else {
        Written::Data
    };
    words::may_replace(rt, 4, b"DATA", data, written)
}

// The data are read and replaced while their lock keeps other programs waiting; the new ones are open as `file`.
fn marshal_into(
    rt: &impl Host,
    file: File,
    path: &[u8],
    list: &[u8],
    n: Counts,
    store: &[u8],
    order: Order,
) {
    let mut bus = [0u8; MOST + 1];
    let Ok(k) = files::read_at(rt, 4, b"DATA", path, &mut bus) else {
        files::drop_new(rt, path, file);
        return;
    };
    if !is_data(rt, &bus[..k], order.anyway) {
        files::drop_new(rt, path, file);
        return;
    }
    marshal_bus(rt, file, path, list, n, store, order, &mut bus[..k]);
}

fn marshal_at(rt: &impl Host, path: &[u8], list: &[u8], n: Counts, store: &[u8], order: Order) {
    let rules = Rules {
        is_old: true,
        is_new: false,
        first: Some(1),
        second: Some(2),
    };
    if let Some(file) = files::begin(rt, 4, b"DATA", path, rules) {
        marshal_into(rt, file, path, list, n, store, order);
    }
}

fn marshal_under(rt: &impl Host, list: &[u8], n: Counts, store: &[u8], order: Order) {
    let mut path = io::buffer();
    let k = files::target_of(rt, 4, &mut path);
    marshal_at(rt, &path[..k], list, n, store, order);
}

fn judge(rt: &impl Host, list: &[u8], store: &[u8], order: Order) {
    match gateway::judge(list, order.form) {
        Err(f) => words::print_refused(f),
        Ok(n) => marshal_under(rt, list, n, store, order),
    }
}

fn read_files(rt: &impl Host, order: Order) {
    let mut list = [0u8; LONGEST + 1];
    let Ok(n) = files::read(rt, 1, b"LIST", &mut list) else {
        return;
    };
    let mut store = [0u8; STORE + 1];
    let Ok(m) = files::read(rt, 2, b"STORE", &mut store) else {
        return;
    };
    judge(rt, &list[..n], &store[..m], order);
}

fn ask(rt: &impl Host, routes: bool, table: bool, anyway: bool, form: u8) {
    let Some(clock) = saying::clock_argument(rt, 3) else {
        return;
    };
    read_files(
        rt,
        Order {
            clock,
            routes,
            table,
            anyway,
            form,
            column: 0,
        },
    );
}

fn main(rt: HostRuntime) {
    let n = saying::argument_count(&rt);
    if saying::asks_help(&rt, n) {
        help();
        return;
    }
    let routes = saying::has_option(&rt, 5, n, b"routes");
    let table = saying::has_option(&rt, 5, n, b"table");
    let anyway = saying::has_option(&rt, 5, n, b"anyway");
    let is_form_2 = saying::has_option(&rt, 5, n, b"form2");
    let shown = saying::one_if(routes) + saying::one_if(table);
    let options = shown + saying::one_if(anyway) + saying::one_if(is_form_2);
    if saying::words_before(n, options) == 4 {
        ask(&rt, routes, table, anyway, words::form_of(is_form_2));
        return;
    }
    saying::print_usage(b"marshal LIST STORE CLOCK DATA [routes] [table] [anyway] [form2]");
}
