// Which gateway believes what: one store, or each gateway's own, read by two gateways' lists, side by side.
#![tactic(auto)]

ghost use Rattle.std.specs.Prelude.{◌-◌, ◌≤◌, ◌<◌, IfSome};
ghost use Rattle.saying.specs.Lines.{InRoom};
ghost use Rattle.std.specs.Iterator.{at_most};
ghost use Rattle.paper.specs.Pairs.{signal_keys};

use files::Host;
use gateway::{Counts, FORM_2, LONGEST, Pair, Reading, STORE, Shown, Signal, VEHICLES};
use saying::{Line, Page, STDOUT};
use std::rt::Env;

// A signal as one gateway reads it.
#[derive(Clone, Copy, Debug, PartialEq)]
struct Side {
    signal: Signal,
    reading: Reading,
    // 0 for none
    serial: usize,
    // in its unit
    shown: Shown,
}

// What is asked: of one vehicle or of all; only the lines that differ; as lines for people, or as a table; the form of each list.
#[derive(Clone, Copy, Debug, PartialEq, Eq)]
struct Asked {
    clock: u32,
    // whether the second gateway has a store of its own, and the clock at which it is read
    behind: bool,
    second_clock: u32,
    vehicle: usize,
    all: bool,
    only: bool,
    table: bool,
    first_form: u8,
    second_form: u8,
    // where the values of the lines end, the first list's and the second's
    left: usize,
    right: usize,
}

// The lines, and how many of them differ.
#[derive(Clone, Copy, Debug, PartialEq, Eq)]
struct Count {
    lines: u64,
    differ: u64,
}

fn help() {
    io::write_all(
        STDOUT,
        b"differ LIST LIST STORE CLOCK [behind STORE2 CLOCK2] [VEHICLE] [only] [table]
       [first-form2] [second-form2]

Which gateway believes what: STORE, read at CLOCK by two gateways' signal lists,
side by side, for all vehicles that were heard or for one.

LIST      a signal list; `judge LIST` says what is wrong with one
STORE     a store; `take` makes one and fills it
CLOCK     the millisecond counter now, 0 to 4294967295

Prints for each vehicle a line with type, version, age and gap of its telegram,
as `believe` does, then a line for each signal,
VEHICLE PLACE VALUE REASON | VALUE REASON,  the first list on the left. Signals
of the two are matched by type and start. A line on which value, reason or width
differ, or that only one list has, begins with *. A line behind each vehicle
counts those of it, the last line all of them: `differ: 7 of 498 lines`. With
the word `only` the other lines are left out. What `believe` shows in a unit
stands at the end of its line, of both lists, as `(160 km/h | 0 km/h)`, with a
dash for one that has no such signal.
With the word `table` it prints a line of names, then a line for each signal,
each of 17 columns with a tab between: vehicle, its telegram, version and age
(or `expired`; a dash each where it was never heard), type, start, differs (1 or
0), then width, value and reason of the first list and of the second (a dash
where a list has no such signal), the vehicle's gap, and shown_1, shown_2 and
unit, which are the two values in their unit and that unit (a dash for none).
With the words `first-form2` and `second-form2` that list is in form 2: each
PLACE has the signal's serial number behind it, as `(4.3)`, or, where the two
lists have different ones, both, as `(4.3, no serial number)`. No answer differs
by that, and it alone puts no * before a line. The table has two columns more
behind the gap, serial_1 and serial_2, with a dash for none. `convert help` says
how a serial number is printed. These words may be combined, in any order.
With the word `behind`, next to CLOCK, the second gateway reads a store of its
own, STORE2, at its own counter, CLOCK2, as one does that hears the train behind
another gateway (`relay help`). All vehicles that either has heard are gone
through, and the line of one says both gateways' telegrams, as
`vehicle 1: R1 version 3 age 3000 ms gap 6000 ms | never heard`. The table has
four columns more behind all others: telegram_2, version_2, age_2 and gap_2.
`believe help` lists the reasons. Bad input gets one line that begins with
`refused` and the number of document 01, or with `error`.
The exit status is as of `diff`: 0 no difference, 1 differences, 2 bad input.
",
    );
}

// What a gateway makes of its list's signal k, if the list has it.
fn side_at(
    list: &[u8],
    form: u8,
    store: &[u8],
    clock: u32,
    vehicle: usize,
    k: usize,
) -> Option<Side> {
    let e = gateway::signal_entry(list, form, k).ok()?;
    let reading = gateway::read(list, form, store, clock, vehicle, k).ok()?;
    let s = e.signal;
    Some(Side {
        signal: s,
        reading,
        serial: words::serial_at(list, form, k),
        shown: words::shown_at(list, form, store, clock, vehicle, k, s),
    })
}

fn shown_of(side: Option<Side>) -> Shown {
    side.map_or(words::not_scaled(), |s| s.shown)
}

fn serial_of(side: Option<Side>) -> usize {
    side.map_or(0, |s| s.serial)
}

fn are_same(a: Option<Side>, b: Option<Side>) -> bool {
    a.zip(b).is_some_and(|(a, b)| a.signal.width == b.signal.width && a.reading == b.reading)
}

// What a side says, with the value ending at a column.
fn say_side(line: Line, column: usize, side: Option<Side>) -> Line
    ensures { InRoom line.at result.at }
{
    let Some(side) = side else {
        return saying::say(saying::pad(line, column), b"  not in the list");
    };
    let r = side.reading;
    words::say_reason(
        saying::say(saying::say_right(line, column, r.value), b"  "),
        r.reason.number(),
    )
}

// The column between the two sides: behind the longest reason.
fn bar(left: usize) -> usize {
    left.wrapping_add(28)
}

// Widths that differ are said behind the line.
fn say_widths(line: Line, a: Option<Side>, b: Option<Side>) -> Line
    ensures { InRoom line.at result.at }
{
    if let (Some(a), Some(b)) = (a, b)
        && a.signal.width != b.signal.width
    {
        let l = saying::say_number(saying::say(line, b"  widths "), a.signal.width as u64);
        return saying::say_number(saying::say(l, b" and "), b.signal.width as u64);
    }
    line
}

// The serial number that a list in form 2 has for the signal.
fn serial_in(side: Option<Side>, form: u8) -> Option<usize> {
    side.filter(|_| form == FORM_2).map(|s| s.serial)
}

// The place, which either side may have, with its serial numbers.
fn say_signal(line: Line, asked: Asked, s: Signal, a: Option<Side>, b: Option<Side>) -> Line
    ensures { InRoom line.at result.at }
{
    let l = words::say_place(line, s.kind, s.start, s.width);
    words::say_both_beside(
        l,
        serial_in(a, asked.first_form),
        serial_in(b, asked.second_form),
    )
}

// The place, and what each side says there.
fn print_pair(
    page: &mut Page,
    mark: u8,
    asked: Asked,
    place: Signal,
    a: Option<Side>,
    b: Option<Side>,
) {
    let head = saying::put(saying::empty(), mark);
    let l = saying::say_right(head, 4, asked.vehicle as u64);
    let l = say_signal(saying::say(l, b"  "), asked, place, a, b);
    let l = saying::pad(say_side(l, asked.left, a), bar(asked.left));
    let l = say_side(saying::say(l, b"|"), asked.right, b);
    let l = say_widths(l, a, b);
    saying::add(page, words::say_both_shown(l, shown_of(a), shown_of(b)));
}

fn say_columns(line: Line, side: Option<Side>) -> Line
    ensures { InRoom line.at result.at }
{
    let Some(side) = side else {
        return saying::say(line, b"\t-\t-\t-");
    };
    let l = saying::say_tab(line, side.signal.width as u64);
    let l = saying::say_tab(l, side.reading.value);
    saying::say_tab(l, side.reading.reason.number() as u64)
}

// The form of the columns: with serial numbers as soon as one list has them.
fn form_of_table(asked: Asked) -> u8 {
    words::form_of(asked.first_form == FORM_2 || asked.second_form == FORM_2)
}

// What the second gateway holds of the vehicle in a store of its own, behind all other columns.
fn say_behind(line: Line, other: &[u8], asked: Asked) -> Line
    ensures { InRoom line.at result.at }
{
    if !asked.behind {
        return line;
    }
    let l = words::say_held_tabs(line, other, asked.second_clock, asked.vehicle);
    words::say_gap_tab(l, other, asked.vehicle)
}

// The same as a row of the table.
fn print_row(
    page: &mut Page,
    store: &[u8],
    other: &[u8],
    asked: Asked,
    differs: u64,
    place: Signal,
    a: Option<Side>,
    b: Option<Side>,
) {
    let l = words::say_head(saying::empty(), store, asked.clock, asked.vehicle);
    let l = words::say_telegram(saying::put(l, b'\t'), place.kind);
    let l = saying::say_tab(saying::say_tab(l, place.start as u64), differs);
    let l = say_columns(say_columns(l, a), b);
    let l = words::say_gap_tab(l, store, asked.vehicle);
    let form = form_of_table(asked);
    let l = words::say_serial_tab(l, form, serial_of(a));
    let l = words::say_serial_tab(l, form, serial_of(b));
    let l = words::say_both_shown_tabs(l, shown_of(a), shown_of(b));
    saying::add(page, say_behind(l, other, asked));
}

fn print_line(
    page: &mut Page,
    store: &[u8],
    other: &[u8],
    asked: Asked,
    same: bool,
    place: Signal,
    a: Option<Side>,
    b: Option<Side>,
) {
    if same && asked.only {
        return;
    }
    if asked.table {
        let differs = if same { 0 } else { 1 };
        print_row(page, store, other, asked, differs, place, a, b);
        return;
    }
    print_pair(page, if same { b' ' } else { b'*' }, asked, place, a, b);
}

// The line of a pair: of a signal that both lists have, or one of them.
fn print_sides(
    page: &mut Page,
    store: &[u8],
    other: &[u8],
    asked: Asked,
    a: Option<Side>,
    b: Option<Side>,
    so_far: Count,
) -> Count {
    let Some(side) = a.or(b) else {
        return so_far;
    };
    let same = are_same(a, b);
    print_line(page, store, other, asked, same, side.signal, a, b);
    Count {
        lines: so_far.lines.wrapping_add(1),
        differ: so_far.differ.wrapping_add(if same { 0 } else { 1 }),
    }
}

fn first_side(list: &[u8], store: &[u8], asked: Asked, p: Pair) -> Option<Side> {
    side_at(
        list,
        asked.first_form,
        store,
        asked.clock,
        asked.vehicle,
        p.first,
    )
}

fn second_side(list: &[u8], store: &[u8], asked: Asked, p: Pair) -> Option<Side> {
    side_at(
        list,
        asked.second_form,
        store,
        asked.second_clock,
        asked.vehicle,
        p.second,
    )
}

fn pair_from(first: &[u8], second: &[u8], asked: Asked, key: usize) -> Option<Pair>
    ensures { IfSome result (λ p. (key ≤ p.key) × (p.key < signal_keys)) }
{
    gateway::pair_from(first, asked.first_form, second, asked.second_form, key).unwrap_or(None)
}

// The signals of two lists, one after the other by type and start.
#[derive(Clone, Copy, Debug)]
struct Pairs<'a> {
    first: &'a [u8],
    second: &'a [u8],
    asked: Asked,
    // past those that have come
    key: usize,
}

impl Iterator for Pairs<'_> {
    type Item = Pair;

    ghost remaining = { λ s. at_most (signal_keys - s.key) };

    fn next(&mut self) -> Option<Pair> {
        let p = pair_from(self.first, self.second, self.asked, self.key)?;
        self.key = p.key + 1;
        Some(p)
    }
}

fn pairs_of<'a>(first: &'a [u8], second: &'a [u8], asked: Asked) -> Pairs<'a> {
    Pairs {
        first,
        second,
        asked,
        key: 0,
    }
}

// `other` is the second gateway's store.
fn all_signals(
    page: &mut Page,
    first: &[u8],
    second: &[u8],
    store: &[u8],
    other: &[u8],
    asked: Asked,
) -> Count {
    let mut count = none();
    for p in pairs_of(first, second, asked) {
        let a = first_side(first, store, asked, p);
        let b = second_side(second, other, asked, p);
        count = print_sides(page, store, other, asked, a, b, count);
    }
    count
}

fn print_of_vehicle(page: &mut Page, vehicle: usize, count: Count) {
    let l = saying::say_number(saying::say(saying::empty(), b"vehicle "), vehicle as u64);
    let l = saying::say_number(saying::say(l, b" differs on "), count.differ);
    let l = saying::say_number(saying::say(l, b" of "), count.lines);
    saying::add(page, saying::say(l, b" lines"));
}

fn print_head(page: &mut Page, store: &[u8], other: &[u8], asked: Asked) {
    let v = asked.vehicle;
    if asked.behind {
        words::print_heads(page, store, asked.clock, other, asked.second_clock, v);
    } else {
        words::print_head(page, store, asked.clock, v);
    }
}

fn one_vehicle(
    page: &mut Page,
    first: &[u8],
    second: &[u8],
    store: &[u8],
    other: &[u8],
    asked: Asked,
    so_far: Count,
) -> Count {
    if !asked.table {
        print_head(page, store, other, asked);
    }
    let count = all_signals(page, first, second, store, other, asked);
    if !asked.table {
        print_of_vehicle(page, asked.vehicle, count);
    }
    Count {
        lines: so_far.lines.wrapping_add(count.lines),
        differ: so_far.differ.wrapping_add(count.differ),
    }
}

fn of_vehicle(asked: Asked, vehicle: usize) -> Asked {
    Asked { vehicle, ..asked }
}

// Where the line of a pair has come to once the first list's value is said, if it has one.
fn end_of(asked: Asked, a: Option<Side>, b: Option<Side>) -> usize {
    let Some(side) = a.or(b) else {
        return 0;
    };
    let l = say_signal(saying::pad(saying::empty(), 6), asked, side.signal, a, b);
    match a {
        Some(a) => words::end_of_value(l, a.signal.width),
        None => l.at,
    }
}

// The column at which the first list's values end: 45, or as far right as the longest line needs.
fn left_column(first: &[u8], second: &[u8], store: &[u8], asked: Asked) -> usize {
    let mut column = 45;
    for p in pairs_of(first, second, asked) {
        let a = first_side(first, store, asked, p);
        let b = second_side(second, store, asked, p);
        column = column.max(end_of(asked, a, b));
    }
    column
}

// With the columns of these two lists.
fn in_columns(asked: Asked, first: &[u8], second: &[u8], n: Counts, store: &[u8]) -> Asked {
    let left = left_column(first, second, store, asked);
    let at = bar(left);
    let least = at.wrapping_add(17);
    let behind = at.wrapping_add(1);
    let form = asked.second_form;
    let right = words::value_column(second, form, n.signals, behind, false, least);
    Asked {
        left,
        right,
        ..asked
    }
}

fn all_vehicles(
    page: &mut Page,
    first: &[u8],
    second: &[u8],
    store: &[u8],
    other: &[u8],
    asked: Asked,
) -> Count {
    let mut count = none();
    for v in 1..=VEHICLES {
        if words::is_heard_by(store, other, v) {
            let a = of_vehicle(asked, v);
            count = one_vehicle(page, first, second, store, other, a, count);
        }
    }
    if !asked.table {
        words::print_never_by(page, store, other);
    }
    count
}

fn none() -> Count {
    Count {
        lines: 0,
        differ: 0,
    }
}

fn print_list(rt: &impl Env, page: &mut Page, name: &[u8], i: usize, n: Counts) {
    let l = saying::say_argument(rt, saying::say(saying::empty(), name), i, b"");
    let l = saying::say_number(saying::say(l, b" signals "), n.signals as u64);
    saying::add(
        page,
        saying::say_number(saying::say(l, b" version "), n.version as u64),
    );
}

fn print_count(page: &mut Page, asked: Asked, count: Count) {
    if asked.table {
        return;
    }
    let l = saying::say_number(saying::say(saying::empty(), b"differ: "), count.differ);
    let l = saying::say_number(saying::say(l, b" of "), count.lines);
    saying::add(page, saying::say(l, b" lines"));
}

fn print_names(page: &mut Page, form: u8, is_behind: bool) {
    let l = saying::say(
        saying::empty(),
        b"vehicle\ttelegram\tversion\tage\ttype\tstart\tdiffers",
    );
    let l = saying::say(l, b"\twidth_1\tvalue_1\treason_1");
    let l = saying::say(l, b"\twidth_2\tvalue_2\treason_2\tgap");
    let l = words::say_serial_name(l, form, b"serial_1\tserial_2");
    let l = saying::say(l, b"\tshown_1\tshown_2\tunit");
    let l = if is_behind {
        saying::say(l, b"\ttelegram_2\tversion_2\tage_2\tgap_2")
    } else {
        l
    };
    saying::add(page, l);
}

// What stands above the lines: the two lists, or the names of the columns.
fn print_above(rt: &impl Env, page: &mut Page, m: Counts, n: Counts, asked: Asked) {
    if asked.table {
        print_names(page, form_of_table(asked), asked.behind);
        return;
    }
    print_list(rt, page, b"first  ", 1, m);
    print_list(rt, page, b"second ", 2, n);
}

fn print_asked(
    rt: &impl Env,
    first: &[u8],
    m: Counts,
    second: &[u8],
    n: Counts,
    store: &[u8],
    other: &[u8],
    asked: Asked,
) {
    let mut page = saying::new_page();
    print_above(rt, &mut page, m, n, asked);
    if asked.all {
        let count = all_vehicles(&mut page, first, second, store, other, asked);
        print_count(&mut page, asked, count);
    } else {
        let count = one_vehicle(&mut page, first, second, store, other, asked, none());
        print_count(&mut page, asked, count);
    }
    saying::flush(&mut page);
}

// The counts of a list; a list that is not accepted is said to be refused.
fn judge(list: &[u8], form: u8, of: &[u8]) -> Option<Counts> {
    match gateway::judge(list, form) {
        Ok(n) => Some(n),
        Err(f) => {
            words::print_refused_of(f, of);
            None
        }
    }
}

// Whether a vehicle can be asked for in a store; `of` says which of two it is where it is refused.
fn is_held(store: &[u8], vehicle: usize, of: &[u8]) -> bool {
    if let Err(f) = gateway::holding(store, 0, vehicle) {
        words::print_refused_store_of(f, store.len(), of);
        return false;
    }
    true
}

// Refused is 5 of either store, then 6.
fn are_held(store: &[u8], other: &[u8], asked: Asked) -> bool {
    let are_stores = !asked.behind
        || is_held(store, 1, b" (first store)") && is_held(other, 1, b" (second store)");
    are_stores && is_held(store, asked.vehicle, b"")
}

// Refused as a reading is: 1 to 4 of either list, then 5 and 6.
fn compare(rt: &impl Env, first: &[u8], second: &[u8], store: &[u8], other: &[u8], asked: Asked) {
    let Some(m) = judge(first, asked.first_form, b" (first list)") else {
        return;
    };
    let Some(n) = judge(second, asked.second_form, b" (second list)") else {
        return;
    };
    if !are_held(store, other, asked) {
        return;
    }
    let placed = in_columns(asked, first, second, n, store);
    print_asked(rt, first, m, second, n, store, other, placed);
}

// The store of the second gateway is the first's, where it has none of its own.
fn read_behind(rt: &impl Host, first: &[u8], second: &[u8], store: &[u8], asked: Asked) {
    if !asked.behind {
        compare(rt, first, second, store, store, asked);
        return;
    }
    let mut other = [0u8; STORE + 1];
    let Ok(m) = files::read(rt, 6, b"second STORE", &mut other) else {
        return;
    };
    compare(rt, first, second, store, &other[..m], asked);
}

fn read_others(rt: &impl Host, first: &[u8], asked: Asked) {
    let mut second = [0u8; LONGEST + 1];
    let Ok(n) = files::read(rt, 2, b"second LIST", &mut second) else {
        return;
    };
    let mut store = [0u8; STORE + 1];
    let Ok(m) = files::read(rt, 3, b"STORE", &mut store) else {
        return;
    };
    read_behind(rt, first, &second[..n], &store[..m], asked);
}

fn read_files(rt: &impl Host, asked: Asked) {
    let mut first = [0u8; LONGEST + 1];
    let Ok(n) = files::read(rt, 1, b"first LIST", &mut first) else {
        return;
    };
    read_others(rt, &first[..n], asked);
}

// Whether the words next to the clock name a second store and its clock.
fn is_behind(rt: &impl Env, n: usize) -> bool {
    7 < n && saying::is_word(rt, 5, b"behind")
}

// The place of the vehicle, if it is given, and of the options if it is not.
fn vehicle_at(is_behind: bool) -> usize
    ensures { 1 ≤ result }
{
    if is_behind { 8 } else { 5 }
}

// What the words behind the clocks say, but for the vehicle.
fn options(rt: &impl Env, n: usize) -> Asked {
    let behind = is_behind(rt, n);
    let from = vehicle_at(behind);
    let first = saying::has_option(rt, from, n, b"first-form2");
    let second = saying::has_option(rt, from, n, b"second-form2");
    Asked {
        clock: 0,
        behind,
        second_clock: 0,
        vehicle: 1,
        all: true,
        only: saying::has_option(rt, from, n, b"only"),
        table: saying::has_option(rt, from, n, b"table"),
        first_form: words::form_of(first),
        second_form: words::form_of(second),
        left: 0,
        right: 0,
    }
}

fn words_of(n: usize, o: Asked) -> usize {
    let shown = saying::one_if(o.only) + saying::one_if(o.table);
    let first = saying::one_if(o.first_form == FORM_2);
    let second = saying::one_if(o.second_form == FORM_2);
    saying::words_before(n, shown + first + second)
}

// The last word before the options is the place of the vehicle, or the one before it.
fn ask(rt: &impl Host, words: usize, at: usize, o: Asked) {
    let Some(clock) = saying::clock_argument(rt, 4) else {
        return;
    };
    let Some(second_clock) = saying::clock_argument(rt, if o.behind { 7 } else { 4 }) else {
        return;
    };
    let Some(vehicle) = saying::number_or(rt, words, at, b"VEHICLE", 1) else {
        return;
    };
    let asked = Asked {
        clock,
        second_clock,
        vehicle: vehicle as usize,
        all: words < at,
        ..o
    };
    read_files(rt, asked);
}

fn main(rt: HostRuntime) {
    let n = saying::argument_count(&rt);
    if saying::asks_help(&rt, n) {
        help();
        return;
    }
    let o = options(&rt, n);
    let words = words_of(n, o);
    let at = vehicle_at(o.behind);
    if words == at || words == at - 1 {
        ask(&rt, words, at, o);
        return;
    }
    saying::print_usage(
        b"differ LIST LIST STORE CLOCK [behind STORE2 CLOCK2] [VEHICLE] [only] [table] [first-form2] [second-form2]",
    );
}
