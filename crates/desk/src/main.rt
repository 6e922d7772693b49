// What a driver sees: each side of the train locked, open or not known, and the vehicles that hold it up, each with its reason.
#![tactic(auto)]

ghost use Rattle.std.specs.Prelude.{◌≤◌};
ghost use Rattle.saying.specs.Lines.{InRoom};

use doors::{Doors, Side, State};
use files::Host;
use gateway::{LONGEST, Reason, STORE, VEHICLES};
use saying::{Line, Page, STDOUT};

// The address of every vehicle in the consist.
const EVERY: u64 = 66;

// The bit addresses of the two door signals, octet 20 bits 4 and 5.
const LEFT: usize = 156;

const RIGHT: usize = 157;

#[derive(Clone, Copy, Debug, PartialEq, Eq)]
struct Asked {
    form: u8,
    clock: u32,
    address: u64,
}

fn help() {
    io::write_all(
        STDOUT,
        b"desk LIST STORE CLOCK CONSIST [ADDRESS] [form2]

What a driver sees of the doors at CLOCK: each side of the train LOCKED, OPEN or
NOT KNOWN, and the vehicles that hold it up, each with its reason.

LIST      a signal list with the door signals, R3 octet 20 bits 4 and 5
STORE     a store; `take` makes one and fills it
CLOCK     the millisecond counter now, 0 to 4294967295
CONSIST   a file with an octet for each vehicle in train order, 63 at most: the
          sum of its marks, 1 leading, 2 coach, 4 tractive, 8 led, 16 sleeping
ADDRESS   who is asked: 1-63 that vehicle, 64 leading, 65 led, 66 all, 67 the
          coaches, 70 tractive units, 92 sleeping cars; all if it is left out

Prints a line for each side, as `RIGHT  OPEN       held up by 2`. It is LOCKED
if every vehicle that is asked says so, OPEN if one says open, whatever the
others say, and else NOT KNOWN. Left and right are the train's, not the seat's.
Below it stands a line for each vehicle that holds it up, as
`  vehicle  3  not known  3 too old`: open where its bit is live and 0, else not
known, and the reason of its reading, as `believe` gives it:
  0 live ok        3 too old                   6 mark error
  1 live forced    4 type does not carry it    7 mark undefined
  2 never heard    5 newer than the telegram   8 code not known
A vehicle without doors holds a side up too, unless an address leaves it out; 67
leaves out a special coach or a van, too, and says nothing of its doors.
With the word `form2` LIST is in form 2.

What breaks a rule gets one line that begins with `refused` and the number of
documents 01 and 02, 1 to 5 as `believe` gives them:
  17 consist empty or above 63    19 address not listed
  18 consist rule broken          20 nobody meets it
  35 door signal missing from the list, or wider than a bit
A file that cannot be read or another word gets one line that begins with
`error`.
",
    );
}

fn say_state(line: Line, state: State) -> Line
    ensures { InRoom line.at result.at }
{
    match state {
        State::Locked => saying::say(line, b"LOCKED"),
        State::Open => saying::say(line, b"OPEN"),
        State::Unknown => saying::say(line, b"NOT KNOWN"),
    }
}

// Nobody holds up a side that is locked.
fn say_size(line: Line, size: u32) -> Line
    ensures { InRoom line.at result.at }
{
    if size == 0 {
        return line;
    }
    let l = saying::say(saying::pad(line, 18), b"held up by ");
    saying::say_number(l, size as u64)
}

fn side_line(name: &[u8], side: Side) -> Line
    ensures { result.at ≤ 240 }
{
    let l = saying::pad(saying::say(saying::empty(), name), 7);
    say_size(say_state(l, side.state), side.size)
}

// A vehicle that holds a side up, by the reason of its reading: one that is live is open, since live and locked holds nothing up.
fn vehicle_line(vehicle: usize, reason: Reason) -> Line
    ensures { result.at ≤ 240 }
{
    let l = saying::say(saying::empty(), b"  vehicle");
    let l = saying::say_right(l, 12, vehicle as u64);
    let l = if reason.is_live() {
        saying::say(l, b"  open       ")
    } else {
        saying::say(l, b"  not known  ")
    };
    words::say_reason(l, reason.number())
}

fn print_vehicle(
    page: &mut Page,
    list: &[u8],
    store: &[u8],
    asked: Asked,
    vehicle: usize,
    signal: usize,
) {
    if let Ok(r) = gateway::read(list, asked.form, store, asked.clock, vehicle, signal) {
        saying::add(page, vehicle_line(vehicle, r.reason));
    }
}

// The vehicles of the set: bit v is vehicle v.
fn print_vehicles(
    page: &mut Page,
    list: &[u8],
    store: &[u8],
    asked: Asked,
    set: u64,
    signal: usize,
) {
    for v in 1..=VEHICLES {
        if (set >> v) % 2 == 1 {
            print_vehicle(page, list, store, asked, v, signal);
        }
    }
}

fn print_side(
    page: &mut Page,
    list: &[u8],
    store: &[u8],
    asked: Asked,
    name: &[u8],
    side: Side,
    place: usize,
) {
    saying::add(page, side_line(name, side));
    if let Ok(k) = gateway::find_signal(list, asked.form, 0, place) {
        print_vehicles(page, list, store, asked, side.kept, k);
    }
}

fn print_doors(list: &[u8], store: &[u8], asked: Asked, doors: Doors) {
    let mut page = saying::new_page();
    print_side(&mut page, list, store, asked, b"LEFT", doors.left, LEFT);
    print_side(&mut page, list, store, asked, b"RIGHT", doors.right, RIGHT);
    saying::flush(&mut page);
}

fn answer(list: &[u8], store: &[u8], marks: &[u8], asked: Asked) {
    match doors::summary(list, asked.form, store, asked.clock, marks, asked.address) {
        Err(f) => words::print_refused_store(f, store.len()),
        Ok(d) => print_doors(list, store, asked, d),
    }
}

// A longer consist is cut behind the first octet too many, which 17 refuses.
fn with_consist(rt: &impl Host, list: &[u8], store: &[u8], asked: Asked) {
    let mut marks = [0u8; VEHICLES + 1];
    let Ok(n) = files::read(rt, 4, b"CONSIST", &mut marks) else {
        return;
    };
    answer(list, store, &marks[..n], asked);
}

fn read_files(rt: &impl Host, asked: Asked) {
    let mut list = [0u8; LONGEST + 1];
    let Ok(n) = files::read(rt, 1, b"LIST", &mut list) else {
        return;
    };
    let mut store = [0u8; STORE + 1];
    let Ok(m) = files::read(rt, 2, b"STORE", &mut store) else {
        return;
    };
    with_consist(rt, &list[..n], &store[..m], asked);
}

fn ask(rt: &impl Host, words: usize, form: u8) {
    let Some(clock) = saying::clock_argument(rt, 3) else {
        return;
    };
    let Some(address) = saying::number_or(rt, words, 5, b"ADDRESS", EVERY) else {
        return;
    };
    read_files(
        rt,
        Asked {
            form,
            clock,
            address,
        },
    );
}

fn main(rt: HostRuntime) {
    let n = saying::argument_count(&rt);
    if saying::asks_help(&rt, n) {
        help();
        return;
    }
    let is_form_2 = saying::has_option(&rt, 5, n, b"form2");
    let words = saying::words_before(n, saying::one_if(is_form_2));
    if (4..=5).contains(&words) {
        ask(&rt, words, words::form_of(is_form_2));
        return;
    }
    saying::print_usage(b"desk LIST STORE CLOCK CONSIST [ADDRESS] [form2]");
}
