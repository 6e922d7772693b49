// Judges the signal list whose path is its argument, under a profile where one is named, and says in one line what was found.
#![tactic(auto)]

ghost use Rattle.std.specs.Prelude.{◌≤◌};
ghost use Rattle.saying.specs.Lines.{InRoom};

use files::Host;
use gateway::{Counts, LONGEST, Profile};
use saying::{Line, STDOUT};

fn help() {
    io::write_all(
        STDOUT,
        b"judge LIST [form2] [plain-coach|driving-trailer]

Judges the signal list LIST: in form 1, or with the word `form2` in form 2, in
which each signal has a serial number (`convert help` says more). An accepted
list gets one line with its counts and its version, the greatest since-version
of its signals, 1 where it has none.
A list that breaks a rule gets one line that begins with `refused`, the number
of document 01 and the offset of what is wrong:
  1 list ends inside a count or a section    3 entry breaks its rule
  2 count above its limit                    4 octets after the routes
With 3 the line goes on with the entry, its signal's place (in form 2 with the
serial number) and the first rule that it breaks, numbered in the order of
document 01's sentences:
  checks   1 even  2 from 16  3 to 1022  4 rising
  signals  1 width  2 type  3 place  4 check  5 since  6 limit  7 replacement
           8 types rising  9 start past the end before  10 no bit of a check
  codes    1 signal  2 its width  3 low, high  4 high in the width
           5 signals rising  6 low past the high before by 2
  routes   1 signal  2 vehicle  3 zero  4 to bit 2048  5 past the end before
Checks are counted from 1, all other entries from 0.
With the word `plain-coach` or `driving-trailer` a list that these rules accept
is held to the profile for the small controllers of such vehicles, which the
line of an accepted list names, as `profile=plain-coach`. The first entry in
list order that breaks the profile is refused, 34, with its offset, and the line
goes on as with 3. The rules of a profile have numbers of their own:
  signals  1 type 0, for driving trailers 0 or 1  2 at most 64  3 has a check
           4 limit 1 to 5,000 ms  5 replacement a known code
           6 R1: in octets 47-73, wholly under the grouping's check place
  routes   1 to bit 128, the end of 16 octets
The words `form2` and a profile's may be combined, in any order.
A file that cannot be read gets one line that begins with `error`.
",
    );
}

fn say_count(line: Line, name: &[u8], n: usize) -> Line
    ensures { InRoom line.at result.at }
{
    saying::say_number(saying::say(line, name), n as u64)
}

fn accepted() -> Line
    ensures { result.at ≤ 240 }
{
    saying::say(saying::empty(), b"list ok")
}

fn accepted_under(profile: Profile) -> Line
    ensures { result.at ≤ 240 }
{
    match profile {
        Profile::PlainCoach => saying::say(accepted(), b" profile=plain-coach"),
        Profile::DrivingTrailer => saying::say(accepted(), b" profile=driving-trailer"),
    }
}

fn print_counts(line: Line, n: Counts) {
    let l = say_count(line, b" checks=", n.checks);
    let l = say_count(l, b" signals=", n.signals);
    let l = say_count(l, b" codes=", n.codes);
    let l = say_count(l, b" routes=", n.routes);
    saying::print(say_count(l, b" version=", n.version));
}

fn say(list: &[u8], form: u8) {
    match gateway::judge(list, form) {
        Ok(n) => print_counts(accepted(), n),
        Err(f) => words::print_refused_list(list, form, f),
    }
}

fn say_under(profile: Profile, list: &[u8], form: u8) {
    match gateway::judge_profile(profile, list, form) {
        Ok(n) => print_counts(accepted_under(profile), n),
        Err(f) => words::print_refused_profile(profile, list, form, f),
    }
}

// By the general rules, and those of a profile behind them. One octet more than the longest list: what follows cannot change the answer.
fn judge(rt: &impl Host, form: u8, profile: Option<Profile>) {
    let mut list = [0u8; LONGEST + 1];
    let Ok(n) = files::read(rt, 1, b"LIST", &mut list) else {
        return;
    };
    match profile {
        None => say(&list[..n], form),
        Some(profile) => say_under(profile, &list[..n], form),
    }
}

fn profile_of(is_coach: bool, is_trailer: bool) -> Option<Profile> {
    if is_coach {
        return Some(Profile::PlainCoach);
    }
    is_trailer.then_some(Profile::DrivingTrailer)
}

fn main(rt: HostRuntime) {
    let n = saying::argument_count(&rt);
    if saying::asks_help(&rt, n) {
        help();
        return;
    }
    let is_form_2 = saying::has_option(&rt, 2, n, b"form2");
    let is_coach = saying::has_option(&rt, 2, n, b"plain-coach");
    let is_trailer = saying::has_option(&rt, 2, n, b"driving-trailer");
    // A list has one profile: with both words one is left, and is taken for a word too many.
    let options = saying::one_if(is_form_2) + saying::one_if(is_coach || is_trailer);
    if saying::words_before(n, options) == 1 {
        judge(
            &rt,
            words::form_of(is_form_2),
            profile_of(is_coach, is_trailer),
        );
        return;
    }
    saying::print_usage(b"judge LIST [form2] [plain-coach|driving-trailer]");
}
