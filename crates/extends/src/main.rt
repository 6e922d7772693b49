// Says in one line whether the signal list at its second path extends the one at its first.
#![tactic(auto)]

use files::Host;
use gateway::{LONGEST, ListRefused};
use saying::STDOUT;

fn help() {
    io::write_all(
        STDOUT,
        b"extends FIRST SECOND [first-form2] [second-form2]

Whether the signal list SECOND extends the signal list FIRST, so that gateways
with either understand what the other composes: `extends: yes` or `extends: no`.
A list that breaks a rule gets one line that begins with `refused`, the number
of document 01, the offset of what is wrong and which list it is.
The lists are in form 1; with the words `first-form2` and `second-form2`, of
which both may be given, that list is in form 2, and its serial numbers count
for nothing here.
A file that cannot be read gets one line that begins with `error`.
The exit status is as of `diff`: 0 yes, 1 no, 2 refused or error.
",
    );
}

fn show(found: Result<bool, ListRefused>) {
    match found {
        Ok(true) => saying::print(saying::say(saying::empty(), b"extends: yes")),
        Ok(false) => saying::print(saying::say(saying::empty(), b"extends: no")),
        Err(ListRefused::First(f)) => words::print_refused_of(f, b" (first list)"),
        Err(ListRefused::Second(f)) => words::print_refused_of(f, b" (second list)"),
    }
}

// One octet more than the longest list: what follows cannot change the answer.
fn compare(rt: &impl Host, first_form: u8, second_form: u8) {
    let mut a = [0u8; LONGEST + 1];
    let Ok(m) = files::read(rt, 1, b"FIRST", &mut a) else {
        return;
    };
    let mut b = [0u8; LONGEST + 1];
    let Ok(n) = files::read(rt, 2, b"SECOND", &mut b) else {
        return;
    };
    show(gateway::extends(&a[..m], first_form, &b[..n], second_form));
}

fn main(rt: HostRuntime) {
    let n = saying::argument_count(&rt);
    if saying::asks_help(&rt, n) {
        help();
        return;
    }
    let first = saying::has_option(&rt, 3, n, b"first-form2");
    let second = saying::has_option(&rt, 3, n, b"second-form2");
    let options = saying::one_if(first) + saying::one_if(second);
    if saying::words_before(n, options) == 2 {
        compare(&rt, words::form_of(first), words::form_of(second));
        return;
    }
    saying::print_usage(b"extends FIRST SECOND [first-form2] [second-form2]");
}
