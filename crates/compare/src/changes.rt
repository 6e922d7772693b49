// What differs between two lists, one after the other: signals by type and start, routes by destination, and the codes of a signal that one list gains.
ghost use Rattle.std.specs.Prelude.{◌-◌, ◌≤◌, ◌<◌, IfSome};
ghost use Rattle.std.specs.Iterator.{at_most};
ghost use Rattle.paper.specs.Pairs.{signal_keys};
ghost use Rattle.paper.specs.Comparing.{route_keys};

use crate::telling::Asked;
use gateway::{Changed, Range};

fn signal_from(a: &[u8], b: &[u8], asked: Asked, key: usize) -> Option<Changed>
    ensures { IfSome result (λ c. (key ≤ c.key) × (c.key < signal_keys)) }
{
    gateway::signal_change(a, asked.first_form, b, asked.second_form, key).unwrap_or(None)
}

fn route_from(a: &[u8], b: &[u8], asked: Asked, key: usize) -> Option<Changed>
    ensures { IfSome result (λ c. (key ≤ c.key) × (c.key < route_keys)) }
{
    gateway::route_change(a, asked.first_form, b, asked.second_form, key).unwrap_or(None)
}

fn codes_from(a: &[u8], form: u8, b: &[u8], other: u8, key: usize, from: usize) -> Option<Range>
    ensures { IfSome result (λ r. (from ≤ r.high) × (r.high < 65536)) }
{
    gateway::codes_gained(a, form, b, other, key, from).unwrap_or(None)
}

#[derive(Clone, Copy, Debug)]
pub struct ChangedSignals<'a> {
    a: &'a [u8],
    b: &'a [u8],
    asked: Asked,
    // past those that have come
    key: usize,
}

impl Iterator for ChangedSignals<'_> {
    type Item = Changed;

    ghost remaining = { λ s. at_most (signal_keys - s.key) };

    fn next(&mut self) -> Option<Changed> {
        let c = signal_from(self.a, self.b, self.asked, self.key)?;
        self.key = c.key + 1;
        Some(c)
    }
}

pub fn changed_signals<'a>(a: &'a [u8], b: &'a [u8], asked: Asked) -> ChangedSignals<'a> {
    ChangedSignals {
        a,
        b,
        asked,
        key: 0,
    }
}

#[derive(Clone, Copy, Debug)]
pub struct ChangedRoutes<'a> {
    a: &'a [u8],
    b: &'a [u8],
    asked: Asked,
    // past those that have come
    key: usize,
}

impl Iterator for ChangedRoutes<'_> {
    type Item = Changed;

    ghost remaining = { λ s. at_most (route_keys - s.key) };

    fn next(&mut self) -> Option<Changed> {
        let c = route_from(self.a, self.b, self.asked, self.key)?;
        self.key = c.key + 1;
        Some(c)
    }
}

pub fn changed_routes<'a>(a: &'a [u8], b: &'a [u8], asked: Asked) -> ChangedRoutes<'a> {
    ChangedRoutes {
        a,
        b,
        asked,
        key: 0,
    }
}

// The codes that the list b knows of the signal at a key and a does not.
#[derive(Clone, Copy, Debug)]
pub struct CodesGained<'a> {
    a: &'a [u8],
    form: u8,
    b: &'a [u8],
    other: u8,
    key: usize,
    // past those that have come
    from: usize,
}

impl Iterator for CodesGained<'_> {
    type Item = Range;

    ghost remaining = { λ s. at_most (65536 - s.from) };

    fn next(&mut self) -> Option<Range> {
        let r = codes_from(self.a, self.form, self.b, self.other, self.key, self.from)?;
        self.from = r.high + 1;
        Some(r)
    }
}

pub fn codes_gained<'a>(
    a: &'a [u8],
    form: u8,
    b: &'a [u8],
    other: u8,
    key: usize,
) -> CodesGained<'a> {
    CodesGained {
        a,
        form,
        b,
        other,
        key,
        from: 0,
    }
}
