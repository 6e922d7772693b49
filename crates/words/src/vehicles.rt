// Some of the vehicles, in a line.
ghost use Rattle.std.specs.Prelude.{◌<◌, ◌≤◌};
ghost use Rattle.saying.specs.Lines.{InRoom};

use gateway::VEHICLES;
use saying::{Line, put, say_number};

#[derive(Clone, Copy, Debug, PartialEq, Eq)]
pub struct Vehicles {
    pub count: usize,
    // Which are among them; 0 and 64, beside the ends, are no vehicles.
    pub of: [bool; 65],
}

pub fn no_vehicles() -> Vehicles {
    Vehicles {
        count: 0,
        of: [false; 65],
    }
}

pub fn with_vehicle(vehicles: Vehicles, vehicle: usize) -> Vehicles {
    let mut s = vehicles;
    if vehicle <= VEHICLES {
        s.of[vehicle] = true;
        s.count = s.count.wrapping_add(1);
    }
    s
}

// One vehicle of a line of ranges: where a range begins, its number, where a longer one ends, the dash and its number.
fn say_vehicle(line: Line, vehicles: Vehicles, vehicle: usize) -> Line
    requires { (1 ≤ vehicle) × (vehicle < 64) }
    ensures { InRoom line.at result.at }
{
    if !vehicles.of[vehicle] {
        return line;
    }
    if !vehicles.of[vehicle - 1] {
        return say_number(put(line, b' '), vehicle as u64);
    }
    if !vehicles.of[vehicle + 1] {
        return say_number(put(line, b'-'), vehicle as u64);
    }
    line
}

// As ` 1-3 7`.
pub fn say_vehicles(line: Line, vehicles: Vehicles) -> Line
    ensures { InRoom line.at result.at }
{
    let mut l = line;
    for v in 1..=VEHICLES {
        l = say_vehicle(l, vehicles, v);
    }
    l
}
