// What the signals of UIC 556 Appendix B are shown as, by its types of data; all others are codes. The places are the standard's, so they serve every
// list that has a signal of 16 bits there. The column `kind` of data/signals.csv says the same, and the gate holds the two against each other.
use gateway::{Kind, Signal};

// By start, each with its serial number.
fn kind_in_r3(start: usize) -> Kind {
    match start {
        80 => Kind::Speed, // 4.29/2
        _ => Kind::Code,
    }
}

fn kind_in_r1(start: usize) -> Kind {
    match start {
        384 => Kind::SignedPercentage, // 4.23/1
        400 => Kind::Speed, // 4.28
        432 => Kind::Current, // 4.36/1
        528 => Kind::SignedPercentage, // 4.46/2
        _ => Kind::Code,
    }
}

fn kind_in_r2(start: usize) -> Kind {
    match start {
        384 => Kind::SignedPercentage, // 4.23/2
        400 => Kind::SignedPercentage, // 4.24
        432 => Kind::Current, // 4.36/2
        480 => Kind::SignedPercentage, // 4.45/1
        496 => Kind::SignedPercentage, // 4.45/2
        528 => Kind::SignedPercentage, // 4.46/4
        544 => Kind::SignedPercentage, // 4.46/3
        _ => Kind::Code,
    }
}

pub fn kind_of(s: Signal) -> Kind {
    if s.width != 16 {
        return Kind::Code;
    }
    match s.kind {
        0 => kind_in_r3(s.start),
        1 => kind_in_r1(s.start),
        2 => kind_in_r2(s.start),
        _ => Kind::Code,
    }
}
