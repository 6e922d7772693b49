// The R1 grouping: which check place covers a bit of octets 47 to 73.
#![tactic(auto)]

ghost use Rattle.std.specs.Prelude.{◌≡◌};
ghost use Rattle.paper.specs.Telegrams.{check_place};
ghost use Rattle.grouping.specs.Place.{place_answer};

use refusals::Refusal;

// A check place and the bits that it covers, from `from` up to and without `end`, all bit addresses.
#[derive(Clone, Copy, Debug, PartialEq, Eq)]
pub struct Row {
    pub place: usize,
    pub from: u64,
    pub end: u64,
}

const ROWS: [Row; 17] = [
    Row {
        place: 320,
        from: 368,
        end: 424,
    },
    Row {
        place: 322,
        from: 424,
        end: 456,
    },
    Row {
        place: 324,
        from: 456,
        end: 464,
    },
    Row {
        place: 326,
        from: 464,
        end: 488,
    },
    Row {
        place: 328,
        from: 488,
        end: 492,
    },
    Row {
        place: 330,
        from: 492,
        end: 496,
    },
    Row {
        place: 332,
        from: 496,
        end: 504,
    },
    Row {
        place: 334,
        from: 504,
        end: 512,
    },
    Row {
        place: 336,
        from: 512,
        end: 520,
    },
    Row {
        place: 338,
        from: 520,
        end: 528,
    },
    Row {
        place: 340,
        from: 528,
        end: 536,
    },
    Row {
        place: 342,
        from: 536,
        end: 544,
    },
    Row {
        place: 344,
        from: 544,
        end: 552,
    },
    Row {
        place: 346,
        from: 552,
        end: 560,
    },
    Row {
        place: 348,
        from: 560,
        end: 568,
    },
    Row {
        place: 350,
        from: 568,
        end: 576,
    },
    Row {
        place: 352,
        from: 576,
        end: 584,
    },
];

// The check place of the bit at an address.
pub fn check_place(bit: u64) -> Result<usize, Refusal>
    ensures { place_answer result ≡ check_place bit }
{
    // Once, and not at each turn: a constant is built where it stands. Not a `static`: so a row's place stands in the code, and none is loaded.
    let rows = ROWS;
    for row in rows {
        if row.from <= bit && bit < row.end {
            return Ok(row.place);
        }
    }
    Err(Refusal::NoCheckPlace)
}
