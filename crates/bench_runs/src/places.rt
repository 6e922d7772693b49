// Looks bits up in the R1 grouping, and writes what each is answered: document 01's two cases, the first and the last bit of every row,
// and both neighbours of the whole range.
const BITS: [u64; 38] = [
    492, 360, 368, 423, 424, 455, 456, 463, 464, 487, 488, 491, 492, 495, 496, 503, 504, 511, 512,
    519, 520, 527, 528, 535, 536, 543, 544, 551, 552, 559, 560, 567, 568, 575, 576, 583, 367, 584,
];

fn show(bit: u64) {
    let l = words::say_field(saying::empty(), bit as usize, 1);
    saying::print(match gateway::check_place(bit) {
        Ok(place) => words::say_field(saying::say(l, b": check place "), place, 1),
        Err(f) => saying::say_number(saying::say(l, b": refused "), f.number() as u64),
    });
}

pub fn run() {
    for &bit in &BITS {
        show(bit);
    }
}
