// The bench examples of document 01, run on the compiled calls: the marked cases, and the R1 grouping at every edge.
#![tactic(auto)]

mod marked;
mod places;

fn main() {
    marked::run();
    places::run();
}
