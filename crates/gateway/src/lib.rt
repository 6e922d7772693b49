// The door: every call that the library offers to a Rattle caller, with what it takes and answers. None has a `requires`: each tests its own
// input, and refuses it by the paper's numbers.
#![tactic(auto)]

pub use comparing::{Changed, Range, codes_gained, route_change, signal_change};
pub use composing::compose;
pub use consist::{Vehicle, resolve_train};
pub use entries::{Route, Signal};
pub use etelegrams::{EReading, e_answer, e_read};
pub use extending::extends;
pub use faults::{Fault, find_fault};
pub use finding::{Entry, PAST_KEYS, find_signal, route_entry, signal_entry};
pub use forms::{serial_of, to_form_1, to_form_2};
pub use grouping::check_place;
pub use lists::{Counts, FORM_1, FORM_2, LONGEST, judge};
pub use marshalling::marshal;
pub use pairing::{Pair, pair_from};
pub use profiles::{Profile, find_breach, judge_profile};
pub use reading::{Reading, Reason, read, read_all, read_train};
pub use recordings::{MOST_STEPS, Routed, WrongBit, check_step};
pub use records::{Level, Property, christen, property_of};
pub use refusals::{ListRefused, Refusal};
pub use relaying::relay;
pub use shown::{Kind, Shown, ShownReading, show};
pub use store::{Held, STORE, TELEGRAM, VEHICLES, gap, holding, sweep, take};
pub use texts::{Remedies, Remedy, read_remedies, remedy_block, remedy_text};
pub use textwriting::{write_area, write_remedies};
pub use train::{Members, resolve};
