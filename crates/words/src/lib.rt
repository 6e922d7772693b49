// What document 01 names, in a program's words: reasons, refusals, places, serial numbers and units, what stands in a store and what is read out of it.
// No function that a program's input reaches has a `requires`.
#![tactic(auto)]

mod believed;
mod broken;
mod columns;
mod kinds;
mod replaced;
mod said;
mod scaled;
mod sent;
mod serial;
mod vehicles;

pub use believed::{
    Totals, count_reason, is_heard, is_heard_by, no_totals, print_head, print_heads, print_never,
    print_never_by, print_totals, say_gap_tab, say_head, say_held_tabs,
};
pub use broken::{print_refused_list, print_refused_list_of, print_refused_profile};
pub use columns::{end_of_value, value_column};
pub use replaced::{Written, may_replace};
pub use said::{
    print_refused, print_refused_of, print_refused_store, print_refused_store_of, say_field,
    say_place, say_reason, say_refused, say_refused_store, say_telegram,
};
pub use scaled::{
    not_scaled, say_both_shown, say_both_shown_tabs, say_shown, say_shown_tabs, shown_at,
};
pub use sent::{REMEDIES, is_carried, write_remedies, write_telegram};
pub use serial::{
    form_of, say_beside, say_both_beside, say_serial, say_serial_name, say_serial_tab, say_signal,
    serial_at,
};
pub use vehicles::{Vehicles, no_vehicles, say_vehicles, with_vehicle};
