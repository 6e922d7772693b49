// How the programs say something and how they are spoken to: lines in columns, words and numbers as arguments, and lines of words in a text file.
// No function that a program's input reaches has a `requires`.
#![tactic(auto)]

mod argument;
mod line;
mod page;
mod split;

// The standard output, as `io` takes it.
pub const STDOUT: i32 = 1;

pub use argument::{
    argument_count, asks_help, clock_argument, has_option, is_word, number_argument, number_of,
    number_or, one_if, parse, print_usage, print_word, say_argument, say_error, say_quoted,
    words_before,
};
pub use line::{Line, empty, pad, print, put, said, say, say_number, say_right, say_tab};
pub use page::{Page, add, flush, new_page};
pub use split::{parted, word, word_count};
