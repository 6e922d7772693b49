// Texts of two octets a character (UNICODE16), as people read and write them: in UTF-8, with `\u` and four hexadecimal digits for what cannot be shown,
// and two backslashes for one; and a language's two letters. What has a `requires` is inner.
#![tactic(auto)]

mod hex;
mod language;
mod read;
mod spell;

pub use hex::{digit, pair};
pub use language::{NO_LANGUAGE, read_language, spell_language};
pub use read::{ABOVE, END, ESCAPE, Reading, read_text};
pub use spell::spell_text;
