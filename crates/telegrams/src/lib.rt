// R-telegrams: their types, lengths and heads, and which signals each type carries.
#![tactic(auto)]

ghost use Rattle.std.specs.Prelude.{◌≡◌, ◌<◌, ◌≤◌, length};
ghost use Rattle.paper.specs.Telegrams.{application_type, telegram_type, is_type, version_of, type_length, carries};

pub fn is_type(kind: usize) -> bool
    ensures { result ≡ is_type kind }
{
    (1 <= kind) & (kind <= 3)
}

pub fn type_length(kind: usize) -> usize
    ensures { result ≡ type_length kind }
{
    if kind == 3 { 40 } else { 128 }
}

// Whether a telegram of a type carries a signal of a type.
pub fn is_carried(telegram: usize, signal: usize) -> bool
    ensures { result ≡ carries telegram signal }
{
    (signal == 0) | (signal == telegram)
}

// Inner: the first four bits of a telegram.
#[tactic(auto, unfolding(paper::specs::Telegrams::application_type))]
pub fn application_type(telegram: &[u8]) -> usize
    requires { 2 ≤ length telegram.now }
    ensures { (result ≡ application_type telegram.now) × (result < 16) }
{
    octets::read_field(telegram, 0, 4) as usize
}

// Inner: the next four.
#[tactic(auto, unfolding(paper::specs::Telegrams::telegram_type))]
pub fn telegram_type(telegram: &[u8]) -> usize
    requires { 2 ≤ length telegram.now }
    ensures { (result ≡ telegram_type telegram.now) × (result < 16) }
{
    octets::read_field(telegram, 4, 4) as usize
}

// Inner: octet 2, where 0 is read as 1.
#[tactic(auto, unfolding(paper::specs::Telegrams::version_of))]
pub fn data_version(telegram: &[u8]) -> usize
    requires { 2 ≤ length telegram.now }
    ensures { (result ≡ version_of telegram.now) × (result < 256) }
{
    octets::wide(telegram[1]).max(1)
}
