// Hexadecimal digits in ASCII.
ghost use Rattle.std.specs.Prelude.{◌≡◌, ◌%◌, ◌≤◌};
ghost use Rattle.spelling.specs.Hex.{digit_of, value_of, pair_of};

// The digit of the low four bits.
pub fn digit(n: u8) -> u8
    ensures { result ≡ digit_of (n % 16) }
{
    let d = n % 16;
    if d < 10 { 48 + d } else { 55 + d }
}

// What a digit stands for, a capital letter or a small one; 16 for what is none.
fn value(x: u8) -> u8
    ensures { (result ≡ value_of x) × (result ≤ 16) }
{
    if x < 48 {
        return 16;
    }
    if x < 58 {
        return x - 48;
    }
    if x < 65 {
        return 16;
    }
    if x < 71 {
        return x - 55;
    }
    if x < 97 {
        return 16;
    }
    if x < 103 {
        return x - 87;
    }
    16
}

// The octet that two digits spell; 256 where one is none.
pub fn pair(x: u8, y: u8) -> u16
    ensures { (result ≡ pair_of x y) × (result ≤ 256) }
{
    let high = value(x);
    let low = value(y);
    if 15 < high {
        return 256;
    }
    if 15 < low {
        return 256;
    }
    16 * high as u16 + low as u16
}
