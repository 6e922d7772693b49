// Fields, numbers and runs of octets in lent slices. What has a `requires` is inner: its caller in the library shows it.
#![tactic(auto)]

ghost use Rattle.std.specs.Prelude.{◌≡◌, ◌+◌, ◌-◌, ◌*◌, ◌%◌, ◌^◌, ◌<◌, ◌≤◌, length, replicate};
ghost use Rattle.paper.specs.Octets.{field, fits, put, octets_of, over, field_of, with_field};
ghost use Rattle.octets.specs.Fields.{Within, FieldRead, NumberRead, merged};

// Whether v fits in a field of w bits: any value does from 64 bits on.
pub fn fits(v: u64, w: usize) -> bool
    ensures { result ≡ fits v w }
{
    if w < 64 { v < 1 << w } else { true }
}

// Inner: the greatest value that fits in w bits.
pub fn most(w: usize) -> u64
    requires { (1 ≤ w) × (w ≤ 64) }
    ensures { result ≡ 2 ^ w - 1 }
{
    0xFFFF_FFFF_FFFF_FFFF >> (64 - w)
}

// The low n bits of x.
fn low(x: u64, n: usize) -> u64
    requires { n < 64 }
    ensures { result ≡ x % 2 ^ n }
{
    x & ((1 << n) - 1)
}

// hi, then the n bits lo.
fn join(hi: u64, n: usize, lo: u64) -> u64
    requires { (n < 64) × (lo < 2 ^ n) × (hi * 2 ^ n + lo < 2 ^ 64) }
    ensures { result ≡ hi * 2 ^ n + lo }
{
    hi << n | lo
}

// The n bits from bit b of the octet x.
fn field_of(x: u8, b: usize, n: usize) -> u64
    requires { (0 < n) × (b + n ≤ 8) }
    ensures { result ≡ field_of x b n }
{
    low(x as u64 >> (8 - (b + n)), n)
}

// The octet x with the low n bits of v from bit b.
fn with_field(x: u8, b: usize, n: usize, v: u64) -> u8
    requires { b + n ≤ 8 }
    ensures { result ≡ with_field x b n v }
{
    let y = x as u64;
    let k = 8 - (b + n);
    join(join(y >> (8 - b), n, low(v, n)), k, low(y, k)) as u8
}

// The field that lies in the eight octets from q on, b bits in.
fn read_window(s: &[u8], q: usize, b: usize, width: usize) -> u64
    requires { (q + 8 ≤ length s.now) × (1 ≤ width) × (b + width ≤ 64) }
    ensures { result ≡ field s.now (8 * q + b) width }
{
    read64(s, q) << b >> (64 - width)
}

// The field that begins in octet q and ends in the octet behind the eight.
fn read_nine(s: &[u8], q: usize, b: usize, width: usize) -> u64
    requires { (q + 9 ≤ length s.now) × (b < 8) × (64 < b + width) × (width ≤ 64) }
    ensures { result ≡ field s.now (8 * q + b) width }
{
    let left = b + width - 64;
    join(
        read_window(s, q, b, 64 - b),
        left,
        wide(s[q + 8]) as u64 >> (8 - left),
    )
}

// What no eight octets hold: a field over nine, or one of fewer octets, by the octet, from its last.
// LLVM inlines no function that calls itself, and so inlines `read_field`; `&s[..]` leaves the caller's s in registers.
fn read_rest(s: &[u8], start: usize, width: usize) -> u64
    requires { Within s.now start width }
    ensures { FieldRead s.now start width result }
{
    let q = start / 8;
    let b = start % 8;
    if 64 < b + width {
        return read_nine(s, q, b, width);
    }
    let end = b + width - 1;
    if end < 8 {
        return field_of(s[q], b, width);
    }
    let n = end % 8 + 1;
    let last = field_of(s[q + end / 8], 0, n);
    join(read_rest(&s[..], start, width - n), n, last)
}

// Inner: the field of `width` bits from bit `start`. Eight octets are read at once: those from its first on, or the last eight. Nothing is added to
// `start`, as the sum might pass a usize.
pub fn read_field(s: &[u8], start: usize, width: usize) -> u64
    requires { Within s.now start width }
    ensures { FieldRead s.now start width result }
{
    if 8 <= s.len() {
        let q = (start / 8).min(s.len() - 8);
        let b = start - 8 * q;
        if b + width <= 64 {
            return read_window(s, q, b, width);
        }
    }
    read_rest(&s[..], start, width)
}

// Inner: the field of two bits from an even bit on: it lies in one octet, so that one is read.
pub fn read_pair(s: &[u8], start: usize) -> u64
    requires { (start % 2 ≡ 0) × (Within s.now start 2) }
    ensures { FieldRead s.now start 2 result }
{
    field_of(s[start / 8], start % 8, 2)
}

// x with the low n bits of v in place of its n bits above the k lowest.
fn merge(x: u64, k: usize, n: usize, v: u64) -> u64
    requires { (1 ≤ n) × (k + n ≤ 64) }
    ensures { result ≡ merged x k n v }
{
    let ones = 0xFFFF_FFFF_FFFF_FFFF >> (64 - n);
    x - (x & ones << k) + ((v & ones) << k)
}

fn write_window(s: &mut [u8], q: usize, b: usize, width: usize, v: u64)
    requires { (q + 8 ≤ length s.old) × (1 ≤ width) × (b + width ≤ 64) }
    ensures { s.new ≡ put s.old (8 * q + b) width v }
{
    let x = read64(s, q);
    write64(s, q, merge(x, 64 - (b + width), width, v));
}

fn write_nine(s: &mut [u8], q: usize, b: usize, width: usize, v: u64)
    requires { (q + 9 ≤ length s.old) × (b < 8) × (64 < b + width) × (width ≤ 64) }
    ensures { s.new ≡ put s.old (8 * q + b) width v }
{
    let left = b + width - 64;
    write_window(s, q, b, 64 - b, v >> left);
    s[q + 8] = with_field(s[q + 8], 0, left, v);
}

fn write_rest(s: &mut [u8], start: usize, width: usize, v: u64)
    requires { Within s.old start width }
    ensures { s.new ≡ put s.old start width v }
{
    let q = start / 8;
    let b = start % 8;
    if 64 < b + width {
        write_nine(s, q, b, width, v);
        return;
    }
    let end = b + width - 1;
    if end < 8 {
        s[q] = with_field(s[q], b, width, v);
        return;
    }
    let n = end % 8 + 1;
    write_rest(&mut s[..], start, width - n, v >> n);
    s[q + end / 8] = with_field(s[q + end / 8], 0, n, v);
}

// Inner: v, of which the low `width` bits count, into the field, in the same way; but one octet alone where the field lies in it, since eight that were
// just written in part are waited for when they are read again.
pub fn write_field(s: &mut [u8], start: usize, width: usize, v: u64)
    requires { Within s.old start width }
    ensures { s.new ≡ put s.old start width v }
{
    let within = start % 8;
    if within + width <= 8 {
        s[start / 8] = with_field(s[start / 8], within, width, v);
        return;
    }
    if 8 <= s.len() {
        let q = (start / 8).min(s.len() - 8);
        let b = start - 8 * q;
        if b + width <= 64 {
            write_window(s, q, b, width, v);
            return;
        }
    }
    write_rest(&mut s[..], start, width, v);
}

pub fn wide(x: u8) -> usize
    ensures { (result ≡ x) × (result < 256) }
{
    x as usize
}

// Inner: the number of two octets from `at` on, high octet first.
pub fn read16(s: &[u8], at: usize) -> usize
    requires { at + 2 ≤ length s.now }
    ensures { NumberRead s.now at 2 result }
{
    wide(s[at]) * 256 + wide(s[at + 1])
}

// Inner: of four.
pub fn read32(s: &[u8], at: usize) -> u64
    requires { at + 4 ≤ length s.now }
    ensures { NumberRead s.now at 4 result }
{
    read16(s, at) as u64 * 65536 + read16(s, at + 2) as u64
}

// Inner: of six; the last four first, of which LLVM then makes one load.
pub fn read48(s: &[u8], at: usize) -> u64
    requires { at + 6 ≤ length s.now }
    ensures { NumberRead s.now at 6 result }
{
    read32(s, at + 2) + read16(s, at) as u64 * 4294967296
}

// Inner: of eight; joined by `|`, of which LLVM makes one load.
pub fn read64(s: &[u8], at: usize) -> u64
    requires { at + 8 ≤ length s.now }
    ensures { NumberRead s.now at 8 result }
{
    let high = read16(s, at) as u64 * 281474976710656 + read16(s, at + 2) as u64 * 4294967296;
    high | read32(s, at + 4)
}

// Inner: the octets s in place of those of d from `at` on.
pub fn copy_over(d: &mut [u8], at: usize, s: &[u8])
    requires { at + length s.now ≤ length d.old }
    ensures { d.new ≡ over d.old at s.now }
{
    // No `copy_from_slice`: it calls `memcpy`, a symbol that a firmware would have to bring.
    for i in 0..s.len() {
        d[at + i] = s[i];
    }
}

// Inner: n zeros in place of the octets of d from `at` on.
pub fn fill_zero(d: &mut [u8], at: usize, n: usize)
    requires { at + n ≤ length d.old }
    ensures { d.new ≡ over d.old at (replicate n 0) }
{
    for i in 0..n {
        d[at + i] = 0;
    }
}

// Inner: v, of which the low 16 bits count, into the two octets from `at` on.
pub fn write16(d: &mut [u8], at: usize, v: u32)
    requires { at + 2 ≤ length d.old }
    ensures { d.new ≡ over d.old at (octets_of 2 v) }
{
    d[at] = (v / 256 % 256) as u8;
    d[at + 1] = (v % 256) as u8;
}

// Inner: v into four.
pub fn write32(d: &mut [u8], at: usize, v: u32)
    requires { at + 4 ≤ length d.old }
    ensures { d.new ≡ over d.old at (octets_of 4 v) }
{
    write16(d, at, v / 65536);
    write16(d, at + 2, v);
}

// v into eight.
fn write64(d: &mut [u8], at: usize, v: u64)
    requires { at + 8 ≤ length d.old }
    ensures { d.new ≡ over d.old at (octets_of 8 v) }
{
    write32(d, at, (v / 4294967296) as u32);
    write32(d, at + 4, (v % 4294967296) as u32);
}
