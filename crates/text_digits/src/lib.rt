// Bytes and numbers into a lent buffer. Each writer takes the place where it begins and returns the place after what it wrote.
#![tactic(auto)]

ghost use Rattle.std.specs.Prelude.{◌≡◌, [], ◌∷◌, ◌+◌, ◌*◌, ◌-◌, ◌/◌, ◌%◌, ◌≤◌, ◌<◌, ltb, length};
ghost use Rattle.terms.specs.Display.{digit, decimal, hexadecimal};
ghost use Rattle.pool.specs.Node.{wide};
ghost use Rattle.text_digits.specs.Pairs.{four_pairs};
ghost use Rattle.text_digits.specs.Writing.{Room, Wrote};

// The character of a digit below 10.
pub fn decimal_digit(d: u64) -> u8
    requires { d < 10 }
    ensures { result ≡ digit d }
{
    (48 + d) as u8
}

// The character of a digit below 16.
pub fn hex_digit(d: u64) -> u8
    requires { d < 16 }
    ensures { result ≡ digit d }
{
    if d < 10 {
        decimal_digit(d)
    } else {
        (87 + d) as u8
    }
}

// A number as tens and ones.
#[derive(Clone, Copy)]
pub struct Tens {
    pub tens: u64,
    pub ones: u64,
}

// How many tens a number has: twice those of its half, or one more. Of a loop that subtracts tens the compiler makes a division.
fn tens_in(x: u64) -> u64
    ensures { (10 * result ≤ x) × (x < 10 * result + 10) }
{
    if x < 10 {
        return 0;
    }
    let twice = 2 * tens_in(x / 2);
    if x - 10 * twice < 10 {
        return twice;
    }
    twice + 1
}

pub fn tens_of(x: u64) -> Tens
    ensures { (10 * result.tens + result.ones ≡ x) × (result.ones < 10) }
{
    let tens = tens_in(x);
    Tens {
        tens,
        ones: x - 10 * tens,
    }
}

// How many decimal digits a number below 1,000 has.
pub fn decimal_length(x: u64) -> usize
    requires { x < 1000 }
    ensures { (result ≡ length (decimal x)) × (result ≤ 3) }
{
    let digits = if x < 10 { 1 } else { 2 };
    if x < 100 { digits } else { digits + 1 }
}

// The characters of the four numbers from 4 × k on, all below 100: two a number, the tens' first, the first number's lowest. Of a `match`
// the compiler makes a table in read-only memory; a constant array would be copied at each use.
#[tactic(auto, unfolding(crate::specs::Pairs::four_pairs))]
fn pairs(k: u64) -> u64
    requires { k < 25 }
    ensures { result ≡ four_pairs k }
{
    match k {
        0 => 0x3330323031303030,
        1 => 0x3730363035303430,
        2 => 0x3131303139303830,
        3 => 0x3531343133313231,
        4 => 0x3931383137313631,
        5 => 0x3332323231323032,
        6 => 0x3732363235323432,
        7 => 0x3133303339323832,
        8 => 0x3533343333333233,
        9 => 0x3933383337333633,
        10 => 0x3334323431343034,
        11 => 0x3734363435343434,
        12 => 0x3135303539343834,
        13 => 0x3535343533353235,
        14 => 0x3935383537353635,
        15 => 0x3336323631363036,
        16 => 0x3736363635363436,
        17 => 0x3137303739363836,
        18 => 0x3537343733373237,
        19 => 0x3937383737373637,
        20 => 0x3338323831383038,
        21 => 0x3738363835383438,
        22 => 0x3139303939383838,
        23 => 0x3539343933393239,
        24 => 0x3939383937393639,
        _ => 0,
    }
}

// Two digits of a number below 100.
fn put_pair(x: u64, buf: &mut [u8], at: usize) -> usize
    requires x_bound { x < 100 }
    requires at_in_bounds { at + 2 ≤ length buf.old }
    ensures { Wrote buf.old at (digit (x / 10) ∷ digit (x % 10) ∷ []) result buf.new }
{
    let pair = (pairs(x / 4) >> (16 * (x % 4))) % 65536;
    buf[at] = (pair % 256) as u8;
    buf[at + 1] = (pair / 256) as u8;
    at + 2
}

// The digits of a number from 200 on, which no text has.
fn put_long(x: u64, buf: &mut [u8], at: usize) -> usize
    requires le_x { 10 ≤ x }
    requires room { Room buf.old at (decimal x) }
    ensures { Wrote buf.old at (decimal x) result buf.new }
{
    let t = tens_of(x);
    if t.tens < 10 {
        buf[at] = decimal_digit(t.tens);
        buf[at + 1] = decimal_digit(t.ones);
        return at + 2;
    }
    let i = put_long(t.tens, buf, at);
    buf[i] = decimal_digit(t.ones);
    i + 1
}

// The digits of a number from 10 on. Positions and widths are below 130.
fn put_tens(x: u64, buf: &mut [u8], at: usize) -> usize
    requires le_x { 10 ≤ x }
    requires room { Room buf.old at (decimal x) }
    ensures { Wrote buf.old at (decimal x) result buf.new }
{
    if x < 100 {
        return put_pair(x, buf, at);
    }
    if x < 200 {
        buf[at] = b'1';
        return put_pair(x - 100, buf, at + 1);
    }
    put_long(x, buf, at)
}

// Decimal digits. One is written without a call.
pub fn put_decimal(x: u64, buf: &mut [u8], at: usize) -> usize
    requires { Room buf.old at (decimal x) }
    ensures { Wrote buf.old at (decimal x) result buf.new }
{
    if x < 10 {
        buf[at] = decimal_digit(x);
        return at + 1;
    }
    put_tens(x, buf, at)
}

// Whether two words are a number of one hexadecimal digit.
fn one_digit(low: u64, high: u64) -> bool
    ensures { result ≡ ltb (wide low high) 16 }
{
    (high == 0) & (low < 16)
}

// What is left of b when the number of hexadecimal digits of two words is taken off.
pub fn left_after_hex(low: u64, high: u64, b: usize) -> usize
    ensures { result ≡ b - length (hexadecimal (wide low high)) }
{
    let c = b.saturating_sub(1);
    if one_digit(low, high) {
        return c;
    }
    left_after_hex(low / 16 + high % 16 * 1152921504606846976, high / 16, c)
}

// Two hexadecimal digits of a number below 256.
fn put_byte(x: u64, buf: &mut [u8], at: usize) -> usize
    requires x_bound { x < 256 }
    requires at_in_bounds { at + 2 ≤ length buf.old }
    ensures { Wrote buf.old at (digit (x / 16) ∷ digit (x % 16) ∷ []) result buf.new }
{
    buf[at] = hex_digit(x / 16);
    buf[at + 1] = hex_digit(x % 16);
    at + 2
}

// The hexadecimal digits of a word, two at each call.
fn put_word(x: u64, buf: &mut [u8], at: usize) -> usize
    requires { Room buf.old at (hexadecimal x) }
    ensures { Wrote buf.old at (hexadecimal x) result buf.new }
{
    if x < 16 {
        buf[at] = hex_digit(x);
        return at + 1;
    }
    if x < 256 {
        return put_byte(x, buf, at);
    }
    let i = put_word(x / 256, buf, at);
    put_byte(x % 256, buf, i)
}

// The hexadecimal digits of two words, a number from 16 on. 1152921504606846976 is 2^60: the high word's last digit becomes the low
// word's first.
fn put_sixteens(low: u64, high: u64, buf: &mut [u8], at: usize) -> usize
    requires bound { 16 ≤ wide low high }
    requires room { Room buf.old at (hexadecimal (wide low high)) }
    ensures { Wrote buf.old at (hexadecimal (wide low high)) result buf.new }
{
    let low_part = low / 16 + high % 16 * 1152921504606846976;
    let high_part = high / 16;
    if one_digit(low_part, high_part) {
        buf[at] = hex_digit(low_part);
        buf[at + 1] = hex_digit(low % 16);
        return at + 2;
    }
    let i = put_sixteens(low_part, high_part, buf, at);
    buf[i] = hex_digit(low % 16);
    i + 1
}

// Hexadecimal digits of two words. One is written without a call.
pub fn put_hex(low: u64, high: u64, buf: &mut [u8], at: usize) -> usize
    requires { Room buf.old at (hexadecimal (wide low high)) }
    ensures { Wrote buf.old at (hexadecimal (wide low high)) result buf.new }
{
    if one_digit(low, high) {
        buf[at] = hex_digit(low);
        return at + 1;
    }
    if high == 0 {
        return put_word(low, buf, at);
    }
    put_sixteens(low, high, buf, at)
}

// Copies s into buf. By a loop: of `copy_from_slice` the compiler also keeps a test of whether the two overlap, which at these short texts
// is a thirtieth of the line program's instructions.
pub fn put(s: &[u8], buf: &mut [u8], at: usize) -> usize
    requires { Room buf.old at s.now }
    ensures { Wrote buf.old at s.now result buf.new }
{
    for (j, byte) in s.iter().enumerate() {
        buf[at + j] = *byte;
    }
    at + s.len()
}
