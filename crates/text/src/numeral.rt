// Numbers as digits, in base ten and sixteen: written without a needless zero, read with few digits.
ghost use Rattle.std.specs.Prelude.{◌≡◌, ◌/◌, ◌%◌, ◌<◌, ◌≤◌, [], ◌∷◌, IfSome};
ghost use Rattle.text.specs.Numerals.{radix, most_digits, digit_byte, numeral, digit_value, hex_pair, number_of};

#[derive(Clone, Copy)]
pub enum Base {
    // read with 1 to 6 digits
    Decimal,
    // read with 1 to 5 digits, in either case; written in lower case
    Hexadecimal,
}

impl Base {
    fn radix(self) -> usize
        ensures is { result ≡ radix self }
        ensures low { 10 ≤ result }
        ensures high { result ≤ 16 }
    {
        match self {
            Base::Decimal => 10,
            Base::Hexadecimal => 16,
        }
    }

    fn most_digits(self) -> usize
        ensures is { result ≡ most_digits self }
        ensures high { result ≤ 6 }
    {
        match self {
            Base::Decimal => 6,
            Base::Hexadecimal => 5,
        }
    }

    // What a byte is worth as a digit.
    pub fn digit_value(self, b: u8) -> Option<u8>
        ensures is { result ≡ digit_value self b }
        ensures small { IfSome result (λ d. d < 16) }
    {
        let d = match b {
            b'0'..=b'9' => b - b'0',
            b'a'..=b'f' => b - b'a' + 10,
            b'A'..=b'F' => b - b'A' + 10,
            _ => return None,
        };
        if (d as usize) < self.radix() {
            Some(d)
        } else {
            None
        }
    }
}

// The digit for a value.
fn digit_byte(d: usize) -> u8
    requires { d < 16 }
    ensures { result ≡ digit_byte d }
{
    if d < 10 {
        b'0' + d as u8
    } else {
        b'a' + (d - 10) as u8
    }
}

// Writes a number at the end of the caller's bytes, and returns its digits as a part of them.
pub fn write_number<'a>(buf: &'a mut [u8; 20], n: usize, base: Base) -> &'a [u8]
    ensures { result.now ≡ numeral base n }
{
    let radix = base.radix();
    let mut rest = n;
    for at in (0..20).rev() {
        buf[at] = digit_byte(rest % radix);
        rest /= radix;
        if rest == 0 {
            return &buf[at..];
        }
    }
    buf
}

// The byte that two hexadecimal digits stand for, letters in either case.
pub fn hex_pair(a: u8, b: u8) -> Option<u8>
    ensures { result ≡ hex_pair a b }
{
    let high = Base::Hexadecimal.digit_value(a)?;
    let low = Base::Hexadecimal.digit_value(b)?;
    Some(high * 16 + low)
}

// The two hexadecimal digits of a byte, letters in lower case.
pub fn hex_digits(b: u8) -> [u8; 2]
    ensures { result ≡ digit_byte (b / 16) ∷ digit_byte (b % 16) ∷ [] }
{
    let b = usize::from(b);
    [digit_byte(b / 16), digit_byte(b % 16)]
}

// What a numeral is worth: at least one digit, and not too many.
pub fn read_number(s: &[u8], base: Base) -> Option<usize>
    ensures { result ≡ number_of base s.now }
{
    if s.is_empty() || s.len() > base.most_digits() {
        return None;
    }
    let radix = base.radix();
    let mut value: usize = 0;
    for b in s {
        let d = base.digit_value(*b)?;
        value = value * radix + d as usize;
    }
    Some(value)
}
