// Numbers as the fields of a script write them.
ghost use Rattle.std.specs.Prelude.{◌≡◌};
ghost use Rattle.script.specs.Numbers.{with_digit, read_digits, read_number, downward, upward, read_watts};

use crate::fault::BadNumber;

// The number n with one digit more, in 32 bits.
fn with_digit(n: u32, byte: u8) -> Result<u32, BadNumber>
    ensures { result ≡ with_digit n byte }
{
    if !byte.is_ascii_digit() {
        return Err(BadNumber);
    }
    let digit = u32::from(byte - b'0');
    n.checked_mul(10)
        .and_then(|tens| tens.checked_add(digit))
        .ok_or(BadNumber)
}

// The value of the digits: each byte is a digit, and the value has 32 bits. The library's `parse` reads the bytes twice,
// since it is asked for text, and takes twice as long.
fn digits(s: &[u8]) -> Result<u32, BadNumber>
    ensures { result ≡ read_digits 0 s.now }
{
    let mut n = 0;
    for byte in s {
        n = with_digit(n, *byte)?;
    }
    Ok(n)
}

// A decimal number, 0 to 4,294,967,295, without leading zeros.
pub fn number(s: &[u8]) -> Result<u32, BadNumber>
    ensures { result ≡ read_number s.now }
{
    match s {
        [] | [b'0', _, ..] => Err(BadNumber),
        _ => digits(s),
    }
}

// Watts: a number of 31 bits, or `-` and one that is not 0.
pub fn watts(s: &[u8]) -> Result<i32, BadNumber>
    ensures { result ≡ read_watts s.now }
{
    match s {
        [b'-', rest @ ..] => below_zero(number(rest)?),
        _ => from_zero(number(s)?),
    }
}

// That many watts, from 0 on.
fn from_zero(n: u32) -> Result<i32, BadNumber>
    ensures { result ≡ upward n }
{
    i32::try_from(n).or(Err(BadNumber))
}

// That many watts below 0.
fn below_zero(n: u32) -> Result<i32, BadNumber>
    ensures { result ≡ downward n }
{
    if n == 0 {
        return Err(BadNumber);
    }
    i32::try_from(-i64::from(n)).or(Err(BadNumber))
}

#[cfg(test)]
mod tests {
    use super::*;

    #[test]
    fn numbers_end_at_32_bits(rt: HostRuntime) {
        assert_eq!(rt; number(b"4294967295"), Ok(4294967295));
        assert_eq!(rt; number(b"4294967296"), Err(BadNumber));
        assert_eq!(rt; number(b"00"), Err(BadNumber));
        assert_eq!(rt; number(b""), Err(BadNumber));
    }

    #[test]
    fn watts_have_a_sign(rt: HostRuntime) {
        assert_eq!(rt; watts(b"-2147483648"), Ok(-2147483648));
        assert_eq!(rt; watts(b"2147483648"), Err(BadNumber));
        assert_eq!(rt; watts(b"-0"), Err(BadNumber));
        assert_eq!(rt; watts(b"+1"), Err(BadNumber));
    }
}
