ghost use Rattle.std.specs.Prelude.{◌≡◌, ◌<◌, ◌++◌, OnOk, OnErr, decimal, length, IsTrue};
ghost use Rattle.std.specs.List.{list_all};
ghost use Rattle.std.specs.Fmt.{signed_decimal};
ghost use Rattle.fapp_text.specs.Numbers.{is_digit, is_numeral, value, bounded, number_of, fault_number};
ghost use Rattle.fapp_text.specs.Signs.{sign_of};

use crate::field::is;
use itoa::Buffer;
use std::alloc::AllocError as NoMemory;
use std::error::Error;
use std::fmt;

/// The greatest number that a field may be.
pub const MAX_NUMBER: u32 = 1_000_000_000;

/// Why a field is no number.
#[derive(Clone, Copy, Debug, PartialEq, Eq)]
pub enum NumFault {
    /// It is empty, or has a byte that is no decimal digit.
    NotDigits = 1,
    /// It is digits whose value is above `MAX_NUMBER`.
    TooLarge = 2,
}

impl NumFault {
    /// Its number: 1 for `NotDigits`, 2 for `TooLarge`.
    pub fn number(self) -> u8
        ensures { result ≡ fault_number self }
    {
        self as u8
    }
}

impl fmt::Display for NumFault {
    ghost use Rattle.std.specs.Prelude.{Some};
    ghost use Rattle.fapp_text.specs.FaultTexts.{num_fault_text};

    ghost output = { λ fault. Some (num_fault_text fault) };

    fn fmt<W: fmt::Write>(&self, f: &mut fmt::Formatter<W>) -> fmt::Result {
        match self {
            NumFault::NotDigits => write!(f, "not digits"),
            NumFault::TooLarge => write!(f, "above {MAX_NUMBER}"),
        }
    }
}

impl Error for NumFault {}

/// The number that a field is: decimal digits, leading zeros too.
pub fn number(field: &[u8]) -> Result<u32, NumFault>
    ensures { result ≡ number_of field.now }
{
    if field.is_empty() {
        return Err(NumFault::NotDigits);
    }
    if !all_digits(field) {
        return Err(NumFault::NotDigits);
    }
    value(field)
}

fn all_digits(field: &[u8]) -> bool
    ensures { result ≡ list_all is_digit field.now }
{
    field.iter().all(|byte| byte.is_ascii_digit())
}

/// The value of digits.
fn value(digits: &[u8]) -> Result<u32, NumFault>
    requires { IsTrue (list_all is_digit digits.now) }
    ensures { result ≡ bounded (value digits.now) }
{
    let mut value = 0u64;
    for digit in digits {
        value = value * 10 + u64::from(*digit - b'0');
        if value > u64::from(MAX_NUMBER) {
            return Err(NumFault::TooLarge);
        }
    }
    Ok(value as u32)
}

/// The sign that a field is: 1 for `1` and -1 for `-1`. `None` where it is another field.
pub fn sign(field: &[u8]) -> Option<i8>
    ensures { result ≡ sign_of field.now }
{
    if is(field, b"1") {
        return Some(1);
    }
    if is(field, b"-1") {
        return Some(-1);
    }
    None
}

/// Appends the decimal text of a number. `Err` leaves the bytes as they were.
pub fn push_number(out: &mut Vec<u8>, n: u64) -> Result<(), NoMemory>
    ensures ok { OnOk result (out.new.items ≡ out.old.items ++ decimal n) }
    ensures err { OnErr result (out.new.items ≡ out.old.items) }
{
    let mut digits = Buffer::new();
    out.extend_from_slice(digits.format(n).as_bytes())?;
    Ok(())
}

/// Appends the decimal text of a signed number. `Err` leaves the bytes as they were.
pub fn push_signed(out: &mut Vec<u8>, n: i8) -> Result<(), NoMemory>
    ensures ok { OnOk result (out.new.items ≡ out.old.items ++ signed_decimal n) }
    ensures err { OnErr result (out.new.items ≡ out.old.items) }
{
    let mut buffer = Buffer::new();
    out.extend_from_slice(buffer.format(n).as_bytes())?;
    Ok(())
}
