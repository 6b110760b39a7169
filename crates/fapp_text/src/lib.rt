//! Texts of lines, fields and numbers: what formats of one record a line are read and written by.
#![tactic(auto)]

mod failure;
mod field;
mod laws;
mod line;
mod numeral;

pub use failure::{Failure, LineFault, failure_at, fault_at};
pub use field::{Fields, is};
pub use laws::{fields_law, limits_law, lines_law};
pub use line::{Lines, MAX_TEXT};
pub use numeral::{MAX_NUMBER, NumFault, number, push_number, push_signed, sign};
pub use std::alloc::AllocError as NoMemory;

#[cfg(test)]
mod tests {
    use super::*;

    #[test]
    fn gives_lines_with_numbers(rt: HostRuntime) {
        let mut lines = Lines::new(b"a b\n\nc\r");
        assert_eq!(rt; lines.next(), Some((1, &b"a b"[..])));
        assert_eq!(rt; lines.next(), Some((2, &b""[..])));
        assert_eq!(rt; lines.next(), Some((3, &b"c\r"[..])));
        assert_eq!(rt; lines.next(), None);
    }

    #[test]
    fn gives_fields(rt: HostRuntime) {
        let mut fields = Fields::new(b" \tTR  1\t02 ");
        assert_eq!(rt; fields.next(), Some(&b"TR"[..]));
        assert_eq!(rt; fields.next(), Some(&b"1"[..]));
        assert_eq!(rt; fields.next(), Some(&b"02"[..]));
        assert_eq!(rt; fields.next(), None);
    }

    #[test]
    fn reads_numbers(rt: HostRuntime) {
        assert_eq!(rt; number(b"007"), Ok(7));
        assert_eq!(rt; number(b"1000000000"), Ok(1_000_000_000));
        assert_eq!(rt; number(b"99999999999999999999"), Err(NumFault::TooLarge));
        assert_eq!(rt; number(b"9999999999999999999x"), Err(NumFault::NotDigits));
        assert_eq!(rt; number(b""), Err(NumFault::NotDigits));
        assert_eq!(rt; NumFault::TooLarge.number(), 2);
    }

    #[test]
    fn reads_signs(rt: HostRuntime) {
        assert_eq!(rt; sign(b"1"), Some(1));
        assert_eq!(rt; sign(b"-1"), Some(-1));
        assert_eq!(rt; sign(b"+1"), None);
        assert!(rt; is(b"TR", b"TR"));
    }

    #[test]
    fn prints_faults(rt: HostRuntime) -> Result<(), NoMemory> {
        let text = failure_at(7, Failure::Bad(NumFault::TooLarge)).to_string(rt.alloc())?;
        assert_eq!(rt; text.as_str(), "line 7: above 1000000000");
        let text = fault_at(1, NumFault::NotDigits).to_string(rt.alloc())?;
        assert_eq!(rt; text.as_str(), "line 1: not digits");
        let text = Failure::<NumFault>::NoMemory.to_string(rt.alloc())?;
        assert_eq!(rt; text.as_str(), "no memory");
        Ok(())
    }

    #[test]
    fn pushes_numbers(rt: HostRuntime) {
        let mut out = Vec::new(rt.alloc());
        assert_eq!(rt; push_number(&mut out, u64::MAX), Ok(()));
        assert_eq!(rt; push_number(&mut out, 0), Ok(()));
        assert_eq!(rt; push_signed(&mut out, -128), Ok(()));
        assert_eq!(rt; out.as_slice(), &b"184467440737095516150-128"[..]);
    }
}
