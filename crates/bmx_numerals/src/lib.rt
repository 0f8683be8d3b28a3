//! Numbers as text. Each number has one spelling: `0`, or digits of which the first is not `0`; a
//! negative integer has `-` in front, which `0` never has. No other word is read as a number.
#![tactic(auto)]

mod printing;
mod reading;
mod words;

pub use printing::{push_integer, push_number, write_integer, write_number};
pub use reading::{integer, number, number_below, number_within};
pub use words::{Misfit, both};

#[cfg(test)]
mod tests {
    use crate::{
        Misfit, both, integer, number, number_below, number_within, push_integer, push_number,
    };
    use std::test::Fail;

    #[test]
    fn words_that_are_numbers(rt: HostRuntime) {
        for (word, value) in [
            ("0", Ok(0)),
            ("7", Ok(7)),
            ("42", Ok(42)),
            ("18446744073709551615", Ok(18446744073709551615)),
            ("18446744073709551616", Err(Misfit::Range)),
            ("18446744073709551616x", Err(Misfit::Form)),
            ("", Err(Misfit::Form)),
            ("00", Err(Misfit::Form)),
            ("01", Err(Misfit::Form)),
            (" 1", Err(Misfit::Form)),
            ("1 ", Err(Misfit::Form)),
            ("+1", Err(Misfit::Form)),
            ("-1", Err(Misfit::Form)),
            ("1a", Err(Misfit::Form)),
        ] {
            assert_eq!(rt; number(word.as_bytes()), value, "{word}");
        }
    }

    #[test]
    fn words_that_are_integers(rt: HostRuntime) {
        for (word, value) in [
            ("0", Ok(0)),
            ("7", Ok(7)),
            ("-1", Ok(-1)),
            ("-42", Ok(-42)),
            ("9223372036854775807", Ok(9223372036854775807)),
            ("9223372036854775808", Err(Misfit::Range)),
            ("-9223372036854775808", Ok(-9223372036854775808)),
            ("-9223372036854775809", Err(Misfit::Range)),
            ("-18446744073709551616", Err(Misfit::Range)),
            ("", Err(Misfit::Form)),
            ("-", Err(Misfit::Form)),
            ("-0", Err(Misfit::Form)),
            ("-01", Err(Misfit::Form)),
            ("--1", Err(Misfit::Form)),
            ("+1", Err(Misfit::Form)),
        ] {
            assert_eq!(rt; integer(word.as_bytes()), value, "{word}");
        }
    }

    #[test]
    fn values_out_of_their_range(rt: HostRuntime) {
        assert_eq!(rt; number_below(b"7", 8), Ok(7));
        assert_eq!(rt; number_below(b"8", 8), Err(Misfit::Range));
        assert_eq!(rt; number_below(b"08", 8), Err(Misfit::Form));
        assert_eq!(rt; number_within(b"0", 1, 8), Err(Misfit::Range));
        assert_eq!(rt; number_within(b"1", 1, 8), Ok(1));
        assert_eq!(rt; number_within(b"8", 1, 8), Ok(8));
        assert_eq!(rt; number_within(b"9", 1, 8), Err(Misfit::Range));
        assert_eq!(rt; both(number(b"1"), integer(b"-2")), Ok((1, -2)));
        assert_eq!(rt;
            both(number_below(b"9", 8), integer(b"-0")),
            Err(Misfit::Form)
        );
        assert_eq!(rt;
            both(number_below(b"9", 8), integer(b"0")),
            Err(Misfit::Range)
        );
    }

    #[test]
    fn printed_numbers(rt: HostRuntime) -> Result<(), Fail> {
        let mut text = String::from_str(rt.alloc(), "at")?;
        for value in [0, 7, 18446744073709551615] {
            text.push_str(" ")?;
            push_number(&mut text, value)?;
        }
        for value in [-1, 42, -9223372036854775808] {
            text.push_str(" ")?;
            push_integer(&mut text, value)?;
        }
        assert_eq!(rt;
            text.as_str(),
            "at 0 7 18446744073709551615 -1 42 -9223372036854775808"
        );
        Ok(())
    }
}
