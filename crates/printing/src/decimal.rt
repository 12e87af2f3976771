// A double as a decimal number: the fewest digits that read back as the same double, the nearest of those.
use std::fmt;
use std::fmt::InlineText;

#[derive(Clone, Copy)]
pub struct Decimal(pub f64);

// From here on, and below there, a number has an exponent.
const LARGE: f64 = 1e21;

const SMALL: f64 = 1e-7;

impl fmt::Display for Decimal {
    fn fmt<W: fmt::Write>(&self, f: &mut fmt::Formatter<W>) -> fmt::Result {
        let x = self.0;
        let size = x.abs();
        if x.is_nan() {
            return f.write_str("not a number");
        }
        if x.is_infinite() {
            return f.write_str(if x < 0.0 { "-infinite" } else { "infinite" });
        }
        if size >= LARGE {
            return large(f, x);
        }
        if size < SMALL && size > 0.0 {
            return write!(f, "{x:e}");
        }
        write!(f, "{x}")
    }
}

// `{:e}` writes no sign before an exponent that is positive.
fn large<W: fmt::Write>(f: &mut fmt::Formatter<W>, x: f64) -> fmt::Result {
    let text = InlineText::<32>::of(format_args!("{x:e}"));
    match text.as_str().split_once('e') {
        Some((digits, power)) => write!(f, "{digits}e+{power}"),
        None => f.write_str(text.as_str()),
    }
}
