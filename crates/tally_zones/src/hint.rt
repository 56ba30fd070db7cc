//! What to write in place of an offset from UTC that POSIX reads the other way round.

use std::fmt::{self, Display, Formatter};

/// The names of UTC that an offset may follow.
const NAMES: [&str; 3] = ["UTC", "GMT", "UT"];

/// What to write.
#[derive(Clone, Copy, Debug)]
pub enum Hint {
    /// The rule of this offset, as it was meant: `UTC+2` is two hours east.
    Rule {
        /// Whether it is ahead of UTC.
        is_east: bool,
        /// Its whole hours.
        hours: u32,
        /// The minutes beside them.
        minutes: u32,
    },
    /// Some rule, where the offset is not plain.
    SomeRule,
}

impl Display for Hint {
    fn fmt<W: fmt::Write>(&self, f: &mut Formatter<W>) -> fmt::Result {
        let Hint::Rule {
            is_east,
            hours,
            minutes,
        } = *self
        else {
            return f.write_str("write a rule, as <+02>-2");
        };
        let (sign, turned) = if is_east { ('+', '-') } else { ('-', '+') };
        if minutes == 0 {
            write!(f, "write <{sign}{hours:02}>{turned}{hours}")
        } else {
            write!(
                f,
                "write <{sign}{hours:02}{minutes:02}>{turned}{hours}:{minutes:02}"
            )
        }
    }
}

/// What to write in place of a name of UTC and an offset.
pub fn hint_on(word: &str) -> Hint {
    for name in NAMES {
        if let Some(text) = word.strip_prefix(name) {
            return hint_of(text);
        }
    }
    Hint::SomeRule
}

/// What to write for an offset: a sign, or none where it is a plus, and hours with or without minutes.
fn hint_of(text: &str) -> Hint {
    let (is_east, text) = match text.strip_prefix('-') {
        Some(rest) => (false, rest),
        None => (true, text.strip_prefix('+').unwrap_or(text)),
    };
    match time_of(text) {
        Some((hours, minutes)) => Hint::Rule {
            is_east,
            hours,
            minutes,
        },
        None => Hint::SomeRule,
    }
}

/// Hours and minutes, as `3` or `3:30`, of at most a day.
fn time_of(text: &str) -> Option<(u32, u32)> {
    let (hours, minutes) = match text.split_once(':') {
        Some((hours, minutes)) => (hours, two_digits(minutes)?),
        None => (text, 0),
    };
    let hours = number(hours)?;
    if hours > 24 || minutes > 59 {
        return None;
    }
    Some((hours, minutes))
}

fn two_digits(text: &str) -> Option<u32> {
    if text.len() == 2 { number(text) } else { None }
}

/// A number of one or two digits.
fn number(text: &str) -> Option<u32> {
    if text.len() > 2 || !text.bytes().all(|byte| byte.is_ascii_digit()) {
        return None;
    }
    text.parse().ok()
}
