//! The problem line, `p cnf V C` or `p knf V C`. Its limits are tested before any constraint is read.
ghost use Rattle.std.specs.Prelude.{◌≡◌};
ghost use Rattle.kn_text.specs.Lines.{words_of};
ghost use Rattle.kn_format.specs.Faults.{format_of, within_limits, header_behind, header_of};

use crate::cause;
use crate::format::Format;
use kn_text::{first_word, number};

/// The problem line: the format, the number of variables and that of constraints.
#[derive(Clone, Copy)]
pub struct Header {
    pub format: Format,
    pub vars: u64,
    pub count: u64,
}

// The problem line that a line is, or its cause.
pub fn problem_line(line: &[u8]) -> Result<Header, u8>
    ensures { result ≡ header_of (words_of line.now) }
{
    match first_word(line) {
        Some((word, rest)) if word == b"p".as_slice() => header_behind(rest),
        _ => Err(cause::NO_HEADER),
    }
}

fn header_behind(line: &[u8]) -> Result<Header, u8>
    ensures { result ≡ header_behind (words_of line.now) }
{
    let Some((name, rest)) = first_word(line) else {
        return Err(cause::BAD_HEADER);
    };
    let Some((vars, rest)) = first_word(rest) else {
        return Err(cause::BAD_HEADER);
    };
    let Some((count, rest)) = first_word(rest) else {
        return Err(cause::BAD_HEADER);
    };
    if first_word(rest).is_some() {
        return Err(cause::BAD_HEADER);
    }
    let (Some(format), Some(vars), Some(count)) = (format_of(name), number(vars), number(count))
    else {
        return Err(cause::BAD_HEADER);
    };
    within_limits(Header {
        format,
        vars,
        count,
    })
}

fn format_of(name: &[u8]) -> Option<Format>
    ensures { result ≡ format_of name.now }
{
    if name == b"cnf".as_slice() {
        Some(Format::Cnf)
    } else if name == b"knf".as_slice() {
        Some(Format::Knf)
    } else {
        None
    }
}

fn within_limits(header: Header) -> Result<Header, u8>
    ensures { result ≡ within_limits header }
{
    if header.vars > 1_000_000 {
        Err(cause::TOO_MANY_VARIABLES)
    } else if header.count > 10_000_000 {
        Err(cause::TOO_MANY_CONSTRAINTS)
    } else {
        Ok(header)
    }
}
