//! Lines, words, numbers and literals, among them those at the edge: no last line feed, zeros in front, 2^64 - 1.
use super::*;
use kn_logic::Lit;
use std::test::Fail;

// Whether the lines of a text are those wanted.
fn has_lines(text: &[u8], want: &[&[u8]]) -> bool {
    let mut rest = text;
    for line in want {
        match first_line(rest) {
            Some((first, behind)) if first == *line => rest = behind,
            _ => return false,
        }
    }
    first_line(rest).is_none()
}

// Whether the words of a line are those wanted.
fn has_words(line: &[u8], want: &[&[u8]]) -> bool {
    let mut rest = line;
    for word in want {
        match first_word(rest) {
            Some((first, behind)) if first == *word => rest = behind,
            _ => return false,
        }
    }
    first_word(rest).is_none()
}

#[test]
fn cuts_lines_and_words(rt: HostRuntime) {
    assert!(rt; has_lines(b"", &[]));
    assert!(rt; has_lines(b"\n", &[b""]));
    assert!(rt; has_lines(b"a", &[b"a"]));
    assert!(rt; has_lines(b"a\n", &[b"a"]));
    assert!(rt; has_lines(b"a\n\nb", &[b"a", b"", b"b"]));
    assert!(rt; has_words(b" \t\r", &[]));
    assert!(rt; has_words(b"\tp  cnf\t2 \r", &[b"p", b"cnf", b"2"]));
    assert!(rt; is_skipped(b" ") && is_skipped(b" c 1") && !is_skipped(b"1 c"));
}

// The variable of a literal, negative where the literal is; 0 for none.
fn signed(word: &[u8]) -> i64 {
    match literal(word) {
        Some(lit) if lit.var() < 1000 => if lit.is_positive() {
            lit.var() as i64
        } else {
            -(lit.var() as i64)
        },
        _ => 0,
    }
}

#[test]
fn reads_numbers_and_literals(rt: HostRuntime) {
    let numbers: [(&[u8], Option<u64>); 8] = [
        (b"0", Some(0)),
        (b"007", Some(7)),
        (b"18446744073709551615", Some(18446744073709551615)),
        (b"18446744073709551616", None),
        (b"", None),
        (b"+1", None),
        (b"-0", None),
        (b"1x", None),
    ];
    for (word, want) in numbers {
        assert_eq!(rt; number(word), want, "at {}", word.len());
    }
    let literals: [(&[u8], i64); 7] = [
        (b"-0", 0),
        (b"0", 0),
        (b"7", 7),
        (b"-7", -7),
        (b"--7", 0),
        (b"+1", 0),
        (b"-", 0),
    ];
    for (word, want) in literals {
        assert_eq!(rt; signed(word), want, "at {}", word.len());
    }
    assert!(rt; is_end(b"00") && !is_end(b"-0") && !is_end(b"1"));
}

#[test]
fn writes_words(rt: HostRuntime) -> Result<(), Fail> {
    let mut out = Vec::new(rt.alloc());
    push_number(&mut out, 18446744073709551615)?;
    push_literal(&mut out, Lit::new(20, false))?;
    push_literal(&mut out, Lit::new(3, true))?;
    assert!(rt; out.as_slice() == b"18446744073709551615-203".as_slice());
    Ok(())
}
