//! Each kind of line read and written back, lines that are refused for one word, and lines that are skipped.
ghost use Rattle.std.specs.Prelude.{◌≡◌, IfOk};
ghost use Rattle.kn_lines.specs.Lines.{IsWellFormed};

use super::*;
use kn_logic::{Constraint, Lit};
use std::alloc::Global;
use std::test::Fail;

// What is read of a line, as it is written; nothing where the line is skipped.
fn written(alloc: Global, text: &str) -> Result<Vec<u8>, LineError> {
    match read_line(alloc, text.as_bytes())? {
        Some(line) => Ok(write_line(alloc, &line)?),
        None => Ok(Vec::new(alloc)),
    }
}

#[test]
fn reads(rt: HostRuntime) -> Result<(), Fail> {
    let cases = [
        ("p kpf 3 12", "p kpf 3 12\n"),
        (
            "\tp  kpf\t00 18446744073709551615 \r",
            "p kpf 0 18446744073709551615\n",
        ),
        ("d 1 T F", "d 1 T F\n"),
        ("  d\t-02 -007 F\r", "d -2 -7 F\n"),
        (
            "d 3 4 -18446744073709551615",
            "d 3 4 -18446744073709551615\n",
        ),
        ("d 3 F\t 3", "d 3 F 3\n"),
        ("r 1 -2 0 4 1 0", "r 1 -2 0 4 1 0\n"),
        ("r 01 00 2 0\r", "r 1 0 2 0\n"),
        ("r 0 0", "r 0 0\n"),
        (
            "  l\t-18446744073709551615 7 0 0",
            "l -18446744073709551615 7 0 0\n",
        ),
        ("k 2 1 -3 0 5 20", "k 2 1 -3 0 5 20\n"),
        ("k\t02  01 00 05 020 \r", "k 2 1 0 5 20\n"),
        ("k 0 0 1 1", "k 0 0 1 1\n"),
        (
            "k 18446744073709551615 7 7 0 1 2",
            "k 18446744073709551615 7 7 0 1 2\n",
        ),
        ("g 1 7", "g 1 7\n"),
        (
            " g  001\t18446744073709551615",
            "g 1 18446744073709551615\n",
        ),
        ("x 9 009 000", "x 9 9 0\n"),
        ("x 0", "x 0\n"),
    ];
    for (text, want) in cases {
        let Ok(line) = written(rt.alloc(), text) else {
            return Err("the line is one of a proof".into());
        };
        assert_eq!(rt; line.as_slice(), want.as_bytes(), "{text}");
    }
    Ok(())
}

#[test]
fn refuses(rt: HostRuntime) {
    let cases = [
        "r 0 1",
        "r 0 1 0 2",
        "r -0 0 0",
        "r +1 0 0",
        "r 1 0",
        "r 1 2",
        "r",
        "0 r",
        "rr 1 0 0",
        "R 1 0 0",
        "r 0 0 0 0",
        "r 18446744073709551616 0 0",
        "l 1 0 -1 0",
        "l 1 0 0 0",
        "x 0 0",
        "x 1",
        "x",
        "x 18446744073709551616 0",
        "p kpf 1",
        "p kpf 1 2 3",
        "p cnf 1 2",
        "p kpf 1 -2",
        "d",
        "d 0 T F",
        "d 1 t F",
        "d 1 T",
        "d 1 T TF",
        "d 1 0 F",
        "d T 1 2",
        "d 1 1 2 0",
        "D 1 T F",
        "k",
        "k 2 1 0 3",
        "k -1 1 0 3 4",
        "k 2 1 0 0 4",
        "k 2 1 0 3 0",
        "k 2 1 0 -3 4",
        "k 2 1 0 3 4 0",
        "k 2 1 3 4",
        "k 18446744073709551616 1 0 3 4",
        "g",
        "g 1",
        "g 0 3",
        "g 1 0",
        "g 1 -3",
        "g 1 2 3",
        "q",
        "-c",
    ];
    for text in cases {
        assert!(rt;
            matches!(read_line(rt.alloc(), text.as_bytes()), Err(LineError::Bad)),
            "{text}"
        );
    }
}

#[test]
fn skips(rt: HostRuntime) {
    for text in ["", " \t", "\r", "c", "comment", " c x", "\tcr 1 0 0"] {
        assert!(rt;
            matches!(read_line(rt.alloc(), text.as_bytes()), Ok(None)),
            "{text}"
        );
    }
}

fn ids(alloc: Global, list: &[u64]) -> Result<Ids, NoMemory>
    ensures { IfOk result (λ ids. ids ≡ list.now) }
{
    Ok(Ids::new(Vec::from_slice(alloc, list)?))
}

fn two_lits(alloc: Global) -> Result<Vec<Lit>, NoMemory> {
    Vec::from_slice(alloc, &[Lit::new(7, true), Lit::new(12, false)])
}

fn lemma(alloc: Global) -> Result<Line, NoMemory>
    ensures { IfOk result (λ line. IsWellFormed line) }
{
    let clause = Constraint::new(1, two_lits(alloc)?);
    let hints = ids(alloc, &[3, 40])?;
    Ok(Line::Lemma { clause, hints })
}

fn klause(alloc: Global) -> Result<Line, NoMemory>
    ensures { IfOk result (λ line. IsWellFormed line) }
{
    let klause = Constraint::new(2, two_lits(alloc)?);
    Ok(Line::Klause {
        klause,
        root: 9,
        unit: 30,
    })
}

#[test]
fn writes(rt: HostRuntime) -> Result<(), Fail> {
    let line = lemma(rt.alloc())?;
    let text = write_line(rt.alloc(), &line)?;
    assert_eq!(rt; text.as_slice(), b"r 7 -12 0 3 40 0\n".as_slice());
    let line = klause(rt.alloc())?;
    let text = write_line(rt.alloc(), &line)?;
    assert_eq!(rt; text.as_slice(), b"k 2 7 -12 0 9 30\n".as_slice());
    Ok(())
}

#[test]
fn writes_definitions(rt: HostRuntime) -> Result<(), Fail> {
    let (x, l) = (Lit::new(3, true), Lit::new(4, false));
    let cases = [
        (Arm::Lit(l), Arm::True, "d 3 -4 T\n"),
        (Arm::False, Arm::Lit(x), "d 3 F 3\n"),
    ];
    for (high, low, want) in cases {
        let text = write_line(rt.alloc(), &Line::Define { x, high, low })?;
        assert_eq!(rt; text.as_slice(), want.as_bytes());
    }
    Ok(())
}

#[test]
fn writes_unfoldings(rt: HostRuntime) -> Result<(), Fail> {
    let line = Line::Unfold { klause: 3, root: 9 };
    let text = write_line(rt.alloc(), &line)?;
    assert_eq!(rt; text.as_slice(), b"g 3 9\n".as_slice());
    Ok(())
}
