//! Proofs that are accepted, lines with each cause and with several, and what a definition gives, read back.
ghost use Rattle.std.specs.Prelude.{◌≡◌, ◌≤◌, ◌^◌, ◌∷◌, [], IfOk};
ghost use Rattle.kn_logic.specs.Constraints.{clause, klause, guarded_klause};

use super::*;
use kn_lines::{Arm, Line};
use kn_logic::{Constraint, Formula, Lit, NoMemory};
use std::alloc::Global;
use std::test::Fail;

// at least two of the variables 1, 2, 3 are true, or false
fn two_of_three(alloc: Global, positive: bool) -> Result<Constraint, NoMemory>
    ensures { IfOk result (λ c. c ≡ klause 2 (record { variable = 1; positive = positive } ∷ record { variable = 2; positive = positive } ∷ record { variable = 3; positive = positive } ∷ [])) }
{
    let lits = vec![in alloc;
        Lit::new(1, positive),
        Lit::new(2, positive),
        Lit::new(3, positive),
    ]?;
    Ok(Constraint::new(2, lits))
}

// two of three variables are true, and two are false
fn contradiction(alloc: Global) -> Result<Formula, NoMemory>
    ensures { IfOk result (λ f. f.vars ≤ 2 ^ 32) }
{
    let mut f = Formula::new(alloc, 3);
    f.push(two_of_three(alloc, true)?)?;
    f.push(two_of_three(alloc, false)?)?;
    Ok(f)
}

#[test]
fn checks(rt: HostRuntime) -> Result<(), Fail> {
    let f = contradiction(rt.alloc())?;
    let cases = [
        (
            "p kpf 3 2\nr 1 0 1 2 0\nr 2 0 1 2 0\nr 0 3 4 2 0\n",
            Checked::Verified,
        ),
        (
            "p kpf 3 2\nr 1 0 1 2 0\nl 2 0 1 2 0\nx 1 0\nr 0 3 4 1 0\n",
            Checked::NotVerified { line: 5, why: 4 },
        ),
        (
            "p kpf 3 2\nr 1 0 1 2 0\nr 2 0 1 2 0\nx 1 1 0\nr 0 3 4 2 0\n",
            Checked::NotVerified { line: 4, why: 4 },
        ),
        (
            "\nc no header\nr 1 0 1 2 0\n",
            Checked::NotVerified { line: 3, why: 1 },
        ),
        ("p kpf 3 1\n", Checked::NotVerified { line: 1, why: 1 }),
        (
            "p kpf 3 2\np kpf 3 2\n",
            Checked::NotVerified { line: 2, why: 1 },
        ),
        (
            "p kpf 3 2\n\nr 1 0 1 2",
            Checked::NotVerified { line: 3, why: 2 },
        ),
        (
            "p kpf 3 2\nr 4 0 1 7 0\n",
            Checked::NotVerified { line: 2, why: 3 },
        ),
        (
            "p kpf 3 2\nr 1 0 1 0\n",
            Checked::NotVerified { line: 2, why: 5 },
        ),
        (
            "p kpf 3 2\nr 1 0 1 2 0\nc\n",
            Checked::NotVerified { line: 3, why: 9 },
        ),
        ("c\n\n", Checked::NotVerified { line: 2, why: 9 }),
        ("", Checked::NotVerified { line: 0, why: 9 }),
    ];
    for (text, want) in cases {
        let checked = check(rt.alloc(), &f, text.as_bytes())?;
        assert_eq!(rt; checked, want, "{text}");
    }
    Ok(())
}

// one of two literals of these variables, both positive or both negated
fn pair(alloc: Global, a: u64, b: u64, positive: bool) -> Result<Constraint, NoMemory>
    requires first { 1 ≤ a }
    requires second { 1 ≤ b }
    ensures { IfOk result (λ c. c ≡ clause (record { variable = a; positive = positive } ∷ record { variable = b; positive = positive } ∷ [])) }
{
    let lits = vec![in alloc; Lit::new(a, positive), Lit::new(b, positive)]?;
    Ok(Constraint::new(1, lits))
}

// the literal alone
fn unit(alloc: Global, var: u64, positive: bool) -> Result<Constraint, NoMemory>
    requires { 1 ≤ var }
    ensures { IfOk result (λ c. c ≡ clause (record { variable = var; positive = positive } ∷ [])) }
{
    let lits = vec![in alloc; Lit::new(var, positive)]?;
    Ok(Constraint::new(1, lits))
}

// of each two of three variables one is true, and one is false
fn pairs(alloc: Global) -> Result<Formula, NoMemory>
    ensures { IfOk result (λ f. f.vars ≤ 2 ^ 32) }
{
    let mut f = Formula::new(alloc, 3);
    f.push(pair(alloc, 1, 2, false)?)?;
    f.push(pair(alloc, 1, 3, false)?)?;
    f.push(pair(alloc, 2, 3, false)?)?;
    f.push(pair(alloc, 1, 2, true)?)?;
    f.push(pair(alloc, 1, 3, true)?)?;
    f.push(pair(alloc, 2, 3, true)?)?;
    Ok(f)
}

// if 3 then 1 and 2; not 1; 3
fn guarded(alloc: Global) -> Result<Formula, NoMemory>
    ensures { IfOk result (λ f. f.vars ≤ 2 ^ 32) }
{
    let mut f = Formula::new(alloc, 3);
    let lits = vec![in alloc; Lit::new(1, true), Lit::new(2, true)]?;
    f.push(Constraint::guarded(Lit::new(3, true), 2, lits))?;
    f.push(unit(alloc, 1, false)?)?;
    f.push(unit(alloc, 3, true)?)?;
    Ok(f)
}

// Variable 7 stands for "at least two of -1, -2 and -3".
#[test]
fn klauses_by_grids(rt: HostRuntime) -> Result<(), Fail> {
    let f = pairs(rt.alloc())?;
    let cases = [
        (
            "p kpf 3 6\nd 3 F T\nd 2 F 4\nd 2 4 T\nd 1 5 6\nr -1 7 0 1 2 10 14 21 0\nr 7 0 23 22 18 17 3 10 0\nk 2 -1 -2 -3 0 7 24\nr 1 0 4 5 25 0\nr 0 26 25 6 0\n",
            Checked::Verified,
        ),
        (
            "p kpf 3 6\nd 3 F T\nd 2 F 4\nd 2 4 T\nd 1 5 6\nr -1 7 0 1 2 10 14 21 0\nr 7 0 23 22 18 17 3 10 0\nk 3 -1 -2 -3 0 7 24\n",
            Checked::NotVerified { line: 8, why: 7 },
        ),
        (
            "p kpf 3 6\nd 4 T F\n",
            Checked::NotVerified { line: 2, why: 3 },
        ),
    ];
    for (text, want) in cases {
        let checked = check(rt.alloc(), &f, text.as_bytes())?;
        assert_eq!(rt; checked, want, "{text}");
    }
    Ok(())
}

// Variable 7 stands for "at least two of 1, 2 and 3".
#[test]
fn unfolded_klauses(rt: HostRuntime) -> Result<(), Fail> {
    let f = contradiction(rt.alloc())?;
    let cases = [
        (
            "p kpf 3 2\nd 3 T F\nd 2 4 F\nd 2 T 4\nd 1 6 5\ng 1 7\nr 1 0 1 2 0\nr 2 0 1 2 0\nr 0 20 21 2 0\n",
            Checked::Verified,
        ),
        (
            "p kpf 3 2\nd 3 T F\nd 2 4 F\nd 2 T 4\nd 1 6 5\ng 2 7\n",
            Checked::NotVerified { line: 6, why: 7 },
        ),
        (
            "p kpf 3 2\nd 3 T F\nd 2 4 F\nd 2 T 4\nd -1 5 6\ng 1 7\n",
            Checked::NotVerified { line: 6, why: 9 },
        ),
    ];
    for (text, want) in cases {
        let checked = check(rt.alloc(), &f, text.as_bytes())?;
        assert_eq!(rt; checked, want, "{text}");
    }
    let f = guarded(rt.alloc())?;
    let text = "p kpf 3 3\nd 1 T F\ng 1 4\n";
    let checked = check(rt.alloc(), &f, text.as_bytes())?;
    assert_eq!(rt; checked, Checked::NotVerified { line: 3, why: 8 });
    Ok(())
}

// The first cause of a line behind a head of eight lines: 7 stands for "at least two of 1, 2 and 3", id 19
// is its unit clause, id 20 that of 1, and id 21 the clause of 1 and -1. The last cases spell nodes of the
// grid once more.
#[test]
fn first_causes(rt: HostRuntime) -> Result<(), Fail> {
    let f = contradiction(rt.alloc())?;
    let head =
        "p kpf 3 2\nd 3 T F\nd 2 4 F\nd 2 T 4\nd 1 6 5\ng 1 7\nr 1 0 1 2 0\nr 1 -1 0 1 2 0\n";
    let cases = [
        ("d 8 T F", 3),
        ("d -9 T F", 3),
        ("d 1 8 T", 3),
        ("d 1 F -8", 3),
        ("k 2 1 2 3 0 7 19", 9),
        ("k 2 1 2 8 0 7 19", 3),
        ("k 2 1 2 3 0 8 19", 3),
        ("k 2 1 2 3 0 7 22", 4),
        ("k 2 1 2 3 0 7 99", 4),
        ("k 2 1 2 1 0 7 19", 8),
        ("k 2 1 2 -2 0 7 19", 8),
        ("k 3 1 2 3 0 7 19", 7),
        ("k 2 1 3 2 0 7 19", 7),
        ("k 2 1 2 -3 0 7 19", 7),
        ("k 2 1 2 3 0 5 19", 7),
        ("k 2 1 2 3 0 3 19", 7),
        ("k 0 1 2 3 0 7 19", 7),
        ("k 2 0 7 19", 7),
        ("k 2 1 2 3 0 7 1", 6),
        ("k 2 1 2 3 0 7 20", 6),
        ("k 2 1 2 8 0 7 99", 3),
        ("k 2 1 2 3 0 8 22", 3),
        ("k 2 1 1 8 0 7 19", 3),
        ("k 2 1 2 -1 0 8 19", 3),
        ("k 3 1 2 8 0 7 19", 3),
        ("k 3 1 2 3 0 8 19", 3),
        ("k 2 1 2 8 0 7 1", 3),
        ("k 2 1 2 3 0 8 20", 3),
        ("k 2 1 1 3 0 7 99", 4),
        ("k 2 1 2 -1 0 7 22", 4),
        ("k 3 1 2 3 0 7 99", 4),
        ("k 2 1 2 3 0 5 22", 4),
        ("k 3 1 1 3 0 7 19", 8),
        ("k 2 1 2 -1 0 5 19", 8),
        ("k 2 1 1 3 0 7 1", 8),
        ("k 2 1 2 -1 0 7 20", 8),
        ("k 3 1 2 3 0 7 1", 7),
        ("k 2 1 2 3 0 5 20", 7),
        ("g 1 7", 9),
        ("g 1 8", 3),
        ("g 2 99", 3),
        ("g 22 7", 4),
        ("g 99 7", 4),
        ("g 21 7", 8),
        ("g 1 6", 7),
        ("g 1 1", 7),
        ("g 2 7", 7),
        ("g 99 8", 3),
        ("g 22 9", 3),
        ("g 21 8", 3),
        ("g 21 99", 3),
        ("x 19 0\nk 2 1 2 3 0 7 19", 4),
        ("x 1 0\ng 1 7", 4),
        ("d -3 F T\nd 2 T 8\nd -1 5 9\ng 1 10", 9),
        ("d -3 F T\nd 2 T 8\nd -1 9 5\ng 1 10", 7),
        ("d -3 T F\nd 2 T 8\nd 1 9 5\ng 1 10", 7),
        ("d 3 T F\nd 2 -8 F\nd 2 T 8\nd 1 10 9\ng 1 11", 7),
    ];
    for (line, why) in cases {
        let text = format!(in rt.alloc(); "{head}{line}\n")?;
        let checked = check(rt.alloc(), &f, text.as_bytes())?;
        assert_eq!(rt; cause(checked), why, "{line}");
    }
    Ok(())
}

fn cause(checked: Checked) -> u8 {
    match checked {
        Checked::Verified => 0,
        Checked::NotVerified { why, .. } => why,
    }
}

// An arm that is a constant is left out of its clause where it is false, and nothing is asked where it is true.
#[test]
fn definitions_give_four(rt: HostRuntime) -> Result<(), Fail> {
    let f = contradiction(rt.alloc())?;
    let mut checker = Checker::new(rt.alloc(), &f)?;
    let line = Line::Define {
        x: Lit::new(2, true),
        high: Arm::False,
        low: Arm::Lit(Lit::new(3, false)),
    };
    assert!(rt; checker.feed(&line).is_ok());
    assert!(rt; checker.vars() == 4 && checker.next_id() == 7);
    assert!(rt; is_clause_of(&checker, 3, &[Lit::new(4, false), Lit::new(2, false)]));
    assert!(rt;
        is_clause_of(
            &checker,
            4,
            &[Lit::new(4, false), Lit::new(2, true), Lit::new(3, false)]
        )
    );
    assert!(rt;
        checker
            .live(5)
            .is_some_and(|c| c.bound() == 0 && c.lits().is_empty())
    );
    assert!(rt;
        is_clause_of(
            &checker,
            6,
            &[Lit::new(4, true), Lit::new(2, true), Lit::new(3, true)]
        )
    );
    Ok(())
}

fn is_clause_of(checker: &Checker, id: u64, lits: &[Lit]) -> bool {
    match checker.live(id) {
        Some(c) => c.is_clause() && c.lits() == lits,
        None => false,
    }
}
