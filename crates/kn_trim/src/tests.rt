//! Small proofs with lines and hints that nothing needs, against the texts that are to be left of them.
ghost use Rattle.std.specs.Prelude.{◌≡◌, ◌≤◌, ◌^◌, ◌∷◌, [], IfOk};
ghost use Rattle.kn_logic.specs.Constraints.{clause, klause};

use super::*;
use kn_logic::{Constraint, Formula, Lit, NoMemory};
use std::alloc::Global;
use std::test::Fail;

// at least two of the variables 1, 2, 3 are true, or false
fn two_of_three(alloc: Global, positive: bool) -> Result<Constraint, NoMemory>
    ensures { IfOk result (λ c. c ≡ klause 2 (record { variable = 1; positive = positive } ∷ record { variable = 2; positive = positive } ∷ record { variable = 3; positive = positive } ∷ [])) }
{
    let lits = vec![in alloc;
        Lit::new(1, positive),
        Lit::new(2, positive),
        Lit::new(3, positive),
    ]?;
    Ok(Constraint::new(2, lits))
}

// two of three variables are true, and two are false
fn contradiction(alloc: Global) -> Result<Formula, NoMemory>
    ensures { IfOk result (λ f. f.vars ≤ 2 ^ 32) }
{
    let mut f = Formula::new(alloc, 3);
    f.push(two_of_three(alloc, true)?)?;
    f.push(two_of_three(alloc, false)?)?;
    Ok(f)
}

// one of two literals of these variables, both positive or both negated
fn pair(alloc: Global, a: u64, b: u64, positive: bool) -> Result<Constraint, NoMemory>
    requires first { 1 ≤ a }
    requires second { 1 ≤ b }
    ensures { IfOk result (λ c. c ≡ clause (record { variable = a; positive = positive } ∷ record { variable = b; positive = positive } ∷ [])) }
{
    let lits = vec![in alloc; Lit::new(a, positive), Lit::new(b, positive)]?;
    Ok(Constraint::new(1, lits))
}

// of each two of three variables one is true, and one is false
fn pairs(alloc: Global) -> Result<Formula, NoMemory>
    ensures { IfOk result (λ f. f.vars ≤ 2 ^ 32) }
{
    let mut f = Formula::new(alloc, 3);
    f.push(pair(alloc, 1, 2, false)?)?;
    f.push(pair(alloc, 1, 3, false)?)?;
    f.push(pair(alloc, 2, 3, false)?)?;
    f.push(pair(alloc, 1, 2, true)?)?;
    f.push(pair(alloc, 1, 3, true)?)?;
    f.push(pair(alloc, 2, 3, true)?)?;
    Ok(f)
}

// the literal alone
fn unit(alloc: Global, var: u64, positive: bool) -> Result<Constraint, NoMemory>
    requires { 1 ≤ var }
    ensures { IfOk result (λ c. c ≡ clause (record { variable = var; positive = positive } ∷ [])) }
{
    let lits = vec![in alloc; Lit::new(var, positive)]?;
    Ok(Constraint::new(1, lits))
}

// if 3 then 1 and 2; not 1; 3
fn guarded(alloc: Global) -> Result<Formula, NoMemory>
    ensures { IfOk result (λ f. f.vars ≤ 2 ^ 32) }
{
    let mut f = Formula::new(alloc, 3);
    let lits = vec![in alloc; Lit::new(1, true), Lit::new(2, true)]?;
    f.push(Constraint::guarded(Lit::new(3, true), 2, lits))?;
    f.push(unit(alloc, 1, false)?)?;
    f.push(unit(alloc, 3, true)?)?;
    Ok(f)
}

// whether the proof is trimmed to this text, and that is trimmed to itself
fn gives(alloc: Global, f: &Formula, proof: &str, want: &str) -> Result<bool, NoMemory>
    requires { f.now.vars ≤ 2 ^ 32 }
{
    Ok(gives_once(alloc, f, proof, want)? && gives_once(alloc, f, want, want)?)
}

fn gives_once(alloc: Global, f: &Formula, proof: &str, want: &str) -> Result<bool, NoMemory>
    requires { f.now.vars ≤ 2 ^ 32 }
{
    match trim(alloc, f, proof.as_bytes())? {
        Trimmed::Text(text) => Ok(text.bytes() == want.as_bytes()),
        Trimmed::NotVerified { .. } => Ok(false),
    }
}

const SHORT: &str = "p kpf 3 2\nr 1 0 1 2 0\nr 2 0 1 2 0\nr 0 3 4 2 0\n";

#[test]
fn lines_and_hints_are_left_out(rt: HostRuntime) -> Result<(), Fail> {
    let f = contradiction(rt.alloc())?;
    let proofs = [
        // a lemma that nothing uses
        "p kpf 3 2\nr 1 0 1 2 0\nr 3 0 1 2 0\nr 2 0 1 2 0\nr 0 3 5 2 0\n",
        // a definition that nothing uses, and a deletion
        "p kpf 3 2\nd 3 T F\nr 1 0 1 2 0\nr 2 0 1 2 0\nx 3 0\nr 0 7 8 2 0\n",
        // hints that join nothing, and hints behind the conflict
        "p kpf 3 2\nr 1 0 1 1 2 2 0\nr 2 0 1 2 3 0\nr 0 1 3 3 4 2 1 0\n",
        // lines behind the first clause without literals, one of which has none either
        "p kpf 3 2\nr 1 0 1 2 0\nr 2 0 1 2 0\nr 0 3 4 2 0\nr 3 0 1 2 0\nl 0 6 3 2 0\n",
        // a definition that a lemma names which nothing uses, and an unfolding
        "p kpf 3 2\nd 3 T F\nd 2 4 F\nd 2 T 4\nd 1 6 5\ng 1 7\nr 1 4 0 1 2 0\nr 1 0 1 2 0\nr 2 0 1 2 0\nr 0 21 22 2 0\n",
        // comments, blank lines, zeros and blanks
        "c\n\n p  kpf 03 2\nr 1 0 1 2 0\nc r 0 1\n\tr 2 00 01 2 0\n\nr 0 3 4 2 0",
    ];
    for proof in proofs {
        assert!(rt; gives(rt.alloc(), &f, proof, SHORT)?, "{proof}");
    }
    Ok(())
}

#[test]
fn what_is_kept_is_numbered_anew(rt: HostRuntime) -> Result<(), Fail> {
    let f = contradiction(rt.alloc())?;
    let cases = [
        // learned clauses stay learned
        (
            "p kpf 3 2\nl 3 0 1 2 0\nl 1 0 1 2 0\nr 2 0 1 2 0\nl 0 4 5 2 0\n",
            "p kpf 3 2\nl 1 0 1 2 0\nr 2 0 1 2 0\nl 0 3 4 2 0\n",
        ),
        // an unfolding that is used, behind a definition that is not
        (
            "p kpf 3 2\nd 2 F T\nd 3 T F\nd 2 5 F\nd 2 T 5\nd 1 7 6\ng 1 8\nr 3 0 1 2 0\nr 1 0 23 20 12 11 8 2 0\nr 2 0 25 23 19 16 8 2 0\nx 24 0\nr 0 25 26 26 2 1 0\n",
            "p kpf 3 2\nd 3 T F\nd 2 4 F\nd 2 T 4\nd 1 6 5\ng 1 7\nr 1 0 19 16 8 7 4 2 0\nr 2 0 20 19 15 12 4 2 0\nr 0 20 21 2 0\n",
        ),
    ];
    for (proof, want) in cases {
        assert!(rt; gives(rt.alloc(), &f, proof, want)?, "{proof}");
    }
    Ok(())
}

#[test]
fn klauses_are_kept_where_they_are_used(rt: HostRuntime) -> Result<(), Fail> {
    let f = pairs(rt.alloc())?;
    let cases = [
        // with the line of the unit clause
        (
            "p kpf 3 6\nd 3 F T\nr 1 2 0 4 0\nd 2 F 4\nd 2 4 T\nd 1 5 6\nr -1 7 0 1 2 10 15 22 0\nr 7 0 24 23 19 18 3 10 0\nk 2 -1 -2 -3 0 7 25\nr 1 0 4 5 26 0\nr 0 27 26 6 0\n",
            "p kpf 3 6\nd 3 F T\nd 2 F 4\nd 2 4 T\nd 1 5 6\nr -1 7 0 1 2 10 14 21 0\nr 7 0 23 22 18 17 3 10 0\nk 2 -1 -2 -3 0 7 24\nr 1 0 4 5 25 0\nr 0 26 25 6 0\n",
        ),
        // it is a hint that joins nothing
        (
            "p kpf 3 6\nd 3 F T\nd 2 F 4\nd 2 4 T\nd 1 5 6\nr -1 7 0 1 2 10 14 21 0\nr 7 0 23 22 18 17 3 10 0\nk 2 -1 -2 -3 0 7 24\nr 1 0 4 5 3 25 0\nr 0 26 1 2 6 0\n",
            "p kpf 3 6\nr 1 0 4 5 3 0\nr 0 7 1 2 6 0\n",
        ),
    ];
    for (proof, want) in cases {
        assert!(rt; gives(rt.alloc(), &f, proof, want)?, "{proof}");
    }
    Ok(())
}

#[test]
fn guarded_hints_are_used_where_something_joins(rt: HostRuntime) -> Result<(), Fail> {
    let f = guarded(rt.alloc())?;
    let cases = [
        // a guard without a value, and one that is true
        ("p kpf 3 3\nr 0 1 3 2 1 0\n", "p kpf 3 3\nr 0 3 2 1 0\n"),
        // a guard that is refuted, and one that is false
        ("p kpf 3 3\nr 0 2 1 1 3 0\n", "p kpf 3 3\nr 0 2 1 3 0\n"),
    ];
    for (proof, want) in cases {
        assert!(rt; gives(rt.alloc(), &f, proof, want)?, "{proof}");
    }
    Ok(())
}

#[test]
fn no_proof_is_trimmed(rt: HostRuntime) -> Result<(), Fail> {
    let f = contradiction(rt.alloc())?;
    let cases = [
        (
            "p kpf 3 2\nr 1 0 1 2 0\nr 2 0 1 2 0\nx 1 0\nr 0 3 4 1 0\n",
            (5, 4),
        ),
        ("p kpf 3 2\nr 1 0 1 2 0\nr 0 3 0\n", (3, 5)),
        ("p kpf 3 2\nr 1 0 1 2 0\n", (2, 9)),
        ("", (0, 9)),
    ];
    for (proof, want) in cases {
        let told = match trim(rt.alloc(), &f, proof.as_bytes())? {
            Trimmed::Text(_) => (0, 0),
            Trimmed::NotVerified { line, why } => (line, why),
        };
        assert_eq!(rt; told, want, "{proof}");
    }
    Ok(())
}
