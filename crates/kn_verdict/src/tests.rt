//! Groups with each answer but a wide stage, and drawn ones of 6 and of 13 variables against all values.
ghost use Rattle.std.specs.Prelude.{◌≡◌, ◌≤◌, [], ◌∷◌, true, false, length, IfOk, if◌then◌else◌};
ghost use Rattle.std.specs.List.{AllByRecursion};
ghost use Rattle.kn_logic.specs.Constraints.{clause, is_clause};
ghost use Rattle.kn_logic.specs.Groups.{IsCovered};

use super::*;
use kn_logic::{Constraint, Group, Lit, NoMemory};
use std::alloc::Global;
use std::test::Fail;

// The clause of two literals.
fn pair(alloc: Global, a: Lit, b: Lit) -> Result<Constraint, NoMemory>
    ensures { IfOk result (λ c. c ≡ clause (a ∷ b ∷ [])) }
{
    Ok(Constraint::new(1, Vec::from_slice(alloc, &[a, b])?))
}

// At most one of 1, 2 and 3 is true, by the auxiliary variables 4 and 5.
fn at_most_one(alloc: Global) -> Result<Group, NoMemory>
    ensures border { IfOk result (λ g. length g.border ≡ 3) }
    ensures aux { IfOk result (λ g. length g.aux ≡ 2) }
{
    let aux = Vec::from_slice(alloc, &[4, 5])?;
    let border = [Lit::new(1, false), Lit::new(2, false), Lit::new(3, false)];
    let border = Vec::from_slice(alloc, &border)?;
    let taken = vec![in alloc;
        pair(alloc, Lit::new(1, false), Lit::new(4, true))?,
        pair(alloc, Lit::new(4, false), Lit::new(5, true))?,
        pair(alloc, Lit::new(2, false), Lit::new(5, true))?,
        pair(alloc, Lit::new(2, false), Lit::new(4, false))?,
        pair(alloc, Lit::new(3, false), Lit::new(5, false))?,
    ]?;
    Ok(Group::new(aux, taken, border))
}

// Of 1 and 2 at most one is true; 3 is free.
fn one_free(alloc: Global) -> Result<Group, NoMemory>
    ensures border { IfOk result (λ g. length g.border ≡ 3) }
    ensures aux { IfOk result (λ g. length g.aux ≡ 0) }
{
    let border = [Lit::new(1, false), Lit::new(2, false), Lit::new(3, false)];
    let border = Vec::from_slice(alloc, &border)?;
    let taken = vec![in alloc; pair(alloc, Lit::new(1, false), Lit::new(2, false))?]?;
    Ok(Group::new(Vec::new(alloc), taken, border))
}

// Nothing is said of 1, 2 and 3.
fn all_free(alloc: Global) -> Result<Group, NoMemory>
    ensures border { IfOk result (λ g. length g.border ≡ 3) }
    ensures aux { IfOk result (λ g. length g.aux ≡ 0) }
{
    let border = [Lit::new(1, true), Lit::new(2, true), Lit::new(3, true)];
    let border = Vec::from_slice(alloc, &border)?;
    Ok(Group::new(Vec::new(alloc), Vec::new(alloc), border))
}

#[test]
fn a_klause(rt: HostRuntime) -> Result<(), Fail> {
    let answer = verdict(rt.alloc(), &at_most_one(rt.alloc())?)?;
    assert!(rt; matches!(&answer, Verdict::Klause { bound, .. } if *bound == 2));
    Ok(())
}

#[test]
fn no_count(rt: HostRuntime) -> Result<(), Fail> {
    let answer = verdict(rt.alloc(), &one_free(rt.alloc())?)?;
    assert!(rt;
        matches!(&answer, Verdict::NotCardinal { bound, values } if *bound == 1 && values.values() == [true, true, false].as_slice())
    );
    Ok(())
}

#[test]
fn out_of_range(rt: HostRuntime) -> Result<(), Fail> {
    let answer = verdict(rt.alloc(), &all_free(rt.alloc())?)?;
    assert!(rt; matches!(&answer, Verdict::OutOfRange { bound } if *bound == 0));
    Ok(())
}

// Numbers that look random: always the same one at a place.
fn drawn(place: u64) -> u64 {
    let mixed = (place ^ 0x9e37_79b9).wrapping_mul(0x9e37_79b9_7f4a_7c15);
    let mixed = (mixed ^ (mixed >> 29)).wrapping_mul(0xbf58_476d_1ce4_e5b9);
    mixed ^ (mixed >> 32)
}

// A literal of the group that is drawn: -1, 2 or -3 of its border, or one of its auxiliary variables 4, 5 and 6.
fn drawn_literal(place: u64) -> Lit
    ensures { IsCovered (record { aux = 4 ∷ 5 ∷ 6 ∷ []; taken = []; border = record { variable = 1; positive = false } ∷ record { variable = 2; positive = true } ∷ record { variable = 3; positive = false } ∷ [] }) result }
{
    match drawn(place) % 9 {
        0 => Lit::new(1, false),
        1 => Lit::new(2, true),
        2 => Lit::new(3, false),
        3 => Lit::new(4, true),
        4 => Lit::new(4, false),
        5 => Lit::new(5, true),
        6 => Lit::new(5, false),
        7 => Lit::new(6, true),
        _ => Lit::new(6, false),
    }
}

// The clause of two literals, or, at one place in four, of three that are drawn.
fn drawn_clause(alloc: Global, place: u64, a: Lit, b: Lit) -> Result<Constraint, NoMemory>
    requires a { IsCovered (record { aux = 4 ∷ 5 ∷ 6 ∷ []; taken = []; border = record { variable = 1; positive = false } ∷ record { variable = 2; positive = true } ∷ record { variable = 3; positive = false } ∷ [] }) a }
    requires b { IsCovered (record { aux = 4 ∷ 5 ∷ 6 ∷ []; taken = []; border = record { variable = 1; positive = false } ∷ record { variable = 2; positive = true } ∷ record { variable = 3; positive = false } ∷ [] }) b }
    ensures clause { IfOk result (λ c. is_clause c ≡ true) }
    ensures covered { IfOk result (λ c. AllByRecursion (IsCovered (record { aux = 4 ∷ 5 ∷ 6 ∷ []; taken = []; border = record { variable = 1; positive = false } ∷ record { variable = 2; positive = true } ∷ record { variable = 3; positive = false } ∷ [] })) c.lits) }
{
    if drawn(place) % 4 > 0 {
        return pair(alloc, a, b);
    }
    let c = drawn_literal(place ^ 1);
    let d = drawn_literal(place ^ 2);
    let e = drawn_literal(place ^ 3);
    Ok(Constraint::new(1, Vec::from_slice(alloc, &[c, d, e])?))
}

// A group of six clauses: at first a counter over -1, 2 and -3, of which some clauses are drawn anew. It has few
// variables, or `many`.
fn drawn_group(alloc: Global, number: u64, many: bool) -> Result<Group, NoMemory>
    ensures border { IfOk result (λ g. length g.border ≡ 3) }
    ensures aux { IfOk result (λ g. length g.aux ≡ (if many then 10 else 3)) }
{
    let (x, y, z) = (Lit::new(1, false), Lit::new(2, true), Lit::new(3, false));
    let (four, five) = (Lit::new(4, true), Lit::new(5, true));
    let at = number << 5;
    let taken = vec![in alloc;
        drawn_clause(alloc, at, x, four)?,
        drawn_clause(alloc, at ^ 4, Lit::new(4, false), five)?,
        drawn_clause(alloc, at ^ 8, y, five)?,
        drawn_clause(alloc, at ^ 12, y, Lit::new(4, false))?,
        drawn_clause(alloc, at ^ 16, z, Lit::new(5, false))?,
        drawn_clause(alloc, at ^ 20, Lit::new(6, true), five)?,
    ]?;
    if many {
        group_of_many(alloc, taken)
    } else {
        group_of(alloc, taken)
    }
}

// The group of these clauses, with -1, 2 and -3 as its border and 4, 5 and 6 as its auxiliary variables.
fn group_of(alloc: Global, taken: Vec<Constraint>) -> Result<Group, NoMemory>
    requires clauses { AllByRecursion (λ c. is_clause c ≡ true) taken.items }
    requires covered { AllByRecursion (λ c. AllByRecursion (IsCovered (record { aux = 4 ∷ 5 ∷ 6 ∷ []; taken = []; border = record { variable = 1; positive = false } ∷ record { variable = 2; positive = true } ∷ record { variable = 3; positive = false } ∷ [] })) c.lits) taken.items }
    ensures border { IfOk result (λ g. length g.border ≡ 3) }
    ensures aux { IfOk result (λ g. length g.aux ≡ 3) }
{
    let aux = Vec::from_slice(alloc, &[4, 5, 6])?;
    let border = [Lit::new(1, false), Lit::new(2, true), Lit::new(3, false)];
    let border = Vec::from_slice(alloc, &border)?;
    Ok(Group::new(aux, taken, border))
}

// The same with 4 to 13 as its auxiliary variables.
fn group_of_many(alloc: Global, taken: Vec<Constraint>) -> Result<Group, NoMemory>
    requires clauses { AllByRecursion (λ c. is_clause c ≡ true) taken.items }
    requires covered { AllByRecursion (λ c. AllByRecursion (IsCovered (record { aux = 4 ∷ 5 ∷ 6 ∷ []; taken = []; border = record { variable = 1; positive = false } ∷ record { variable = 2; positive = true } ∷ record { variable = 3; positive = false } ∷ [] })) c.lits) taken.items }
    ensures border { IfOk result (λ g. length g.border ≡ 3) }
    ensures aux { IfOk result (λ g. length g.aux ≡ 10) }
{
    let aux = Vec::from_slice(alloc, &[4, 5, 6, 7, 8, 9, 10, 11, 12, 13])?;
    let border = [Lit::new(1, false), Lit::new(2, true), Lit::new(3, false)];
    let border = Vec::from_slice(alloc, &border)?;
    Ok(Group::new(aux, taken, border))
}

// Whether a literal is true where the bits of a number are the values of the variables, that of 1 the lowest.
fn is_true(lit: Lit, values: u64) -> bool {
    let bit = (lit.var() - 1) % 64;
    ((values >> bit) & 1 == 1) == lit.is_positive()
}

// Whether all clauses hold at these values.
fn all_hold(group: &Group, values: u64) -> bool {
    for c in group.taken() {
        let mut some = false;
        for lit in c.lits() {
            some = some | is_true(*lit, values);
        }
        if !some {
            return false;
        }
    }
    true
}

// Whether some values of the three auxiliary variables satisfy all clauses, with these of the border.
fn can_hold(group: &Group, values: u64) -> bool {
    for aux in 0..8u64 {
        if all_hold(group, values | aux << 3) {
            return true;
        }
    }
    false
}

// How many of -1, 2 and -3 are true.
fn count(values: u64) -> u64 {
    u64::from(values & 1 == 0) + u64::from(values & 2 != 0) + u64::from(values & 4 == 0)
}

// Whether the clauses say "at least so many of -1, 2 and -3".
fn is_count(group: &Group, bound: u64) -> bool {
    for values in 0..8u64 {
        if can_hold(group, values) != (bound <= count(values)) {
            return false;
        }
    }
    true
}

// The least number of first literals with which the clauses can be satisfied, and 4 where there is none.
fn least_start(group: &Group) -> u64 {
    let mut first = 0u64;
    for values in [5, 4, 6, 2] {
        if can_hold(group, values) {
            return first;
        }
        first = first.saturating_add(1);
    }
    4
}

// Whether a verdict says what all values say.
fn is_right(group: &Group, answer: &Verdict) -> bool {
    match answer {
        Verdict::Klause { bound, .. } => *bound == 2 && is_count(group, 2),
        Verdict::OutOfRange { bound } => *bound != 2 && *bound <= 4 && is_count(group, *bound),
        Verdict::NotCardinal { bound, values } => {
            let [x, y, z] = values.values() else {
                return false;
            };
            let at = u64::from(*x) | u64::from(*y) << 1 | u64::from(*z) << 2;
            *bound == least_start(group) && can_hold(group, at) != (*bound <= count(at))
        }
        Verdict::Wide { .. } => false,
    }
}

// Which of the answers come for 200 groups that are drawn: a klause, a count out of range, and no count. None
// where one of them is wrong.
fn answers(alloc: Global, many: bool) -> Result<Option<[bool; 3]>, NoMemory> {
    let mut seen = [false; 3];
    for number in 0..200u64 {
        let group = drawn_group(alloc, number, many)?;
        let answer = verdict(alloc, &group)?;
        if !is_right(&group, &answer) {
            return Ok(None);
        }
        match answer {
            Verdict::Klause { .. } => seen[0] = true,
            Verdict::OutOfRange { .. } => seen[1] = true,
            _ => seen[2] = true,
        }
    }
    Ok(Some(seen))
}

#[test]
fn verdicts_are_those_of_all_values(rt: HostRuntime) -> Result<(), Fail> {
    for many in [false, true] {
        let seen = answers(rt.alloc(), many)?;
        assert!(rt; seen == Some([true; 3]), "{many}");
    }
    Ok(())
}
