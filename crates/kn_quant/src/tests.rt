//! Quantification against lists of sixteen values, and the stages, buckets and result of one small elimination.
ghost use Rattle.std.specs.Prelude.{◌≡◌, [], ◌∷◌, IfOk};
ghost use Rattle.kn_diagram.specs.Diagrams.{IsNode, Keeps};
ghost use Rattle.kn_logic.specs.Constraints.{clause};
ghost use Rattle.kn_quant.specs.Runs.{order_of};

use crate::{Elimination, QuantError, Stage, eliminate, exists};
use kn_diagram::{DiagramError, Diagrams, Node, Trace};
use kn_logic::{Assignment, Constraint, Group, Lit, NoMemory};
use std::alloc::Global;
use std::test::Fail;

// The clause of two literals.
fn pair(alloc: Global, a: Lit, b: Lit) -> Result<Constraint, NoMemory>
    ensures { IfOk result (λ c. c ≡ clause (a ∷ b ∷ [])) }
{
    Ok(Constraint::new(1, Vec::from_slice(alloc, &[a, b])?))
}

// That at most one of 1, 2 and 3 is true, by the auxiliary variables 4 and 5.
fn at_most_one(alloc: Global) -> Result<Group, NoMemory>
    ensures { IfOk result (λ g. order_of g ≡ 5 ∷ 4 ∷ 3 ∷ 2 ∷ 1 ∷ []) }
{
    let aux = Vec::from_slice(alloc, &[4, 5])?;
    let border = [Lit::new(1, false), Lit::new(2, false), Lit::new(3, false)];
    let border = Vec::from_slice(alloc, &border)?;
    let taken = vec![in alloc;
        pair(alloc, Lit::new(1, false), Lit::new(4, true))?,
        pair(alloc, Lit::new(4, false), Lit::new(5, true))?,
        pair(alloc, Lit::new(2, false), Lit::new(5, true))?,
        pair(alloc, Lit::new(2, false), Lit::new(4, false))?,
        pair(alloc, Lit::new(3, false), Lit::new(5, false))?,
    ]?;
    Ok(Group::new(aux, taken, border))
}

// How many entries are those of clauses, how many join, and how many quantify.
fn kinds(stages: &[Stage]) -> (u64, u64, u64) {
    let mut counts = (0u64, 0u64, 0u64);
    for stage in stages {
        counts = match stage {
            Stage::Clause { .. } => (counts.0.saturating_add(1), counts.1, counts.2),
            Stage::And { .. } => (counts.0, counts.1.saturating_add(1), counts.2),
            Stage::Exists { .. } => (counts.0, counts.1, counts.2.saturating_add(1)),
        };
    }
    counts
}

// The values of a function of the variables from 1 to 4, the lowest bit being that of no true one.
fn values_of(alloc: Global, d: &Diagrams, f: Node) -> Result<u16, NoMemory>
    requires order { d.now.order ≡ 5 ∷ 4 ∷ 3 ∷ 2 ∷ 1 ∷ [] }
    requires there { IsNode d.now f }
{
    let mut values = 0u16;
    for at in 0..16u16 {
        let mut m = Assignment::new(alloc, 5, false)?;
        m.set(1, at % 2 == 1);
        m.set(2, at / 2 % 2 == 1);
        m.set(3, at / 4 % 2 == 1);
        m.set(4, at / 8 % 2 == 1);
        if d.value(f, &m) {
            values |= 1u16 << at;
        }
    }
    Ok(values)
}

// The function, but with this value where the variables have the values that are the bits of a number,
// if it was true there.
fn with_value(
    alloc: Global,
    d: &mut Diagrams,
    f: Node,
    at: u16,
    value: bool,
) -> Result<Node, DiagramError>
    requires order { d.old.order ≡ 5 ∷ 4 ∷ 3 ∷ 2 ∷ 1 ∷ [] }
    requires there { IsNode d.old f }
    ensures kept { Keeps d.old d.new }
    ensures node { IfOk result (λ w. IsNode d.new w) }
{
    if value {
        return Ok(f);
    }
    let lits = Vec::from_slice(
        alloc,
        &[
            Lit::new(1, at % 2 == 0),
            Lit::new(2, at / 2 % 2 == 0),
            Lit::new(3, at / 4 % 2 == 0),
            Lit::new(4, at / 8 % 2 == 0),
        ],
    )?;
    let clause = d.of_clause(&Constraint::new(1, lits))?;
    d.and(f, clause, &mut Trace::new(alloc))
}

// The node of a function by its sixteen values.
fn of_values(alloc: Global, d: &mut Diagrams, values: u16) -> Result<Node, DiagramError>
    requires { d.old.order ≡ 5 ∷ 4 ∷ 3 ∷ 2 ∷ 1 ∷ [] }
    ensures kept { Keeps d.old d.new }
    ensures node { IfOk result (λ w. IsNode d.new w) }
{
    let mut node = Node::TRUE;
    let mut rest = values;
    for at in 0..16u16 {
        node = with_value(alloc, d, node, at, rest % 2 == 1)?;
        rest /= 2;
    }
    Ok(node)
}

// Diagrams over five variables.
fn five(alloc: Global) -> Result<Diagrams, DiagramError>
    ensures { IfOk result (λ d. d.order ≡ 5 ∷ 4 ∷ 3 ∷ 2 ∷ 1 ∷ []) }
{
    Ok(Diagrams::new(alloc, &[5, 4, 3, 2, 1])?)
}

// The values of "for some value of the variable" of a function; none for a variable that is not there.
fn quantified(alloc: Global, var: u64, values: u16) -> Result<Option<u16>, DiagramError> {
    let mut d = five(alloc)?;
    let f = of_values(alloc, &mut d, values)?;
    if d.place(var) >= 5 {
        return Ok(None);
    }
    let mut met = Trace::new(alloc);
    let mut halves = Trace::new(alloc);
    let w = exists(&mut d, f, var, &mut met, &mut halves)?;
    Ok(Some(values_of(alloc, &d, w)?))
}

#[test]
fn as_lists_of_values(rt: HostRuntime) -> Result<(), Fail> {
    let cases: [(u64, u16, u16); 40] = [
        (1, 0x0000, 0x0000),
        (1, 0xffff, 0xffff),
        (1, 0xaaaa, 0xffff),
        (1, 0xff00, 0xff00),
        (1, 0x8888, 0xcccc),
        (1, 0x6666, 0xffff),
        (1, 0x8000, 0xc000),
        (1, 0xfee8, 0xfffc),
        (1, 0x1234, 0x333c),
        (1, 0x3c5a, 0x3cff),
        (2, 0x0000, 0x0000),
        (2, 0xffff, 0xffff),
        (2, 0xaaaa, 0xaaaa),
        (2, 0xff00, 0xff00),
        (2, 0x8888, 0xaaaa),
        (2, 0x6666, 0xffff),
        (2, 0x8000, 0xa000),
        (2, 0xfee8, 0xfffa),
        (2, 0x1234, 0x5af5),
        (2, 0x3c5a, 0xff5a),
        (3, 0x0000, 0x0000),
        (3, 0xffff, 0xffff),
        (3, 0xaaaa, 0xaaaa),
        (3, 0xff00, 0xff00),
        (3, 0x8888, 0x8888),
        (3, 0x6666, 0x6666),
        (3, 0x8000, 0x8800),
        (3, 0xfee8, 0xffee),
        (3, 0x1234, 0x3377),
        (3, 0x3c5a, 0xffff),
        (4, 0x0000, 0x0000),
        (4, 0xffff, 0xffff),
        (4, 0xaaaa, 0xaaaa),
        (4, 0xff00, 0xffff),
        (4, 0x8888, 0x8888),
        (4, 0x6666, 0x6666),
        (4, 0x8000, 0x8080),
        (4, 0xfee8, 0xfefe),
        (4, 0x1234, 0x3636),
        (4, 0x3c5a, 0x7e7e),
    ];
    for (var, values, want) in cases {
        assert_eq!(rt;
            quantified(rt.alloc(), var, values),
            Ok(Some(want)),
            "{var} {values}"
        );
    }
    Ok(())
}

// The buckets' variables, the entries of each kind, the result's values and how wide it is.
fn read(alloc: Global, e: &Elimination) -> Result<(bool, (u64, u64, u64), u16, u64), QuantError>
    requires { e.now.table.order ≡ 5 ∷ 4 ∷ 3 ∷ 2 ∷ 1 ∷ [] }
{
    let buckets = match e.buckets() {
        [first, second] => first.var == 4 && second.var == 5,
        _ => false,
    };
    let kinds = kinds(e.stages());
    let d = e.diagrams();
    let last = e.result();
    Ok((buckets, kinds, values_of(alloc, d, last)?, d.widest(last)?))
}

fn eliminated(alloc: Global) -> Result<(bool, (u64, u64, u64), u16, u64), QuantError> {
    let group = at_most_one(alloc)?;
    let e = eliminate(alloc, &group)?;
    read(alloc, &e)
}

#[test]
fn at_most_one_by_two_variables(rt: HostRuntime) -> Result<(), Fail> {
    assert_eq!(rt; eliminated(rt.alloc()), Ok((true, (5, 4, 2), 0x1717, 2)));
    Ok(())
}
