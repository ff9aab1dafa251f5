//! Operations against lists of sixteen values, calls on a small diagram, and functions at the limit and just above.
ghost use Rattle.std.specs.Prelude.{ℕ, ◌≡◌, ◌<◌, ◌≤◌, [], ◌∷◌, length, IfOk};
ghost use Rattle.std.specs.List.{range_with_len};
ghost use Rattle.kn_diagram.specs.Diagrams.{IsNode, Keeps, depth_in};

use crate::{DiagramError, Diagrams, Node, Trace};
use kn_logic::{Assignment, Constraint, Lit};
use std::alloc::Global;
use std::test::Fail;

// Diagrams over four variables.
fn four(alloc: Global) -> Result<Diagrams, DiagramError>
    ensures { IfOk result (λ d. d.order ≡ 4 ∷ 3 ∷ 2 ∷ 1 ∷ []) }
{
    Ok(Diagrams::new(alloc, &[4, 3, 2, 1])?)
}

// The function, but with this value where the variables have the values that are the bits of a number,
// if it was true there.
fn with_value(
    alloc: Global,
    d: &mut Diagrams,
    f: Node,
    at: u16,
    value: bool,
) -> Result<Node, DiagramError>
    requires order { d.old.order ≡ 4 ∷ 3 ∷ 2 ∷ 1 ∷ [] }
    requires there { IsNode d.old f }
    ensures kept { Keeps d.old d.new }
    ensures node { IfOk result (λ w. IsNode d.new w) }
{
    if value {
        return Ok(f);
    }
    let lits = Vec::from_slice(
        alloc,
        &[
            Lit::new(1, at % 2 == 0),
            Lit::new(2, at / 2 % 2 == 0),
            Lit::new(3, at / 4 % 2 == 0),
            Lit::new(4, at / 8 % 2 == 0),
        ],
    )?;
    let clause = d.of_clause(&Constraint::new(1, lits))?;
    d.and(f, clause, &mut Trace::new(alloc))
}

// The node of a function by its sixteen values, the lowest bit being that of no true variable.
fn of_values(alloc: Global, d: &mut Diagrams, values: u16) -> Result<Node, DiagramError>
    requires { d.old.order ≡ 4 ∷ 3 ∷ 2 ∷ 1 ∷ [] }
    ensures kept { Keeps d.old d.new }
    ensures node { IfOk result (λ w. IsNode d.new w) }
{
    let mut node = Node::TRUE;
    let mut rest = values;
    for at in 0..16u16 {
        node = with_value(alloc, d, node, at, rest % 2 == 1)?;
        rest /= 2;
    }
    Ok(node)
}

// The values of a node, in the same order.
fn values_of(alloc: Global, d: &Diagrams, f: Node) -> Result<u16, DiagramError>
    requires order { d.now.order ≡ 4 ∷ 3 ∷ 2 ∷ 1 ∷ [] }
    requires there { IsNode d.now f }
{
    let mut values = 0u16;
    for at in 0..16u16 {
        let mut m = Assignment::new(alloc, 4, false)?;
        m.set(1, at % 2 == 1);
        m.set(2, at / 2 % 2 == 1);
        m.set(3, at / 4 % 2 == 1);
        m.set(4, at / 8 % 2 == 1);
        if d.value(f, &m) {
            values |= 1u16 << at;
        }
    }
    Ok(values)
}

// The node of two functions joined.
fn join(
    alloc: Global,
    d: &mut Diagrams,
    conjunction: bool,
    f: Node,
    g: Node,
) -> Result<Node, DiagramError>
    requires f_there { IsNode d.old f }
    requires g_there { IsNode d.old g }
    ensures order { d.new.order ≡ d.old.order }
    ensures node { IfOk result (λ w. IsNode d.new w) }
{
    let mut unread = Trace::new(alloc);
    if conjunction {
        d.and(f, g, &mut unread)
    } else {
        d.or(f, g, &mut unread)
    }
}

// The values of two functions joined, and whether both have one node.
fn joined(alloc: Global, conjunction: bool, a: u16, b: u16) -> Result<(u16, bool), DiagramError> {
    let mut d = four(alloc)?;
    let f = of_values(alloc, &mut d, a)?;
    let g = of_values(alloc, &mut d, b)?;
    let w = join(alloc, &mut d, conjunction, f, g)?;
    Ok((values_of(alloc, &d, w)?, f == g))
}

#[test]
fn as_lists_of_values(rt: HostRuntime) -> Result<(), Fail> {
    let functions: [u16; 20] = [
        0x0000, 0xffff, 0xaaaa, 0xcccc, 0xf0f0, 0xff00, 0x8888, 0xeeee, 0x6666, 0x9669, 0x8000,
        0x0001, 0xfffe, 0xe8e8, 0xfee8, 0x1234, 0x7f80, 0xaa55, 0xc0c0, 0x3c5a,
    ];
    for a in functions {
        for b in functions {
            assert_eq!(rt;
                joined(rt.alloc(), true, a, b),
                Ok((a & b, a == b)),
                "{a} and {b}"
            );
            assert_eq!(rt;
                joined(rt.alloc(), false, a, b),
                Ok((a | b, a == b)),
                "{a} or {b}"
            );
        }
    }
    Ok(())
}

// Two nodes of a small diagram, by `make`: "1", and "2 or 1".
fn made(d: &mut Diagrams) -> Result<(Node, Node), DiagramError>
    requires { d.old.order ≡ 4 ∷ 3 ∷ 2 ∷ 1 ∷ [] }
    ensures one { IfOk result (λ p. IsNode d.new p.0) }
    ensures two { IfOk result (λ p. IsNode d.new p.1) }
{
    let one = d.make(1, Node::TRUE, Node::FALSE)?;
    let two = d.make(2, Node::TRUE, one)?;
    Ok((one, two))
}

// What `parts`, `widest` and `nodes` answer on it.
fn read(d: &Diagrams, one: Node, two: Node) -> Result<(bool, bool, u64, u64), DiagramError>
    requires { IsNode d.now two }
{
    let split = d.parts(two) == Some((2, Node::TRUE, one));
    Ok((
        split,
        d.parts(Node::TRUE).is_none(),
        d.widest(two)?,
        d.nodes(),
    ))
}

fn small(alloc: Global) -> Result<(bool, bool, u64, u64), DiagramError> {
    let mut d = four(alloc)?;
    let (one, two) = made(&mut d)?;
    read(&d, one, two)
}

// How many pairs a conjunction on it meets, and whether the last is that of the call.
fn traced(alloc: Global) -> Result<(usize, bool), DiagramError> {
    let mut d = four(alloc)?;
    let (one, two) = made(&mut d)?;
    let mut trace = Trace::new(alloc);
    let both = d.and(two, one, &mut trace)?;
    let last = match trace.met() {
        [.., last] => last.u == two && last.v == one && last.w == both && both == one,
        [] => false,
    };
    Ok((trace.met().len(), last))
}

#[test]
fn calls_on_a_small_diagram(rt: HostRuntime) -> Result<(), Fail> {
    assert_eq!(rt; small(rt.alloc()), Ok((true, true, 1, 4)));
    assert_eq!(rt; traced(rt.alloc()), Ok((3, true)));
    Ok(())
}

// Diagrams over a switch and two groups of eight variables.
fn seventeen(alloc: Global) -> Result<Diagrams, DiagramError>
    ensures { IfOk result (λ d. d.order ≡ range_with_len 1 17) }
{
    Ok(Diagrams::new(
        alloc,
        &[1, 2, 3, 4, 5, 6, 7, 8, 9, 10, 11, 12, 13, 14, 15, 16, 17],
    )?)
}

// "The one or the other."
fn either(alloc: Global, d: &mut Diagrams, one: Lit, other: Lit) -> Result<Node, DiagramError>
    requires one { depth_in d.old.order one.variable < length d.old.order }
    requires other { depth_in d.old.order other.variable < length d.old.order }
    ensures kept { Keeps d.old d.new }
    ensures node { IfOk result (λ w. IsNode d.new w) }
{
    let lits = Vec::from_slice(alloc, &[one, other])?;
    Ok(d.of_clause(&Constraint::new(1, lits))?)
}

// The function, and "this variable is like its fellow of the second group".
fn and_like(alloc: Global, d: &mut Diagrams, f: Node, var: u64) -> Result<Node, DiagramError>
    requires order { d.old.order ≡ range_with_len 1 17 }
    requires there { IsNode d.old f }
    requires first { 1 ≤ var }
    requires last { var < 10 }
    ensures order { d.new.order ≡ range_with_len 1 17 }
    ensures node { IfOk result (λ w. IsNode d.new w) }
{
    let mut unread = Trace::new(alloc);
    let up = either(alloc, d, Lit::new(var, false), Lit::new(var + 8, true))?;
    let less = d.and(f, up, &mut unread)?;
    let down = either(alloc, d, Lit::new(var, true), Lit::new(var + 8, false))?;
    d.and(less, down, &mut unread)
}

// "Each of the first group is like its fellow of the second." Below the first group there remain 256
// functions of it.
fn alike(alloc: Global, d: &mut Diagrams) -> Result<Node, DiagramError>
    requires { d.old.order ≡ range_with_len 1 17 }
    ensures order { d.new.order ≡ range_with_len 1 17 }
    ensures node { IfOk result (λ w. IsNode d.new w) }
{
    let mut node = Node::TRUE;
    for var in 2..10u64 {
        node = and_like(alloc, d, node, var)?;
    }
    Ok(node)
}

// "If the switch, then they are alike, else the first of the second group": 257 functions remain.
fn switched(
    alloc: Global,
    d: &mut Diagrams,
    alike: Node,
    conjunction: bool,
) -> Result<Node, DiagramError>
    requires order { d.old.order ≡ range_with_len 1 17 }
    requires there { IsNode d.old alike }
{
    let on = either(alloc, d, Lit::new(1, true), Lit::new(1, true))?;
    let off = either(alloc, d, Lit::new(1, false), Lit::new(1, false))?;
    let first = either(alloc, d, Lit::new(10, true), Lit::new(10, true))?;
    let mut unread = Trace::new(alloc);
    if conjunction {
        let left = d.or(off, alike, &mut unread)?;
        let right = d.or(on, first, &mut unread)?;
        d.and(left, right, &mut unread)
    } else {
        let left = d.and(on, alike, &mut unread)?;
        let right = d.and(off, first, &mut unread)?;
        d.or(left, right, &mut unread)
    }
}

// How wide the functions are of which 256 and 257 functions remain.
fn around_the_bound(
    alloc: Global,
    conjunction: bool,
) -> Result<(u64, Result<Node, DiagramError>), DiagramError> {
    let mut d = seventeen(alloc)?;
    let alike = alike(alloc, &mut d)?;
    let narrow = d.widest(alike)?;
    Ok((narrow, switched(alloc, &mut d, alike, conjunction)))
}

#[test]
fn wide_from_257_functions(rt: HostRuntime) -> Result<(), Fail> {
    for conjunction in [true, false] {
        assert_eq!(rt;
            around_the_bound(rt.alloc(), conjunction),
            Ok((256, Err(DiagramError::Wide { level: 10 }))),
            "{conjunction}"
        );
    }
    Ok(())
}
