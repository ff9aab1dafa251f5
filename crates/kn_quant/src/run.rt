//! Bucket elimination of a group's auxiliary variables. Each choice has an order, so that a group has one run.
ghost use Rattle.std.specs.Prelude.{ℕ, ◌≡◌, ◌<◌, [], ◌∷◌, true, length, nat_eq, IfOk, IfErr, OnOk};
ghost use Rattle.std.specs.List.{AllByRecursion, IsDistinct};
ghost use Rattle.kn_logic.specs.Constraints.{is_clause};
ghost use Rattle.kn_diagram.specs.Diagrams.{IsNode, function_of};
ghost use Rattle.kn_quant.specs.Pieces.{nodes_of, marked_nodes, unmarked, AreMarked, AreOnTop};
ghost use Rattle.kn_quant.specs.Runs.{joins, whole, order_of, IsFirstWide};
ghost use Rattle.kn_quant.specs.Eliminations.{IsPiece, Makes, IsGiven, StopsIn, IfWideStage, IsEliminationOf, ArePieces, functions_of, Turns, TurnStops, Gathers, AreInOrder, WorkStops, Concludes};

use crate::piece::Piece;
use crate::work::Work;
use crate::{Elimination, QuantError};
use kn_diagram::{Diagrams, Node};
use kn_logic::{Constraint, Group, NoMemory};
use std::alloc::Global;

/// Eliminates the auxiliary variables of a group, the lowest first: the pieces that depend on the variable
/// are joined, from the first on, and "for some value of the variable" of their conjunction becomes the
/// last piece. What remains is joined too. The result is true exactly where some values of the auxiliary
/// variables satisfy all clauses.
pub fn eliminate(alloc: Global, group: &Group) -> Result<Elimination, QuantError>
    ensures run { IfOk result (λ e. IsEliminationOf group.now e) }
    ensures wide { IfErr result (λ e. IfWideStage e (IsFirstWide group.now)) }
    ensures never { IfOk result (λ e. (stage level : ℕ) → IsFirstWide group.now stage level → ⊥) }
{
    let order = order_of(alloc, group)?;
    let mut work = Work::new(alloc, Diagrams::new(alloc, &order)?);
    let mut pieces = take_all(alloc, &mut work, group.taken(), group.aux())?;
    let mut left = group.aux();
    while let [var, later @ ..] = left {
        pieces = turn(alloc, &mut work, *var, later, pieces)?;
        left = later;
    }
    let nodes = nodes(alloc, &pieces)?;
    conclude(work, &nodes)
}

// The order of the diagrams' variables, from the top.
fn order_of(alloc: Global, group: &Group) -> Result<Vec<u64>, NoMemory>
    ensures order { IfOk result (λ o. o.items ≡ order_of group.now) }
    ensures distinct { IfOk result (λ o. IsDistinct nat_eq o.items) }
{
    let mut order = Vec::new(alloc);
    for lit in group.border() {
        order.push(lit.var())?;
    }
    order.extend_from_slice(group.aux())?;
    order.reverse();
    Ok(order)
}

// Takes the clauses in order. Their nodes are the pieces.
fn take_all(
    alloc: Global,
    work: &mut Work,
    clauses: &[Constraint],
    aux: &[u64],
) -> Result<Vec<Piece>, NoMemory>
    requires fresh { work.old.stages ≡ [] }
    requires none { work.old.buckets ≡ [] }
    requires first { work.old.taken ≡ 0 }
    requires clauses { AllByRecursion (λ c. is_clause c ≡ true) clauses.now }
    requires within { AllByRecursion (AreInOrder work.old.table.order) clauses.now }
    requires on_top { AreOnTop work.old.table.order aux.now }
    ensures gathers { IfOk result (λ pieces. Gathers work.old work.new clauses.now (nodes_of pieces.items)) }
    ensures marked { IfOk result (λ pieces. AreMarked work.new.table aux.now pieces.items) }
{
    let mut pieces = Vec::new(alloc);
    for clause in clauses {
        let node = work.take(clause)?;
        let lowest = work.diagrams().deepest_above(node, aux.len())?;
        pieces.push(Piece { node, lowest })?;
    }
    Ok(pieces)
}

// The turn of a variable, before the later ones. Gives the pieces that are there then.
fn turn(
    alloc: Global,
    work: &mut Work,
    var: u64,
    later: &[u64],
    pieces: Vec<Piece>,
) -> Result<Vec<Piece>, QuantError>
    requires on_top { AreOnTop work.old.table.order (var ∷ later.now) }
    requires pieces { ArePieces work.old (nodes_of pieces.items) }
    requires marked { AreMarked work.old.table (var ∷ later.now) pieces.items }
    ensures turn { IfOk result (λ next. Turns work.old work.new var (nodes_of pieces.items) (nodes_of next.items)) }
    ensures marked { IfOk result (λ next. AreMarked work.new.table later.now next.items) }
    ensures empty { IfOk result (λ next. next.items ≡ [] → (pieces.items ≡ []) × (work.new ≡ work.old)) }
    ensures wide { IfErr result (λ e. IfWideStage e (TurnStops work.old var (nodes_of pieces.items))) }
{
    let (bucket, mut rest) = split(alloc, var, &pieces)?;
    let [first, others @ ..] = bucket.as_slice() else {
        return Ok(pieces);
    };
    let function = conjoin(work, *first, others)?;
    work.note(var, function)?;
    let node = work.exists(var, function)?;
    let lowest = work.diagrams().deepest_above(node, later.len())?;
    rest.push(Piece { node, lowest })?;
    Ok(rest)
}

// The nodes of the pieces whose lowest variable is this one, and the other pieces, both in order.
fn split(alloc: Global, var: u64, pieces: &[Piece]) -> Result<(Vec<Node>, Vec<Piece>), NoMemory>
    ensures bucket { IfOk result (λ p. p.0.items ≡ marked_nodes var pieces.now) }
    ensures rest { IfOk result (λ p. p.1.items ≡ unmarked var pieces.now) }
{
    let mut bucket = Vec::new(alloc);
    let mut rest = Vec::new(alloc);
    for piece in pieces {
        if piece.is_of(var) {
            bucket.push(piece.node)?;
        } else {
            rest.push(*piece)?;
        }
    }
    Ok((bucket, rest))
}

// The nodes of pieces.
fn nodes(alloc: Global, pieces: &[Piece]) -> Result<Vec<Node>, NoMemory>
    ensures { IfOk result (λ nodes. nodes.items ≡ nodes_of pieces.now) }
{
    let mut nodes = Vec::new(alloc);
    for piece in pieces {
        nodes.push(piece.node)?;
    }
    Ok(nodes)
}

// Joins pieces from the first on, each conjunction with a further piece being a stage.
fn conjoin(work: &mut Work, first: Node, others: &[Node]) -> Result<Node, QuantError>
    requires first { IsPiece work.old first }
    requires others { ArePieces work.old others.now }
    ensures makes { IfOk result (λ node. Makes work.old work.new (joins (function_of work.old.table first) (functions_of work.old.table others.now)) []) }
    ensures node { IfOk result (λ node. IsGiven work.new (whole (function_of work.old.table first) (functions_of work.old.table others.now)) node) }
    ensures wide { IfErr result (λ e. IfWideStage e (StopsIn work.old (joins (function_of work.old.table first) (functions_of work.old.table others.now)))) }
{
    let mut node = first;
    for other in others {
        node = work.and(node, *other)?;
    }
    Ok(node)
}

// Joins the pieces that remain, which gives the result.
fn conclude(mut work: Work, pieces: &[Node]) -> Result<Elimination, QuantError>
    requires pieces { ArePieces work pieces.now }
    requires empty { pieces.now ≡ [] → work.stages ≡ [] }
    ensures concludes { IfOk result (λ e. Concludes work e pieces.now) }
    ensures wide { IfErr result (λ e. IfWideStage e (WorkStops work pieces.now)) }
{
    let [first, others @ ..] = pieces else {
        return Ok(work.finish(Node::TRUE));
    };
    let node = conjoin(&mut work, *first, others)?;
    Ok(work.finish(node))
}
