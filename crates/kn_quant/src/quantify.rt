//! Quantifying a variable in a diagram: nodes above it are made anew, at it both halves are joined, below all stays.
ghost use Rattle.std.specs.Prelude.{ℕ, ◌≡◌, ◌<◌, ◌≤◌, ◌||◌, ◌++◌, Bool, [], ◌∷◌, None, length, slice_index, OnOk, OnErr, IfOk, IfErr};
ghost use Rattle.kn_diagram.specs.Diagrams.{IsNode, IsBranch, Keeps, depth_in, depth_of, function_of};
ghost use Rattle.kn_diagram.specs.Traces.{AreExplained, found};
ghost use Rattle.kn_diagram.specs.Censuses.{StayParts, WouldBeWide};
ghost use Rattle.kn_diagram.specs.Wide.{IfWide, IsWideAt, IsWide};
ghost use Rattle.kn_quant.specs.Quantified.{some_value, entry_of, AreAccounted, Quantifies, Settles};

use kn_diagram::{Census, DiagramError, Diagrams, Memo, Node, Trace};
use kn_logic::NoMemory;

/// "For some value of `var`": the function that is true where `f` is true for some value of it. One
/// trace takes an entry (u, u, w) for each node u that was met, with its result w, the other the
/// disjunctions that these rest on. After an error both are as before.
pub fn exists(
    d: &mut Diagrams,
    f: Node,
    var: u64,
    trace: &mut Trace,
    halves: &mut Trace,
) -> Result<Node, DiagramError>
    requires there { IsNode d.old f }
    requires within { depth_in d.old.order var < length d.old.order }
    ensures kept { Keeps d.old d.new }
    ensures node { IfOk result (λ w. IsNode d.new w) }
    ensures depth { IfOk result (λ w. depth_of d.old f ≤ depth_of d.new w) }
    ensures function { IfOk result (λ w. (v : ℕ → Bool) → function_of d.new w v ≡ some_value var (function_of d.old f) v) }
    ensures traced { IfOk result (λ w. Quantifies d.new var trace.old trace.new halves.old halves.new f w) }
    ensures err { OnErr result ((trace.new ≡ trace.old) × (halves.new ≡ halves.old)) }
    ensures wide { IfErr result (λ e. IfWide e (λ level. IsWideAt d.old.order (some_value var (function_of d.old f)) level)) }
    ensures narrow { IfOk result (λ w. IsWide d.new.order (function_of d.new w) → ⊥) }
{
    let alloc = d.allocator();
    let mut memo = Memo::new(alloc);
    let mut joined = Memo::new(alloc);
    let mut census = Census::new(alloc);
    let place = d.place(var);
    let w = settle(d, f, place, &mut memo, &mut joined, &mut census)?;
    d.refuse_wide(w)?;
    write(&memo, &joined, trace, halves)?;
    Ok(w)
}

// The node of "for some value of the variable at this place, u", by way of the results that were noted
// before, and counting each result.
fn settle(
    d: &mut Diagrams,
    u: Node,
    place: usize,
    memo: &mut Memo,
    joined: &mut Memo,
    census: &mut Census,
) -> Result<Node, DiagramError>
    requires there { IsNode d.old u }
    requires within { place < length d.old.order }
    requires explained { AreExplained (λ a b. a || b) d.old [] joined.old }
    requires accounted { AreAccounted d.old (slice_index d.old.order place) joined.old [] memo.old }
    ensures kept { Keeps d.old d.new }
    ensures settled { IfOk result (λ w. Settles d.new (slice_index d.old.order place) memo.old memo.new joined.new u w) }
    ensures parts { OnOk result (StayParts d.old d.new census.old census.new (some_value (slice_index d.old.order place) (function_of d.old u)) (depth_of d.old u)) }
    ensures wide { IfErr result (λ e. IfWide e (WouldBeWide d.old census.old (some_value (slice_index d.old.order place) (function_of d.old u)) (depth_of d.old u))) }
{
    if let Some(w) = memo.get(u, u) {
        return Ok(w);
    }
    let own = d.depth(u);
    if place < own {
        note(d, u, u, memo, census)?;
        return Ok(u);
    }
    let (_, high, low) = parts_of(d, u);
    if place == own {
        let w = d.or_by(high, low, joined, census)?;
        note(d, u, w, memo, census)?;
        return Ok(w);
    }
    let high = settle(d, high, place, memo, joined, census)?;
    let low = settle(d, low, place, memo, joined, census)?;
    let w = d.make_at(own, high, low)?;
    note(d, u, w, memo, census)?;
    Ok(w)
}

// Notes the result for a node that has none, and counts it.
fn note(
    d: &Diagrams,
    u: Node,
    w: Node,
    memo: &mut Memo,
    census: &mut Census,
) -> Result<(), DiagramError>
    requires there { IsNode d.now w }
    requires absent { found memo.old u u ≡ None }
    ensures noted { OnOk result (memo.new ≡ memo.old ++ entry_of u w ∷ []) }
    ensures parts { OnOk result (StayParts d.now d.now census.old census.new (function_of d.now w) (depth_of d.now w)) }
    ensures wide { IfErr result (λ e. IfWide e (WouldBeWide d.now census.old (function_of d.now w) (depth_of d.now w))) }
{
    memo.insert(u, u, w)?;
    d.count_result(w, census)
}

// The variable of a node that is no constant, and its nodes for "true" and "false".
fn parts_of(d: &Diagrams, u: Node) -> (u64, Node, Node)
    requires there { IsNode d.now u }
    requires two { 2 ≤ u }
    ensures { IsBranch d.now u result.0 result.1 result.2 }
{
    let Some(parts) = d.parts(u) else {
        unreachable!()
    };
    parts
}

// Puts the results and the disjunctions behind the two traces, or neither.
fn write(memo: &Memo, joined: &Memo, trace: &mut Trace, halves: &mut Trace) -> Result<(), NoMemory>
    ensures ok { OnOk result ((trace.new ≡ trace.old ++ memo.now) × (halves.new ≡ halves.old ++ joined.now)) }
    ensures err { OnErr result ((trace.new ≡ trace.old) × (halves.new ≡ halves.old)) }
{
    let len = trace.met().len();
    memo.write(trace)?;
    if let Err(error) = joined.write(halves) {
        trace.truncate(len);
        return Err(error);
    }
    Ok(())
}
