//! Reduced ordered binary decision diagrams (Bryant): all nodes in one table, where equal functions have equal nodes.
ghost use Rattle.std.specs.Prelude.{ℕ, ◌≡◌, ◌+◌, ◌<◌, ◌≤◌, ◌&&◌, ◌||◌, ◌↔◌, min, Bool, true, false, [], length, slice_index, nat_eq, if◌then◌else◌, OnOk, OnErr, IfOk, IfErr, IfSome, IfNone, is_none, nat_lt};
ghost use Rattle.std.specs.List.{IsDistinct, AllByRecursion, list_any};
ghost use Rattle.kn_logic.specs.Constraints.{is_clause};
ghost use Rattle.kn_logic.specs.Assignments.{value_of};
ghost use Rattle.kn_diagram.specs.Widths.{IsWidest};
ghost use Rattle.kn_diagram.specs.Wide.{IfWide, IsWideAt, IsWide, DependsOn, Ignores};
ghost use Rattle.kn_diagram.specs.Censuses.{StayParts, WouldBeWide};
ghost use Rattle.kn_diagram.specs.Traces.{connective, AreExplained, Gains, IsRight, Explains};
ghost use Rattle.kn_diagram.specs.Diagrams.{IsNode, function_of, depth_of, depth_in, is_true_by, asks, IsBranch, IsCanonical, HasNodes, IsTable, IsSplit, IsMade, Keeps};

use crate::census::Census;
use crate::joint::{Joint, decided};
use crate::memo::Memo;
use crate::rows::Rows;
use crate::width::NARROW;
use crate::{DiagramError, Node, Trace, width};
use kn_logic::{Assignment, Constraint, Lit, NoMemory};
use std::alloc::{AllocError, Global};
use std::marker::Model;

/// As many nodes as a table can have.
const MOST: usize = 1 << 48;

/// Decision diagrams over one order of variables.
#[derive(Drop)]
pub struct Diagrams {
    order: Vec<u64>,
    rows: Rows,
}

impl Model for Diagrams {
    ghost use Rattle.kn_diagram.specs.Diagrams.{Table, IsTable};

    ghost Value = { Table };

    ghost view = { λ d. record { order = d.order.items; rows = d.rows } };

    ghost invariant = { λ d. IsTable (record { order = d.order.items; rows = d.rows }) };
}

impl Diagrams {
    /// Diagrams over these variables, the first of them at the top.
    pub fn new(alloc: Global, order: &[u64]) -> Result<Diagrams, NoMemory>
        requires { IsDistinct nat_eq order.now }
        ensures order { IfOk result (λ d. d.order ≡ order.now) }
        ensures nodes { IfOk result (λ d. (node : ℕ) → IsNode d node ↔ (node < 2)) }
    {
        Ok(Diagrams {
            order: Vec::from_slice(alloc, order)?,
            rows: Rows::new(alloc),
        })
    }

    /// "If `var` then `high`, else `low`."
    pub fn make(&mut self, var: u64, high: Node, low: Node) -> Result<Node, NoMemory>
        requires high_there { IsNode self.old high }
        requires low_there { IsNode self.old low }
        requires within { depth_in self.old.order var < length self.old.order }
        requires above_high { depth_in self.old.order var < depth_of self.old high }
        requires above_low { depth_in self.old.order var < depth_of self.old low }
        ensures kept { Keeps self.old self.new }
        ensures node { IfOk result (λ w. IsNode self.new w) }
        ensures depth { IfOk result (λ w. depth_in self.old.order var ≤ depth_of self.new w) }
        ensures function { IfOk result (λ w. (v : ℕ → Bool) → function_of self.new w v ≡ (if v var then function_of self.old high v else function_of self.old low v)) }
    {
        let depth = depth_in(&self.order, var);
        self.make_at(depth, high, low)
    }

    /// "If the variable at this depth of the order then `high`, else `low`."
    pub fn make_at(&mut self, depth: usize, high: Node, low: Node) -> Result<Node, NoMemory>
        requires high_there { IsNode self.old high }
        requires low_there { IsNode self.old low }
        requires within { depth < length self.old.order }
        requires above_high { depth < depth_of self.old high }
        requires above_low { depth < depth_of self.old low }
        ensures kept { Keeps self.old self.new }
        ensures made { IfOk result (λ w. IsMade self.old self.new depth high low w) }
    {
        if high == low {
            return Ok(high);
        }
        if self.rows.len() >= MOST {
            return Err(AllocError);
        }
        let place = self.rows.place_of(depth, high.number(), low.number())?;
        Ok(Node::new(place + 2))
    }

    /// The function of a clause over variables of the order: some literal is true.
    pub fn of_clause(&mut self, c: &Constraint) -> Result<Node, NoMemory>
        requires clause { is_clause c.now ≡ true }
        requires within { AllByRecursion (λ l. depth_in self.old.order l.variable < length self.old.order) c.now.lits }
        ensures kept { Keeps self.old self.new }
        ensures node { IfOk result (λ w. IsNode self.new w) }
        ensures function { IfOk result (λ w. (v : ℕ → Bool) → function_of self.new w v ≡ list_any (is_true_by v) c.now.lits) }
    {
        let lits = c.lits();
        let mut depth = self.order.len();
        let mut node = Node::FALSE;
        while depth > 0 {
            depth -= 1;
            let var = self.order[depth];
            let high = true_or(asks(lits, var, true), node);
            let low = true_or(asks(lits, var, false), node);
            node = self.make_at(depth, high, low)?;
        }
        Ok(node)
    }

    /// The conjunction of both functions; `Wide` exactly where it is wide (`specs/Wide.antt`).
    pub fn and(&mut self, f: Node, g: Node, trace: &mut Trace) -> Result<Node, DiagramError>
        requires f_there { IsNode self.old f }
        requires g_there { IsNode self.old g }
        ensures kept { Keeps self.old self.new }
        ensures node { IfOk result (λ w. IsNode self.new w) }
        ensures depth { IfOk result (λ w. min (depth_of self.old f) (depth_of self.old g) ≤ depth_of self.new w) }
        ensures function { IfOk result (λ w. (v : ℕ → Bool) → function_of self.new w v ≡ (function_of self.old f v && function_of self.old g v)) }
        ensures traced { IfOk result (λ w. Explains (λ a b. a && b) self.new trace.old trace.new (record { u = f; v = g; w = w })) }
        ensures err { OnErr result (trace.new ≡ trace.old) }
        ensures wide { IfErr result (λ e. IfWide e (λ level. IsWideAt self.old.order (λ v. function_of self.old f v && function_of self.old g v) level)) }
        ensures narrow { IfOk result (λ w. IsWide self.new.order (function_of self.new w) → ⊥) }
    {
        self.traced(Joint::And, f, g, trace)
    }

    /// The disjunction of both functions; `Wide` exactly where it is wide (`specs/Wide.antt`).
    pub fn or(&mut self, f: Node, g: Node, trace: &mut Trace) -> Result<Node, DiagramError>
        requires f_there { IsNode self.old f }
        requires g_there { IsNode self.old g }
        ensures kept { Keeps self.old self.new }
        ensures node { IfOk result (λ w. IsNode self.new w) }
        ensures depth { IfOk result (λ w. min (depth_of self.old f) (depth_of self.old g) ≤ depth_of self.new w) }
        ensures function { IfOk result (λ w. (v : ℕ → Bool) → function_of self.new w v ≡ (function_of self.old f v || function_of self.old g v)) }
        ensures traced { IfOk result (λ w. Explains (λ a b. a || b) self.new trace.old trace.new (record { u = f; v = g; w = w })) }
        ensures err { OnErr result (trace.new ≡ trace.old) }
        ensures wide { IfErr result (λ e. IfWide e (λ level. IsWideAt self.old.order (λ v. function_of self.old f v || function_of self.old g v) level)) }
        ensures narrow { IfOk result (λ w. IsWide self.new.order (function_of self.new w) → ⊥) }
    {
        self.traced(Joint::Or, f, g, trace)
    }

    /// The disjunction of both functions, as a part of an operation: by way of the results that were noted
    /// before, and counting each result. `Wide` only where the function is wide of which all that was
    /// counted, and this disjunction, are parts (`specs/Censuses.antt`).
    pub fn or_by(
        &mut self,
        f: Node,
        g: Node,
        memo: &mut Memo,
        census: &mut Census,
    ) -> Result<Node, DiagramError>
        requires f_there { IsNode self.old f }
        requires g_there { IsNode self.old g }
        requires explained { AreExplained (λ a b. a || b) self.old [] memo.old }
        ensures kept { Keeps self.old self.new }
        ensures joined { IfOk result (λ w. Gains (λ a b. a || b) self.new memo.old memo.new f g w) }
        ensures parts { OnOk result (StayParts self.old self.new census.old census.new (λ v. function_of self.old f v || function_of self.old g v) (min (depth_of self.old f) (depth_of self.old g))) }
        ensures wide { IfErr result (λ e. IfWide e (WouldBeWide self.old census.old (λ v. function_of self.old f v || function_of self.old g v) (min (depth_of self.old f) (depth_of self.old g)))) }
    {
        self.join(Joint::Or, f, g, memo, census)
    }

    /// Counts a result of an operation. `Wide` where more than 256 of its depth were counted: then the
    /// function is wide of which they all are parts (`specs/Censuses.antt`).
    pub fn count_result(&self, w: Node, census: &mut Census) -> Result<(), DiagramError>
        requires { IsNode self.now w }
        ensures parts { OnOk result (StayParts self.now self.now census.old census.new (function_of self.now w) (depth_of self.now w)) }
        ensures wide { IfErr result (λ e. IfWide e (WouldBeWide self.now census.old (function_of self.now w) (depth_of self.now w))) }
    {
        let Some((level, _, _)) = self.parts(w) else {
            return Ok(());
        };
        let count = census.add(self.depth(w), w)?;
        if count > NARROW {
            return Err(DiagramError::Wide { level });
        }
        Ok(())
    }

    /// The variable of a node, and its nodes for where the variable is true and where it is false;
    /// `None` exactly for the two constants.
    pub fn parts(&self, f: Node) -> Option<(u64, Node, Node)>
        requires { IsNode self.now f }
        ensures constant { is_none result ≡ nat_lt f 2 }
        ensures branch { IfSome result (λ p. IsBranch self.now f p.0 p.1 p.2) }
    {
        let number = f.number();
        if number < 2 {
            return None;
        }
        let (depth, high, low) = self.rows.row(number);
        Some((self.order[depth], Node::new(high), Node::new(low)))
    }

    /// The value of a function under an assignment, which has all variables of the order.
    pub fn value(&self, f: Node, m: &Assignment) -> bool
        requires there { IsNode self.now f }
        requires known { (depth : ℕ) → depth < length self.now.order → (1 ≤ slice_index self.now.order depth) × (slice_index self.now.order depth ≤ length m.now) }
        ensures { result ≡ function_of self.now f (value_of m.now) }
    {
        let mut node = f;
        while let Some((var, high, low)) = self.parts(node) {
            node = if m.value(var) { high } else { low };
        }
        node == Node::TRUE
    }

    /// The greatest number of different nodes of one variable that are reached from `f`.
    pub fn widest(&self, f: Node) -> Result<u64, NoMemory>
        requires { IsNode self.now f }
        ensures { IfOk result (λ n. IsWidest self.now f n) }
    {
        width::widest(*self.order.allocator(), self, f)
    }

    /// The variable that stands furthest down the order, but above this depth, of those whose value decides
    /// the function's at some values of the others. None where there is none above the depth.
    pub fn deepest_above(&self, f: Node, depth: usize) -> Result<Option<u64>, NoMemory>
        requires there { IsNode self.now f }
        requires within { depth ≤ length self.now.order }
        ensures above { IfOk result (λ r. IfSome r (λ x. depth_in self.now.order x < depth)) }
        ensures depends { IfOk result (λ r. IfSome r (λ x. DependsOn (function_of self.now f) x)) }
        ensures deepest { IfOk result (λ r. IfSome r (λ x. (k : ℕ) → depth_in self.now.order x < k → k < depth → Ignores (function_of self.now f) (slice_index self.now.order k))) }
        ensures none { IfOk result (λ r. IfNone r ((k : ℕ) → k < depth → Ignores (function_of self.now f) (slice_index self.now.order k))) }
    {
        let widths = width::widths(*self.order.allocator(), self, f)?;
        let Some(place) = width::last_used(&widths, depth) else {
            return Ok(None);
        };
        Ok(Some(self.order[place]))
    }

    /// How far down the order a variable stands, the top having 0; the length of the order where it is
    /// not in it.
    pub fn place(&self, var: u64) -> usize
        ensures place { result ≡ depth_in self.now.order var }
        ensures table { IsTable self.now }
    {
        depth_in(&self.order, var)
    }

    /// Where the nodes take their memory.
    pub fn allocator(&self) -> Global {
        *self.order.allocator()
    }

    /// How many nodes there are up to this one.
    pub(crate) fn count_to(&self, node: Node) -> usize
        requires { IsNode self.now node }
        ensures count { result ≡ node + 1 }
        ensures table { IsTable self.now }
    {
        let rows = self.rows.len();
        let number = node.number();
        prove!(number < rows + 2);
        number + 1
    }

    /// The number of variables.
    pub(crate) fn height(&self) -> usize
        ensures len { result ≡ length self.now.order }
        ensures table { IsTable self.now }
    {
        self.order.len()
    }

    /// How many nodes there are, with the two constants.
    pub fn nodes(&self) -> u64
        ensures count { (node : ℕ) → IsNode self.now node ↔ (node < result) }
        ensures canonical { IsCanonical self.now }
        ensures laws { HasNodes self.now }
    {
        self.rows.len() as u64 + 2
    }

    /// An error exactly where the function of a node is wide: it names a variable where it is.
    pub fn refuse_wide(&self, w: Node) -> Result<(), DiagramError>
        requires { IsNode self.now w }
        ensures wide { IfErr result (λ e. IfWide e (λ level. IsWideAt self.now.order (function_of self.now w) level)) }
        ensures narrow { OnOk result (IsWide self.now.order (function_of self.now w) → ⊥) }
    {
        if let Some(depth) = width::first_wide(*self.order.allocator(), self, w)? {
            let level = self.order[depth];
            return Err(DiagramError::Wide { level });
        }
        Ok(())
    }

    /// How far down the order the variable of a node stands; a constant stands below all.
    pub fn depth(&self, node: Node) -> usize
        requires { IsNode self.now node }
        ensures value { result ≡ depth_of self.now node }
        ensures branch { 2 ≤ node → result < length self.now.order }
        ensures table { IsTable self.now }
    {
        let number = node.number();
        if number < 2 {
            return self.order.len();
        }
        let (depth, _, _) = self.rows.row(number);
        depth
    }

    // The node for where the variable at a depth is true, and the one for where it is false.
    fn halves(&self, node: Node, depth: usize) -> (Node, Node)
        requires there { IsNode self.now node }
        requires above { depth ≤ depth_of self.now node }
        requires within { depth < length self.now.order }
        ensures { IsSplit self.now node depth result.0 result.1 }
    {
        let number = node.number();
        if number < 2 {
            return (node, node);
        }
        let (own, high, low) = self.rows.row(number);
        if own == depth {
            (Node::new(high), Node::new(low))
        } else {
            (node, node)
        }
    }

    // The node for both functions joined, by way of the results that were noted before, and counting each
    // result.
    fn join(
        &mut self,
        joint: Joint,
        f: Node,
        g: Node,
        memo: &mut Memo,
        census: &mut Census,
    ) -> Result<Node, DiagramError>
        requires f_there { IsNode self.old f }
        requires g_there { IsNode self.old g }
        requires explained { AreExplained (connective joint) self.old [] memo.old }
        ensures kept { Keeps self.old self.new }
        ensures joined { IfOk result (λ w. Gains (connective joint) self.new memo.old memo.new f g w) }
        ensures parts { OnOk result (StayParts self.old self.new census.old census.new (λ v. connective joint (function_of self.old f v) (function_of self.old g v)) (min (depth_of self.old f) (depth_of self.old g))) }
        ensures wide { IfErr result (λ e. IfWide e (WouldBeWide self.old census.old (λ v. connective joint (function_of self.old f v) (function_of self.old g v)) (min (depth_of self.old f) (depth_of self.old g)))) }
    {
        if let Some(w) = memo.get(f, g) {
            return Ok(w);
        }
        if let Some(w) = decided(joint, f, g) {
            memo.insert(f, g, w)?;
            self.count_result(w, census)?;
            return Ok(w);
        }
        let f_depth = self.depth(f);
        let g_depth = self.depth(g);
        let depth = f_depth.min(g_depth);
        let (f_high, f_low) = self.halves(f, depth);
        let (g_high, g_low) = self.halves(g, depth);
        let high = self.join(joint, f_high, g_high, memo, census)?;
        let low = self.join(joint, f_low, g_low, memo, census)?;
        let w = self.make_at(depth, high, low)?;
        memo.insert(f, g, w)?;
        self.count_result(w, census)?;
        Ok(w)
    }

    // The node for both functions joined. The trace takes the pairs that were met.
    fn traced(
        &mut self,
        joint: Joint,
        f: Node,
        g: Node,
        trace: &mut Trace,
    ) -> Result<Node, DiagramError>
        requires f_there { IsNode self.old f }
        requires g_there { IsNode self.old g }
        ensures kept { Keeps self.old self.new }
        ensures right { IfOk result (λ w. IsRight (connective joint) self.new (record { u = f; v = g; w = w })) }
        ensures explained { IfOk result (λ w. Explains (connective joint) self.new trace.old trace.new (record { u = f; v = g; w = w })) }
        ensures err { OnErr result (trace.new ≡ trace.old) }
        ensures wide { IfErr result (λ e. IfWide e (λ level. IsWideAt self.old.order (λ v. connective joint (function_of self.old f v) (function_of self.old g v)) level)) }
        ensures narrow { IfOk result (λ w. IsWide self.new.order (function_of self.new w) → ⊥) }
    {
        let alloc = *self.order.allocator();
        let mut memo = Memo::new(alloc);
        let mut census = Census::new(alloc);
        let w = self.join(joint, f, g, &mut memo, &mut census)?;
        self.refuse_wide(w)?;
        memo.write(trace)?;
        Ok(w)
    }
}

// How far down the order a variable stands.
fn depth_in(order: &[u64], var: u64) -> usize
    ensures { result ≡ depth_in order.now var }
{
    for (depth, x) in order.iter().enumerate() {
        if var == *x {
            return depth;
        }
    }
    order.len()
}

// Whether the literal of a variable that asks for this value is there.
fn asks(lits: &[Lit], var: u64, positive: bool) -> bool
    ensures { result ≡ asks lits.now var positive }
{
    lits.iter()
        .any(|lit| lit.var() == var && lit.is_positive() == positive)
}

// The constant "true" where a test holds, and else the node.
fn true_or(test: bool, node: Node) -> Node
    ensures { result ≡ (if test then 1 else node) }
{
    if test { Node::TRUE } else { node }
}
