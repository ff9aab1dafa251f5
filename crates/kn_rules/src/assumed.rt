//! The literals of a run of hints, with marks by variable: a question costs one step, clearing as many as were added.
ghost use Rattle.std.specs.Prelude.{◌≡◌, ◌+◌, ◌-◌, ◌++◌, ◌∷◌, [], List, length, min, filter, slice_set, IfOk, OnOk, OnErr, MatchOption};
ghost use Rattle.kn_logic.specs.Literals.{Literal, IsKnown, AreKnown, has, names};
ghost use Rattle.kn_logic.specs.Propagation.{is_open, open_places};
ghost use Rattle.kn_rules.specs.Marks.{IsMarked, IsLastAlone, unmarked, is_marked, marked, is_unopposed};

use kn_logic::{Lit, NoMemory};
use std::alloc::{AllocError, Global};
use std::marker::Model;

/// Which of the two literals of a variable stand in a list.
#[derive(Clone, Copy, Debug)]
pub struct Mark {
    positive: bool,
    negative: bool,
}

/// Literals that are taken to be true, in the order in which they came. It tells in one step whether a
/// literal stands in it.
#[derive(Debug, Drop)]
pub struct Assumed {
    marks: Vec<Mark>,
    lits: Vec<Lit>,
}

impl Model for Assumed {
    ghost use Rattle.std.specs.Prelude.{length};
    ghost use Rattle.kn_rules.specs.Marks.{AssumedLiterals, IsMarked};

    ghost Value = { AssumedLiterals };

    ghost view = { λ t. record { vars = length t.marks.items; lits = t.lits.items } };

    ghost invariant = { λ t. IsMarked t.marks.items t.lits.items };
}

impl Assumed {
    /// No literal, over so many variables.
    pub fn new(alloc: Global, vars: u64) -> Result<Assumed, NoMemory>
        ensures { IfOk result (λ t. t ≡ record { vars = vars; lits = [] }) }
    {
        let mark = Mark {
            positive: false,
            negative: false,
        };
        Ok(Assumed {
            marks: vec![in alloc; mark; vars as usize]?,
            lits: Vec::new(alloc),
        })
    }

    /// Whether the literal stands in the list.
    pub fn has(&self, lit: Lit) -> bool
        requires { IsKnown self.now.vars lit }
        ensures { result ≡ has self.now.lits lit }
    {
        is_marked(&self.marks, lit)
    }

    /// Whether the literal's negation does not stand in the list.
    pub fn is_open(&self, lit: Lit) -> bool
        requires { IsKnown self.now.vars lit }
        ensures { result ≡ is_open self.now.lits lit }
    {
        is_unopposed(&self.marks, lit)
    }

    /// At how many places the literal's negation does not stand in the list.
    pub fn count_open(&self, lits: &[Lit]) -> u64
        requires { AreKnown self.now.vars lits.now }
        ensures { result ≡ open_places self.now.lits lits.now }
    {
        let mut count = 0;
        for lit in lits {
            if self.is_open(*lit) {
                count += 1;
            }
        }
        count
    }

    /// The same up to a number: one more than this is told where there are more, and the others are not looked
    /// at.
    pub fn count_open_to(&self, lits: &[Lit], most: u64) -> u64
        requires { AreKnown self.now.vars lits.now }
        ensures { result ≡ min (open_places self.now.lits lits.now) (most + 1) }
    {
        let mut count = 0;
        for lit in lits {
            if self.is_open(*lit) {
                count += 1;
                if count > most {
                    return count;
                }
            }
        }
        count
    }

    /// Whether a literal of this one's variable stands in the list.
    pub fn names(&self, lit: Lit) -> bool
        requires { IsKnown self.now.vars lit }
        ensures { result ≡ names self.now.lits lit.variable }
    {
        self.has(lit) | self.has(lit.negated())
    }

    /// The number of variables that it is over, which count from 1.
    pub fn vars(&self) -> u64
        ensures { result ≡ self.now.vars }
    {
        self.marks.len() as u64
    }

    /// Adds a literal at the end. Fails where memory is short, and the list is as before then.
    pub fn push(&mut self, lit: Lit) -> Result<(), NoMemory>
        requires { IsKnown self.old.vars lit }
        ensures ok { OnOk result (self.new ≡ record self.old { lits = self.old.lits ++ lit ∷ [] }) }
        ensures err { OnErr result (self.new ≡ self.old) }
    {
        self.lits.push(lit)?;
        mark_one(&mut self.marks, lit);
        Ok(())
    }

    /// Adds those of the literals at the end whose negation does not stand in the list as it is before.
    /// Fails where memory is short, and the list is as before then.
    pub fn push_open(&mut self, lits: &[Lit]) -> Result<(), NoMemory>
        requires { AreKnown self.old.vars lits.now }
        ensures ok { OnOk result (self.new ≡ record self.old { lits = self.old.lits ++ filter (is_open self.old.lits) lits.now }) }
        ensures err { OnErr result (self.new ≡ self.old) }
    {
        let before = self.lits.len();
        append_unopposed(&mut self.lits, &self.marks, lits)?;
        let (_, added) = self.lits.split_at(before);
        mark_all(&mut self.marks, added);
        Ok(())
    }

    /// Takes out the last literal, whose variable no other literal of the list has; `None` exactly where
    /// the list is empty.
    pub fn pop(&mut self) -> Option<Lit>
        requires { IsLastAlone self.old.lits }
        ensures vars { self.new.vars ≡ self.old.vars }
        ensures lits { MatchOption result ((self.old.lits ≡ []) × (self.new.lits ≡ [])) (λ l. self.old.lits ≡ self.new.lits ++ l ∷ []) }
    {
        let lit = self.lits.pop()?;
        unmark_one(&mut self.marks, lit);
        Some(lit)
    }

    /// Takes all literals out, in time that grows with their number alone.
    pub fn clear(&mut self)
        ensures { self.new ≡ record self.old { lits = [] } }
    {
        unmark_all(&mut self.marks, &self.lits);
        self.lits.clear();
    }

    /// One variable more, behind the others. Fails where memory is short, and nothing changes then.
    pub fn grow(&mut self) -> Result<(), NoMemory>
        ensures ok { OnOk result (self.new ≡ record self.old { vars = self.old.vars + 1 }) }
        ensures err { OnErr result (self.new ≡ self.old) }
    {
        self.marks.push(Mark {
            positive: false,
            negative: false,
        })?;
        Ok(())
    }
}

fn is_marked(marks: &[Mark], lit: Lit) -> bool
    requires { IsKnown (length marks.now) lit }
    ensures { result ≡ is_marked marks.now lit }
{
    let mark = marks[lit.var() as usize - 1];
    if lit.is_positive() {
        mark.positive
    } else {
        mark.negative
    }
}

fn is_unopposed(marks: &[Mark], lit: Lit) -> bool
    requires { IsKnown (length marks.now) lit }
    ensures { result ≡ is_unopposed marks.now lit }
{
    !is_marked(marks, lit.negated())
}

fn mark_one(marks: &mut [Mark], lit: Lit)
    requires { IsKnown (length marks.old) lit }
    ensures { marks.new ≡ marked marks.old lit }
{
    let place = lit.var() as usize - 1;
    let mark = marks[place];
    marks[place] = Mark {
        positive: mark.positive | lit.is_positive(),
        negative: mark.negative | !lit.is_positive(),
    };
}

fn unmark_one(marks: &mut [Mark], lit: Lit)
    requires { IsKnown (length marks.old) lit }
    ensures { marks.new ≡ slice_set marks.old (lit.variable - 1) unmarked }
{
    marks[lit.var() as usize - 1] = Mark {
        positive: false,
        negative: false,
    };
}

fn mark_all(marks: &mut [Mark], lits: &[Lit])
    requires { AreKnown (length marks.old) lits.now }
    ensures { (before : List Literal) → IsMarked marks.old before → IsMarked marks.new (before ++ lits.now) }
{
    for lit in lits {
        mark_one(marks, *lit);
    }
}

fn unmark_all(marks: &mut [Mark], lits: &[Lit])
    requires { IsMarked marks.old lits.now }
    ensures { IsMarked marks.new [] }
{
    for lit in lits {
        unmark_one(marks, *lit);
    }
}

/// Adds those of the literals whose negation is not marked. Where memory is short nothing is added.
fn append_unopposed(out: &mut Vec<Lit>, marks: &[Mark], lits: &[Lit]) -> Result<(), NoMemory>
    requires { AreKnown (length marks.now) lits.now }
    ensures ok { OnOk result (out.new.items ≡ out.old.items ++ filter (is_unopposed marks.now) lits.now) }
    ensures err { OnErr result (out.new.items ≡ out.old.items) }
{
    let before = out.len();
    for lit in lits {
        if is_unopposed(marks, *lit) {
            let pushed = out.push(*lit);
            if pushed.is_err() {
                out.truncate(before);
                return Err(AllocError);
            }
        }
    }
    Ok(())
}
