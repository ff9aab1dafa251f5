//! The words behind the problem line, one after another. A constraint may go over several lines, or share one with
//! others, so what is begun is kept from word to word.
ghost use Rattle.std.specs.Prelude.{◌≡◌, ◌≤◌, [], ◌∷◌, true, false, OnOk, IfOk, not, if◌then◌else◌, Ok, Err};
ghost use Rattle.kn_logic.specs.Literals.{IsKnown, names};
ghost use Rattle.kn_logic.specs.Constraints.{clause, guarded_klause, named};
ghost use Rattle.kn_text.specs.Lines.{words_of};
ghost use Rattle.kn_text.specs.Numbers.{literal_of, number_of};
ghost use Rattle.kn_format.specs.Faults.{nothing, begin, with_bound, first_literal, empty_clause, start, is_full, is_between, is_done, is_above, marks, complete, with_literal, between, guard, bound, end, within_clause, within_klause, after, after_words, at_end, repeated_variable};
ghost use Rattle.kn_format.specs.Reading.{Took, Gives, is_marked};
ghost use Rattle.kn_format.specs.declared.place.Place.TheVariants.{Between, Guard, Bound, Clause, Klause};
ghost use Rattle.kn_format.specs.declared.error.ReadError.TheVariants.{Refused};

use crate::cause;
use crate::error::{ReadError, Refusal};
use crate::format::Format;
use crate::header::Header;
use crate::place::Place;
use kn_logic::{Constraint, Formula, Lit, NoMemory};
use kn_text::{first_word, is_end, literal, number};
use std::alloc::Global;
use std::collections::BTreeSet;
use std::marker::Model;
use std::mem;

// The constraints that are complete, and what is read of the one that is begun.
#[derive(Drop)]
pub struct Reader {
    format: Format,
    count: u64,
    formula: Formula,
    place: Place,
    guard: Option<Lit>,
    bound: u64,
    lits: Vec<Lit>,
    // the variables that the klause that is begun names
    seen: BTreeSet<u64>,
}

impl Model for Reader {
    ghost use Rattle.std.specs.Ordering.{nat_cmp};
    ghost use Rattle.std.specs.BTreeSet.{contains};
    ghost use Rattle.kn_format.specs.Faults.{Reading};
    ghost use Rattle.kn_format.specs.Reading.{Keeps};

    ghost Value = { Reading };

    ghost view = { λ r. record { format = r.format; count = r.count; formula = r.formula; place = r.place; begun = record { guard = r.guard; bound = r.bound; lits = r.lits.items } } };

    ghost invariant = { λ r. Keeps r.formula.vars r.place (record { guard = r.guard; bound = r.bound; lits = r.lits.items }) (λ v. contains nat_cmp r.seen v) };
}

pub fn refused(line: u64, why: u8) -> ReadError
    ensures { result ≡ Refused (record { line = line; why = why }) }
{
    ReadError::Refused(Refusal { line, why })
}

impl Reader {
    pub fn new(alloc: Global, header: Header) -> Reader
        ensures { result ≡ start header }
    {
        Reader {
            format: header.format,
            count: header.count,
            formula: Formula::new(alloc, header.vars),
            place: Place::Between,
            guard: None,
            bound: 0,
            lits: Vec::new(alloc),
            seen: BTreeSet::new(alloc),
        }
    }

    fn is_full(&self) -> bool
        ensures { result ≡ is_full self.now }
    {
        self.formula.len() as u64 == self.count
    }

    // Whether all constraints are complete and none is begun.
    pub fn is_done(&self) -> bool
        ensures { result ≡ is_done self.now }
    {
        self.place == Place::Between && self.is_full()
    }

    fn is_above(&self, lit: Lit) -> bool
        ensures value { result ≡ is_above self.now lit }
        ensures within { result ≡ false → IsKnown self.now.formula.vars lit }
    {
        lit.var() > self.formula.vars()
    }

    fn marks(&self, word: &[u8], mark: &[u8]) -> bool
        ensures { result ≡ marks self.now.format word.now mark.now }
    {
        match self.format {
            Format::Cnf => false,
            Format::Knf => word == mark,
        }
    }

    // A clause begins.
    fn begin(&mut self)
        ensures { self.new ≡ record self.old { place = Clause; begun = clause [] } }
    {
        let alloc = *self.lits.allocator();
        self.place = Place::Clause;
        self.guard = None;
        self.bound = 1;
        self.lits = Vec::new(alloc);
    }

    // A klause begins, of which nothing is known.
    fn begin_marked(&mut self, place: Place)
        requires { is_marked place ≡ true }
        ensures { self.new ≡ record self.old { place = place; begun = nothing } }
    {
        let alloc = *self.lits.allocator();
        self.place = place;
        self.guard = None;
        self.bound = 0;
        self.lits = Vec::new(alloc);
        self.seen = BTreeSet::new(alloc);
    }

    fn complete(&mut self) -> Result<(), NoMemory>
        requires { is_between self.old.place ≡ false }
        ensures { OnOk result (self.new ≡ complete self.old self.old.begun) }
    {
        let alloc = *self.lits.allocator();
        let lits = mem::replace(&mut self.lits, Vec::new(alloc));
        let c = constraint(self.guard, self.bound, lits);
        self.place = Place::Between;
        self.guard = None;
        self.bound = 0;
        self.formula.push(c)
    }

    fn add(&mut self, lit: Lit) -> Result<(), NoMemory>
        requires place { self.old.place ≡ Clause }
        requires known { IsKnown self.old.formula.vars lit }
        ensures { OnOk result (self.new ≡ record self.old { begun = with_literal self.old.begun lit }) }
    {
        self.lits.push(lit)?;
        Ok(())
    }

    // Adds a literal unless the klause names its variable; whether it did.
    fn add_different(&mut self, lit: Lit) -> Result<bool, NoMemory>
        requires place { self.old.place ≡ Klause }
        requires known { IsKnown self.old.formula.vars lit }
        ensures different { IfOk result (λ added. added ≡ not (names (named self.old.begun) lit.variable)) }
        ensures added { IfOk result (λ added. self.new ≡ (if added then record self.old { begun = with_literal self.old.begun lit } else self.old)) }
    {
        self.lits.reserve(1)?;
        if !self.seen.insert(lit.var())? {
            return Ok(false);
        }
        self.lits.push(lit)?;
        Ok(true)
    }

    fn set_guard(&mut self, lit: Lit) -> Result<(), NoMemory>
        requires { IsKnown self.old.formula.vars lit }
        ensures { OnOk result (self.new ≡ record self.old { place = Bound; begun = guarded_klause lit 0 [] }) }
    {
        let alloc = *self.lits.allocator();
        let mut seen = BTreeSet::new(alloc);
        seen.insert(lit.var())?;
        self.place = Place::Bound;
        self.guard = Some(lit);
        self.bound = 0;
        self.lits = Vec::new(alloc);
        self.seen = seen;
        Ok(())
    }

    fn set_bound(&mut self, bound: u64)
        requires { self.old.place ≡ Bound }
        ensures { self.new ≡ record self.old { place = Klause; begun = with_bound self.old.begun bound } }
    {
        self.bound = bound;
        self.place = Place::Klause;
    }

    fn begin_klause(&mut self, line: u64, place: Place) -> Result<(), ReadError>
        requires { is_marked place ≡ true }
        ensures { Took line (begin self.old place nothing) result self.new }
    {
        if self.is_full() {
            return Err(refused(line, cause::EXTRA_CONSTRAINT));
        }
        self.begin_marked(place);
        Ok(())
    }

    fn begin_clause(&mut self, line: u64, lit: Lit) -> Result<(), ReadError>
        ensures { Took line (first_literal self.old lit) result self.new }
    {
        if self.is_above(lit) {
            return Err(refused(line, cause::VARIABLE_ABOVE_HEADER));
        }
        if self.is_full() {
            return Err(refused(line, cause::EXTRA_CONSTRAINT));
        }
        self.begin();
        self.add(lit)?;
        Ok(())
    }

    fn empty_clause(&mut self, line: u64) -> Result<(), ReadError>
        ensures { Took line (empty_clause self.old) result self.new }
    {
        if self.is_full() {
            return Err(refused(line, cause::EXTRA_CONSTRAINT));
        }
        self.begin();
        self.complete()?;
        Ok(())
    }

    fn between(&mut self, line: u64, word: &[u8]) -> Result<(), ReadError>
        ensures { Took line (between self.old word.now) result self.new }
    {
        if self.marks(word, b"k") {
            return self.begin_klause(line, Place::Bound);
        }
        if self.marks(word, b"q") {
            return self.begin_klause(line, Place::Guard);
        }
        match literal(word) {
            Some(lit) => self.begin_clause(line, lit),
            None if is_end(word) => self.empty_clause(line),
            None => Err(refused(line, cause::BAD_TOKEN)),
        }
    }

    fn guard(&mut self, line: u64, word: &[u8]) -> Result<(), ReadError>
        ensures { Took line (guard self.old (literal_of word.now)) result self.new }
    {
        let Some(lit) = literal(word) else {
            return Err(refused(line, cause::BAD_TOKEN));
        };
        if self.is_above(lit) {
            return Err(refused(line, cause::VARIABLE_ABOVE_HEADER));
        }
        self.set_guard(lit)?;
        Ok(())
    }

    fn bound(&mut self, line: u64, word: &[u8]) -> Result<(), ReadError>
        requires { self.old.place ≡ Bound }
        ensures { Took line (bound self.old (number_of word.now)) result self.new }
    {
        let Some(bound) = number(word) else {
            return Err(refused(line, cause::BAD_TOKEN));
        };
        if bound > 1_000_000 {
            return Err(refused(line, cause::BOUND_TOO_LARGE));
        }
        self.set_bound(bound);
        Ok(())
    }

    fn end(&mut self, line: u64, word: &[u8]) -> Result<(), ReadError>
        requires { is_between self.old.place ≡ false }
        ensures { Took line (end self.old word.now) result self.new }
    {
        if !is_end(word) {
            return Err(refused(line, cause::BAD_TOKEN));
        }
        self.complete()?;
        Ok(())
    }

    fn clause(&mut self, line: u64, word: &[u8]) -> Result<(), ReadError>
        requires { self.old.place ≡ Clause }
        ensures { Took line (within_clause self.old word.now (literal_of word.now)) result self.new }
    {
        let Some(lit) = literal(word) else {
            return self.end(line, word);
        };
        if self.is_above(lit) {
            return Err(refused(line, cause::VARIABLE_ABOVE_HEADER));
        }
        self.add(lit)?;
        Ok(())
    }

    fn klause(&mut self, line: u64, word: &[u8]) -> Result<(), ReadError>
        requires { self.old.place ≡ Klause }
        ensures { Took line (within_klause self.old word.now (literal_of word.now)) result self.new }
    {
        let Some(lit) = literal(word) else {
            return self.end(line, word);
        };
        if self.is_above(lit) {
            return Err(refused(line, cause::VARIABLE_ABOVE_HEADER));
        }
        if !self.add_different(lit)? {
            return Err(refused(line, cause::REPEATED_VARIABLE));
        }
        Ok(())
    }

    // Reads on over a word of this line.
    fn word(&mut self, line: u64, word: &[u8]) -> Result<(), ReadError>
        ensures { Took line (after self.old word.now) result self.new }
    {
        match self.place {
            Place::Between => self.between(line, word),
            Place::Guard => self.guard(line, word),
            Place::Bound => self.bound(line, word),
            Place::Clause => self.clause(line, word),
            Place::Klause => self.klause(line, word),
        }
    }

    // Reads on over the words of this line.
    pub fn words(&mut self, line: u64, text: &[u8]) -> Result<(), ReadError>
        ensures { Took line (after_words self.old (words_of text.now)) result self.new }
    {
        let mut rest = text;
        while let Some((word, behind)) = first_word(rest) {
            self.word(line, word)?;
            rest = behind;
        }
        Ok(())
    }

    // The formula that was read, where the text ends and has this many lines.
    pub fn at_end(self, lines: u64) -> Result<Formula, ReadError>
        ensures { Gives (at_end lines self) result }
    {
        if self.place != Place::Between {
            return Err(refused(lines, cause::UNENDED));
        }
        if !self.is_full() {
            return Err(refused(lines, cause::MISSING_CONSTRAINT));
        }
        Ok(self.formula)
    }

    // The formula of the constraints that are complete.
    pub fn formula(self) -> Formula
        ensures { result ≡ self.formula }
    {
        self.formula
    }
}

fn constraint(guard: Option<Lit>, bound: u64, lits: Vec<Lit>) -> Constraint
    ensures { result ≡ record { guard = guard; bound = bound; lits = lits.items } }
{
    match guard {
        Some(guard) => Constraint::guarded(guard, bound, lits),
        None => Constraint::new(bound, lits),
    }
}
