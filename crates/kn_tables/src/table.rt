//! Tables in an array of their own, so that no call takes memory. No answer depends on bits past the last index.
ghost use Rattle.std.specs.Prelude.{◌≡◌, ◌≤◌, ◌<◌, ◌^◌, ◌&&◌, ◌||◌, ◌↔◌, count_by, nat_le, IfSome, IsNone};
ghost use Rattle.std.specs.List.{list_any};
ghost use Rattle.kn_tables.specs.Tables.{IsTable, AreBelow, is_true_at, value_at, some_value_at, IsFirstDifference};

use crate::TableLit;
use crate::join::{Joining, join};
use crate::quantify::{join_halves, join_partners};
use crate::words::{clause_word, count_word, equal_words, filled, first_unequal_bit, word_count};
use std::marker::Model;

/// A truth value for each index below 2^n, where n is the number of variables, at most 12.
#[derive(Debug, Drop)]
pub struct Table {
    vars: u8,
    words: [u64; 64],
}

impl Model for Table {
    ghost use Rattle.std.specs.Prelude.{◌≤◌};
    ghost use Rattle.kn_tables.specs.Tables.{Truth};
    ghost use Rattle.kn_tables.specs.Words.{table_in};

    ghost Value = { Truth };

    ghost view = { λ t. table_in t.vars t.words };

    ghost invariant = { λ t. t.vars ≤ 12 };
}

impl Table {
    /// The same value at each index, over `n` variables, at most 12.
    pub fn constant(n: u8, value: bool) -> Table
        requires { n ≤ 12 }
        ensures { IsTable n (λ _. value) result }
    {
        Table {
            vars: n,
            words: filled(value),
        }
    }

    /// "Some of these literals is true", over `n` variables, at most 12; the literals' variables are
    /// below `n`.
    pub fn of_clause(n: u8, lits: &[TableLit]) -> Table
        requires few { n ≤ 12 }
        requires below { AreBelow n lits.now }
        ensures { IsTable n (λ i. list_any (is_true_at i) lits.now) result }
    {
        let mut words = [0; 64];
        for place in 0..word_count(n) {
            words[place] = clause_word(lits, place);
        }
        Table { vars: n, words }
    }

    /// "At least `bound` places of these literals have a true one", over `n` variables, at most 12; the
    /// literals' variables are below `n`. A literal that stands twice counts twice.
    pub fn at_least(n: u8, lits: &[TableLit], bound: u64) -> Table
        requires few { n ≤ 12 }
        requires below { AreBelow n lits.now }
        ensures { IsTable n (λ i. nat_le bound (count_by (is_true_at i) lits.now)) result }
    {
        let mut words = [0; 64];
        for place in 0..word_count(n) {
            words[place] = count_word(lits, bound, place);
        }
        Table { vars: n, words }
    }

    /// Leaves "this and the other", which has as many variables.
    pub fn and(&mut self, other: &Table)
        requires { self.old.vars ≡ other.now.vars }
        ensures { IsTable self.old.vars (λ i. value_at self.old i && value_at other.now i) self.new }
    {
        let count = word_count(self.vars);
        join(&mut self.words, &other.words, count, Joining::And);
    }

    /// Leaves "this or the other", which has as many variables.
    pub fn or(&mut self, other: &Table)
        requires { self.old.vars ≡ other.now.vars }
        ensures { IsTable self.old.vars (λ i. value_at self.old i || value_at other.now i) self.new }
    {
        let count = word_count(self.vars);
        join(&mut self.words, &other.words, count, Joining::Or);
    }

    /// Leaves "for some value of `var`, this"; `var` counts from 0 and is below the number of variables.
    pub fn exists(&mut self, var: u8)
        requires { var < self.old.vars }
        ensures { IsTable self.old.vars (some_value_at var (value_at self.old)) self.new }
    {
        let count = word_count(self.vars);
        if var < 6 {
            join_halves(&mut self.words, count, var);
        } else {
            let before = self.words;
            join_partners(&mut self.words, &before, self.vars - 6, var - 6);
        }
    }

    /// The value at an index, which is below 2^n.
    pub fn at(&self, index: u16) -> bool
        requires { index < 2 ^ self.now.vars }
        ensures { result ≡ value_at self.now index }
    {
        (self.words[(index / 64) as usize] >> (index % 64)) & 1 == 1
    }

    /// The least index at which this and the other differ, which has as many variables; None exactly
    /// where they are equal.
    pub fn first_difference(&self, other: &Table) -> Option<u16>
        requires { self.now.vars ≡ other.now.vars }
        ensures some { IfSome result (λ i. IsFirstDifference self.now other.now i) }
        ensures none { IsNone result ↔ (self.now ≡ other.now) }
    {
        let count = word_count(self.vars);
        let place = equal_words(&self.words, &other.words, count);
        if place == count {
            return None;
        }
        let bit = first_unequal_bit(self.words[place], other.words[place]);
        let index = (64 * place + bit) as u16;
        if index < 1 << self.vars {
            Some(index)
        } else {
            None
        }
    }
}
