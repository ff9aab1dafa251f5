// A flag for each variable, that of variable 1 first.
ghost use Rattle.std.specs.Prelude.{ℕ, ◌≡◌, ◌≤◌, ◌-◌, [], not, true, false, map, replicate, IfOk, OnOk, slice_index_or, slice_set};
ghost use Rattle.std.specs.List.{AllByRecursion};
ghost use Rattle.kn_guess.specs.Flags.{lowered};

use kn_logic::{Lit, NoMemory};
use std::alloc::Global;
use std::marker::Model;

#[derive(Debug, Drop)]
pub(crate) struct Flags {
    all: Vec<bool>,
}

impl Model for Flags {
    ghost use Rattle.std.specs.Prelude.{Bool, List};

    ghost Value = { List Bool };

    ghost view = { λ f. f.all.items };
}

impl Flags {
    pub(crate) fn new(all: Vec<bool>) -> Flags
        ensures { result ≡ all.items }
    {
        Flags { all }
    }

    pub(crate) fn down(alloc: Global, vars: u64) -> Result<Flags, NoMemory>
        ensures { IfOk result (λ f. f ≡ replicate vars false) }
    {
        let mut all = Vec::new(alloc);
        for _ in 0..vars {
            all.push(false)?;
        }
        Ok(Flags { all })
    }

    // Each flag the other way.
    pub(crate) fn turned(&self, alloc: Global) -> Result<Flags, NoMemory>
        ensures { IfOk result (λ f. f ≡ map not self.now) }
    {
        let mut all = Vec::with_capacity(alloc, self.all.len())?;
        for flag in &self.all {
            all.push(!*flag)?;
        }
        Ok(Flags { all })
    }

    pub(crate) fn all(&self) -> &[bool]
        ensures { result.now ≡ self.now }
    {
        &self.all
    }

    pub(crate) fn is_up(&self, var: u64) -> bool
        requires { 1 ≤ var }
        ensures { result ≡ slice_index_or self.now (var - 1) false }
    {
        self.all.get(var as usize - 1).copied().unwrap_or(false)
    }

    pub(crate) fn raise(&mut self, var: u64)
        requires { 1 ≤ var }
        ensures { self.new ≡ slice_set self.old (var - 1) true }
    {
        if let Some(flag) = self.all.get_mut(var as usize - 1) {
            *flag = true;
        }
    }

    pub(crate) fn lower(&mut self, var: u64)
        requires { 1 ≤ var }
        ensures { self.new ≡ slice_set self.old (var - 1) false }
    {
        if let Some(flag) = self.all.get_mut(var as usize - 1) {
            *flag = false;
        }
    }

    // No variable has a flag any more.
    pub(crate) fn clear(&mut self)
        ensures { self.new ≡ [] }
    {
        self.all.clear();
    }

    pub(crate) fn lower_all(&mut self, vars: &[u64])
        requires { AllByRecursion (λ v. 1 ≤ v) vars.now }
        ensures { self.new ≡ lowered self.old vars.now }
    {
        for var in vars {
            self.lower(*var);
        }
    }

    pub(crate) fn lower_lits(&mut self, lits: &[Lit])
        ensures { self.new ≡ lowered self.old (map (λ l. l.variable) lits.now) }
    {
        for lit in lits {
            self.lower(lit.var());
        }
    }
}
