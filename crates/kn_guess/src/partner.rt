// The literals that one literal stands with in binary clauses, in order, each with the id of such a clause.
ghost use Rattle.std.specs.Prelude.{◌≡◌, [], OnOk};
ghost use Rattle.kn_logic.specs.Literals.{is_same};
ghost use Rattle.kn_guess.specs.Tables.{Paired};
ghost use Rattle.kn_guess.specs.Pairing.{ends, with_entry};

use kn_logic::{Lit, NoMemory};
use std::alloc::Global;
use std::marker::Model;

#[derive(Clone, Copy, Debug, PartialEq, Eq)]
pub(crate) struct Partner {
    lit: Lit,
    id: u64,
}

impl Model for Partner {
    ghost use Rattle.kn_guess.specs.Tables.{Paired};

    ghost Value = { Paired };

    ghost view = { λ p. record { lit = p.lit; id = p.id } };

    ghost inverse = { λ p. record { lit = p.lit; id = p.id } };
}

impl Partner {
    pub(crate) fn lit(self) -> Lit
        ensures { result ≡ self.lit }
    {
        self.lit
    }

    pub(crate) fn id(self) -> u64
        ensures { result ≡ self.id }
    {
        self.id
    }
}

#[derive(Debug, Drop)]
pub(crate) struct Partners {
    all: Vec<Partner>,
}

impl Model for Partners {
    ghost use Rattle.std.specs.Prelude.{List};
    ghost use Rattle.kn_guess.specs.Tables.{Paired};

    ghost Value = { List Paired };

    ghost view = { λ p. p.all.items };
}

impl Partners {
    pub(crate) fn new(alloc: Global) -> Partners
        ensures { result ≡ [] }
    {
        Partners {
            all: Vec::new(alloc),
        }
    }

    pub(crate) fn all(&self) -> &[Partner]
        ensures { result.now ≡ self.now }
    {
        &self.all
    }

    // The literal comes at the end, unless it is there.
    pub(crate) fn enter(&mut self, lit: Lit, id: u64) -> Result<(), NoMemory>
        ensures { OnOk result (self.new ≡ with_entry lit id self.old) }
    {
        if ends(&self.all, lit) {
            return Ok(());
        }
        self.all.push(Partner { lit, id })?;
        Ok(())
    }
}

fn ends(all: &[Partner], lit: Lit) -> bool
    ensures { result ≡ ends lit all.now }
{
    match all.last() {
        Some(last) => last.lit() == lit,
        None => false,
    }
}
