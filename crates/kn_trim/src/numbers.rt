//! The new numbers of variables, or of ids.
ghost use Rattle.std.specs.Prelude.{◌≡◌, ◌≤◌, ◌<◌, ◌^◌, ◌++◌, ◌∷◌, [], length, replicate, IfOk, OnOk, OnErr};
ghost use Rattle.kn_trim.specs.Numbers.{IsTable, new_number, numbers_from, rises};

use kn_logic::NoMemory;
use std::alloc::Global;
use std::marker::Model;

/// Which numbers are kept, from 1 on, and the new number of each: how many are kept up to it.
#[derive(Debug, Drop)]
pub struct Numbers {
    /// Those of 0, 1 and so on.
    table: Vec<u64>,
}

impl Model for Numbers {
    ghost use Rattle.std.specs.Prelude.{Bool, List};
    ghost use Rattle.kn_trim.specs.Numbers.{IsTable, rises};

    ghost Value = { List Bool };

    ghost view = { λ n. rises n.table.items };

    ghost invariant = { λ n. IsTable n.table.items };
}

impl Numbers {
    /// No number yet.
    pub fn none(alloc: Global) -> Result<Numbers, NoMemory>
        ensures { IfOk result (λ n. n ≡ []) }
    {
        Ok(Numbers {
            table: vec![in alloc; 0]?,
        })
    }

    /// One number more, which is kept or not. Fails where memory is short, and nothing changes then.
    pub fn push(&mut self, kept: bool) -> Result<(), NoMemory>
        ensures ok { OnOk result (self.new ≡ self.old ++ kept ∷ []) }
        ensures err { OnErr result (self.new ≡ self.old) }
    {
        let next = next_in(&self.table, kept);
        self.table.push(next)?;
        Ok(())
    }

    /// The new number of one that is not above them all.
    pub fn of(&self, number: u64) -> u64
        requires { number ≤ length self.now }
        ensures { result ≡ new_number self.now number }
    {
        number_in(&self.table, number)
    }
}

/// So many numbers more, all kept or none.
pub fn push_all(numbers: &mut Numbers, count: u64, kept: bool) -> Result<(), NoMemory>
    ensures { OnOk result (numbers.new ≡ numbers.old ++ replicate count kept) }
{
    for _ in 0..count {
        numbers.push(kept)?;
    }
    Ok(())
}

#[tactic(auto, using(crate::proofs::NumberLemmas::table_length))]
fn number_in(table: &[u64], number: u64) -> u64
    requires table { IsTable table.now }
    requires within { number ≤ length (rises table.now) }
    ensures { result ≡ new_number (rises table.now) number }
{
    table[number as usize]
}

/// The new number behind all others of the table.
#[tactic(auto, using(crate::proofs::NumberLemmas::table_length))]
fn next_in(table: &[u64], kept: bool) -> u64
    requires table { IsTable table.now }
    requires room { length table.now < 2 ^ 64 }
    ensures { table.now ++ result ∷ [] ≡ numbers_from 0 (rises table.now ++ kept ∷ []) }
{
    let last = table[table.len() - 1];
    if kept { last + 1 } else { last }
}
