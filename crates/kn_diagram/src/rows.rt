//! The table that makes nodes unique: a row that is asked for again has the place it had (Bryant's reduced diagrams).
ghost use Rattle.std.specs.Prelude.{ℕ, ◌≡◌, ◌+◌, ◌^◌, ◌<◌, ◌≤◌, [], length, OnErr, IfOk};
ghost use Rattle.kn_diagram.specs.Diagrams.{row_in, row_of_key, HasPlace};

use indexmap::IndexMap;
use kn_logic::NoMemory;
use std::alloc::Global;
use std::marker::Model;

/// The rows of a table of nodes, each there once.
#[derive(Drop)]
pub(crate) struct Rows {
    places: IndexMap<(usize, usize, usize), ()>,
}

impl Model for Rows {
    ghost use Rattle.std.specs.Prelude.{List, map, reverse};
    ghost use Rattle.kn_diagram.specs.Diagrams.{Row, row_of_key};

    ghost Value = { List Row };

    ghost view = { λ r. reverse (map (λ e. row_of_key e.0) r.places.entries) };
}

impl Rows {
    pub(crate) fn new(alloc: Global) -> Rows
        ensures { result ≡ [] }
    {
        Rows {
            places: IndexMap::new(alloc),
        }
    }

    /// The number of rows.
    pub(crate) fn len(&self) -> usize
        ensures len { result ≡ length self.now }
        ensures small { result < 2 ^ 63 }
    {
        self.places.len()
    }

    /// The place of a row, the oldest having 0. A row that is not there joins the others.
    pub(crate) fn place_of(
        &mut self,
        depth: usize,
        high: usize,
        low: usize,
    ) -> Result<usize, NoMemory>
        ensures ok { IfOk result (λ place. HasPlace (record { depth = depth; high = high; low = low }) self.old self.new place) }
        ensures err { OnErr result (self.new ≡ self.old) }
    {
        let (place, _) = self.places.insert_full((depth, high, low), ())?;
        Ok(place)
    }

    /// The depth, the high and the low node of the row of a node that is no constant.
    pub(crate) fn row(&self, node: usize) -> (usize, usize, usize)
        requires first { 2 ≤ node }
        requires last { node < length self.now + 2 }
        ensures { (bottom : ℕ) → row_in bottom self.now node ≡ row_of_key result }
    {
        let Some((row, _)) = self.places.get_index(node - 2) else {
            unreachable!()
        };
        *row
    }
}
