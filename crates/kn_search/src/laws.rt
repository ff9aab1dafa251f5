//! That a search ends: its learned clauses are all new, so there are fewer of them than a large budget allows.
ghost use Rattle.std.specs.Prelude.{ℕ, ◌≡◌, List, [], Option};
ghost use Rattle.kn_rules.specs.Searching.{learned_live};
ghost use Rattle.kn_log.specs.Logs.{Logged};
ghost use Rattle.kn_propagate.specs.Engines.{Engined};
ghost use Rattle.kn_search.specs.declared.outcome.Options.{Options};
ghost use Rattle.kn_search.specs.declared.outcome.Outcome.TheVariants.{Spent};
ghost use Rattle.kn_search.specs.Outcomes.{Ends, IsSmall};

/// A law over the definitions, and no code: a search with a log that has no learned clause spends no large budget.
pub fn large_budgets_are_not_spent()
    ensures { (engine : Engined) (options : Options) (old : Logged) (new : Logged) (w : Option (List ℕ)) (v : Option (List ℕ)) (learned : ℕ) →
        Ends engine options old new w v (Spent learned) → learned_live old.state.given ≡ [] → IsSmall options engine.trail.vars }
{}
