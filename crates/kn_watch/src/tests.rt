//! Each call of a trail once, and a kind of the tests' own: one literal that has to be true.
ghost use Rattle.std.specs.Prelude.{◌≡◌, ◌<◌, ◌==◌, ℕ, Bool, true, length, IfOk, None};
ghost use Rattle.std.specs.Option.{is_some};
ghost use Rattle.kn_logic.specs.Constraints.{clause};
ghost use Rattle.kn_logic.specs.Propagation.{is_open};
ghost use Rattle.kn_watch.specs.Trails.{literals};
ghost use Rattle.kn_watch.specs.Watches.{listed, lit_at, HasWatches, IsStart, IsTurn};
ghost use Rattle.kn_watch.specs.Quiet.{quiet_law};

use super::*;
use kn_logic::Lit;
use std::test::Fail;

/// One literal that has to be true.
#[derive(Drop)]
struct Fact {
    lits: Vec<Lit>,
    ghost one: { length lits.items ≡ 1 },
}

impl Watched for Fact {
    ghost bounded = { λ w. clause w.lits.items };

    ghost watches = { λ w place. place == 0 };

    ghost quiet = { λ w. quiet_law (clause w.lits.items) (λ place. place == 0) };

    fn bound(&self) -> u64 {
        1
    }

    fn guarded(&self) -> bool {
        false
    }

    fn lits(&self) -> &[Lit] {
        &self.lits
    }

    fn watched(&self, place: usize) -> bool {
        place == 0
    }

    fn first_watches(&mut self, trail: &Trail) -> Visit {
        match trail.value(self.lits[0]) {
            Some(true) => Visit::Satisfied,
            Some(false) => Visit::Conflict,
            None => Visit::Forces,
        }
    }

    fn turned_false(&mut self, place: usize, trail: &Trail) -> Visit {
        let _ = place;
        let _ = trail;
        Visit::Conflict
    }
}

#[test]
fn a_trail_grows_and_goes_back(rt: HostRuntime) -> Result<(), Fail> {
    let mut trail = Trail::new(rt.alloc(), 4)?;
    assert_eq!(rt; trail.vars(), 4);
    trail.push(Lit::new(2, true), Some(7));
    trail.raise();
    trail.push(Lit::new(4, false), None);
    trail.push(Lit::new(1, true), Some(9));
    assert_eq!(rt; (trail.len(), trail.level()), (3, 1));
    assert_eq!(rt; trail.value(Lit::new(2, true)), Some(true));
    assert_eq!(rt; trail.value(Lit::new(4, true)), Some(false));
    assert_eq!(rt; trail.value(Lit::new(3, true)), None);
    assert_eq!(rt; trail.value(Lit::new(9, true)), None);
    assert_eq!(rt;
        (trail.level_of(2), trail.level_of(1), trail.level_of(3)),
        (Some(0), Some(1), None)
    );
    assert_eq!(rt;
        (trail.place_of(2), trail.place_of(1), trail.place_of(3)),
        (Some(0), Some(2), None)
    );
    assert_eq!(rt;
        (trail.reason_of(1), trail.reason_of(4), trail.reason_of(3)),
        (Some(9), None, None)
    );
    assert_eq!(rt; trail.at(1), Lit::new(4, false));
    trail.back_to(0);
    assert_eq!(rt; (trail.len(), trail.level()), (1, 0));
    assert_eq!(rt;
        (
            trail.value(Lit::new(2, false)),
            trail.value(Lit::new(1, true))
        ),
        (Some(false), None)
    );
    Ok(())
}

#[test]
fn a_literal_is_true_false_or_neither(rt: HostRuntime) -> Result<(), Fail> {
    let mut trail = Trail::new(rt.alloc(), 2)?;
    let unset = Lit::new(1, true);
    let sure = Lit::new(2, false);
    trail.push(sure, None);
    assert_eq!(rt; (trail.is_open(unset), trail.is_unset(unset)), (true, true));
    assert_eq!(rt; (trail.is_open(sure), trail.is_unset(sure)), (true, false));
    let shut = sure.negated();
    assert_eq!(rt; (trail.is_open(shut), trail.is_unset(shut)), (false, false));
    Ok(())
}

#[test]
fn a_fact_is_forced(rt: HostRuntime) -> Result<(), Fail> {
    let lits = vec![in rt.alloc(); Lit::new(1, true)]?;
    let mut fact = Fact { lits };
    let mut trail = Trail::new(rt.alloc(), 2)?;
    assert_eq!(rt;
        (look(&fact, &trail), forced(&fact, 0, &trail)),
        (Look::Forces, true)
    );
    assert_eq!(rt; fact.first_watches(&trail), Visit::Forces);
    trail.raise();
    trail.push(Lit::new(1, true), Some(1));
    assert_eq!(rt;
        (look(&fact, &trail), forced(&fact, 0, &trail)),
        (Look::Quiet, false)
    );
    trail.back_to(0);
    assert!(rt; !is_conflicting(&fact, &trail));
    trail.push(Lit::new(1, false), None);
    assert_eq!(rt;
        (look(&fact, &trail), is_conflicting(&fact, &trail)),
        (Look::Conflict, true)
    );
    assert_eq!(rt; fact.turned_false(0, &trail), Visit::Conflict);
    settled_is_quiet::<Fact>();
    Ok(())
}
