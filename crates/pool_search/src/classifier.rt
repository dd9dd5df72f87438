//! Decides whether a configuration is one that the query looks for.
ghost use Rattle.std.specs.Prelude.{◌≡◌, false, true};
ghost use Rattle.pool_semantics.specs.PlainOf.{configuration_of, program_tree, is_spent};
ghost use Rattle.pool_search.specs.SearchTargets.{IsStuckEnd, IsWantedEnd, IsShownFault};
ghost use Rattle.pool_search.specs.SearchAnswers.{IsPassedBy};
ghost use Rattle.reachability.specs.Search.{IsFaulty};

use crate::queries::{Query, Target};
use pool_semantics::Plain;

/// The kind of a configuration, for a query.
#[derive(Clone, Copy)]
pub enum Classification {
    Stuck,
    Fault,
    Neither,
}

/// Whether no label is possible and an object is in a call. `all` also counts each unfinished configuration.
pub fn is_stuck(plain: &Plain<'_>, all: bool) -> bool
    requires { is_spent plain.now ≡ false }
    ensures yes { result ≡ true → IsStuckEnd all (program_tree plain.now) (configuration_of plain.now) }
    ensures no { result ≡ false → ¬ (IsStuckEnd all (program_tree plain.now) (configuration_of plain.now)) }
{
    if plain.moving().is_some() {
        return false;
    }
    if all {
        return plain.left_over();
    }
    plain.waiting(0).is_some()
}

/// Whether an object met a run-time error.
pub fn is_faulty(plain: &Plain<'_>) -> bool
    ensures yes { result ≡ true → IsFaulty (configuration_of plain.now) }
    ensures no { result ≡ false → ¬ (IsFaulty (configuration_of plain.now)) }
{
    plain.met_error().is_some()
}

/// The kind of a configuration. It is `Stuck` or `Fault` only if the query looks for this; `Stuck` comes first.
pub fn judge(plain: &Plain<'_>, question: &Query) -> Classification
    requires { is_spent plain.now ≡ false }
    ensures stuck { result ≡ Classification.Stuck → IsWantedEnd (program_tree plain.now) question.now (configuration_of plain.now) }
    ensures fault { result ≡ Classification.Fault → IsShownFault (program_tree plain.now) question.now (configuration_of plain.now) }
    ensures neither { result ≡ Classification.Neither → IsPassedBy (program_tree plain.now) question.now (configuration_of plain.now) }
{
    let stuck = match question.wanted {
        Target::Stuck | Target::Both => is_stuck(plain, question.all),
        Target::Fault => false,
    };
    if stuck {
        return Classification::Stuck;
    }
    let fault = match question.wanted {
        Target::Fault | Target::Both => is_faulty(plain),
        Target::Stuck => false,
    };
    if fault {
        return Classification::Fault;
    }
    Classification::Neither
}
