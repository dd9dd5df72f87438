//! The ends of runs: their kinds, and a list of outcomes without one twice.
ghost use Rattle.std.specs.Prelude.{◌≡◌, ◌⊎◌, ◌++◌, ◌∷◌, [], IfOk, OnOk, true, false};
ghost use Rattle.pool_semantics.specs.PlainOf.{configuration_of, program_tree, is_spent};
ghost use Rattle.reachability.specs.Outcomes.{written};
ghost use Rattle.pool_search.specs.OutcomeTargets.{IsOfKind};
ghost use Rattle.pool_search.specs.FoundOutcomes.{HasOne, outcome};

use crate::classifier::{is_faulty, is_stuck};
use crate::outcomes::{EndKind, Outcome};
use label_list::{LabelList, Part};
use pool_semantics::Plain;
use run_types::Item;
use std::alloc::{AllocError, Global};
use std::collections::HashMap;
use std::hash::{FoldHasher, Hasher};
use visited_set::{item_of, mark_item, same_item};

/// The outcomes that were found, each with the number of an entry where a run with this outcome ends. `latest` has the
/// index of the last one of each hash; no proof depends on it. An outcome can be in the list twice after a collision of
/// hashes.
#[derive(Drop)]
pub struct Ends {
    pub list: Vec<Outcome>,
    pub places: Vec<u32>,
    latest: HashMap<u64, u32>,
}

/// The kind of a configuration in which no label is possible.
pub fn kind_of(plain: &Plain<'_>) -> EndKind
    requires { is_spent plain.now ≡ false }
    ensures { IsOfKind result (program_tree plain.now) (configuration_of plain.now) }
{
    if is_faulty(plain) {
        return EndKind::Fault;
    }
    if is_stuck(plain, false) {
        return EndKind::Stuck;
    }
    if is_stuck(plain, true) {
        return EndKind::Left;
    }
    EndKind::Done
}

/// The items that these labels write. An error means out of memory.
pub fn written_by(alloc: Global, labels: &LabelList) -> Result<Vec<Item>, AllocError>
    ensures { IfOk result (λ v. v.items ≡ written labels.now) }
{
    let mut items = Vec::new(alloc);
    for part in labels.parts() {
        let Part::Other(label) = part else {
            continue;
        };
        if let Some(item) = item_of(label) {
            items.push(item)?;
        }
    }
    Ok(items)
}

fn same_items(left: &[Item], right: &[Item]) -> bool
    ensures { result ≡ true → left.now ≡ right.now }
{
    if left.len() != right.len() {
        return false;
    }
    for (i, item) in left.iter().enumerate() {
        if !same_item(*item, right[i]) {
            return false;
        }
    }
    true
}

fn same_kind(left: EndKind, right: EndKind) -> bool
    ensures { result ≡ true → left ≡ right }
{
    match left {
        EndKind::Fault => match right {
            EndKind::Fault => true,
            _ => false,
        },
        EndKind::Stuck => match right {
            EndKind::Stuck => true,
            _ => false,
        },
        EndKind::Left => match right {
            EndKind::Left => true,
            _ => false,
        },
        EndKind::Done => match right {
            EndKind::Done => true,
            _ => false,
        },
    }
}

/// The hash of an outcome, for look-ups. Equal ones have equal hashes. No proof depends on it.
fn mark(kind: EndKind, items: &[Item]) -> u64 {
    let mut mark = FoldHasher::default();
    mark.write_u8(match kind {
        EndKind::Fault => 0,
        EndKind::Stuck => 1,
        EndKind::Left => 2,
        EndKind::Done => 3,
    });
    for item in items {
        mark_item(*item, &mut mark);
    }
    mark.finish()
}

impl Ends {
    /// No outcomes.
    pub fn make(alloc: Global) -> Ends
        ensures { result.list.items ≡ [] }
    {
        Ends {
            list: Vec::new(alloc),
            places: Vec::new(alloc),
            latest: HashMap::new(alloc),
        }
    }

    /// Whether this outcome is the last one of its hash in the list.
    fn has(&self, mark: u64, kind: EndKind, items: &[Item]) -> bool
        ensures { result ≡ true → HasOne kind items.now self.now.list.items }
    {
        let Some(at) = self.latest.get(&mark) else {
            return false;
        };
        let Some(known) = self.list.as_slice().get(*at as usize) else {
            return false;
        };
        same_kind(known.kind, kind) && same_items(&known.items, items)
    }

    /// Adds an outcome with the number of its entry, unless it was found. An error means out of memory.
    pub fn note(&mut self, kind: EndKind, items: Vec<Item>, place: u32) -> Result<(), AllocError>
        ensures has { OnOk result (HasOne kind items.items self.new.list.items) }
        ensures added { OnOk result ((self.new.list.items ≡ self.old.list.items) ⊎ (self.new.list.items ≡ self.old.list.items ++ outcome kind items ∷ [])) }
    {
        let mark = mark(kind, &items);
        if self.has(mark, kind, &items) {
            return Ok(());
        }
        if let Ok(at) = u32::try_from(self.list.len()) {
            self.latest.insert(mark, at)?;
        }
        self.places.push(place)?;
        self.list.push(Outcome { kind, items })?;
        Ok(())
    }
}
