// The labels of functions that were read so far, by what they belong to and by their names: the earliest of each is kept.
ghost use Rattle.std.specs.Prelude.{◌≡◌, ℕ, OnErr, OnOk, Some, if◌then◌else◌};
ghost use Rattle.sparse_model.specs.declared.ids.NameId.{NameId};
ghost use Rattle.indexmap.specs.IndexMap.{get};
ghost use Rattle.statement_rows.specs.Labels.{earlier_label, same_named};

use indexmap::IndexMap;
use sparse_model::NameId;
use std::alloc::{AllocError, Global};

/// A label as it is kept.
#[derive(Clone, Copy)]
pub struct FunctionLabel {
    /// Its node.
    pub handle: u32,
    pub token: u32,
    /// The innermost statement expression around it, by its handle.
    pub inside: Option<u32>,
}

fn earlier(label: FunctionLabel, found: Option<FunctionLabel>) -> FunctionLabel
    ensures { result ≡ earlier_label label found }
{
    match found {
        None => label,
        Some(other) => {
            if other.token < label.token {
                other
            } else {
                label
            }
        }
    }
}

// Keeps the earlier label of a name in its function.
fn keep_label(
    kept: &mut IndexMap<(u32, NameId), FunctionLabel>,
    key: (u32, NameId),
    label: FunctionLabel,
) -> Result<(), AllocError>
    ensures kept { OnOk result ((other : ℕ × NameId) → get same_named kept.new other ≡ (if same_named key other then Some (earlier_label label (get same_named kept.old key)) else get same_named kept.old other)) }
    ensures err { OnErr result (kept.new.entries ≡ kept.old.entries) }
{
    let first = earlier(label, kept.get(&key).copied());
    kept.insert(key, first)?;
    Ok(())
}

/// The labels of the functions of a unit that were read so far. What they belong to is known by its handle.
#[derive(Drop)]
pub struct FunctionLabels {
    // The hasher has a fixed seed, so names that were chosen to collide cost time, and nothing else.
    labels: IndexMap<(u32, NameId), FunctionLabel>,
}

impl FunctionLabels {
    ghost use Rattle.std.specs.Prelude.{◌∷◌, [], List, option_map};
    ghost use Rattle.meaning_statements.specs.Jumps.{SeenLabel, first_named};
    ghost use Rattle.node_facts.specs.Facts.{name_seen};
    ghost use Rattle.statement_rows.specs.Labels.{StandsForNamed, label_kept, label_seen};

    /// None, in no memory.
    pub fn new(alloc: Global) -> FunctionLabels
        ensures { StandsForNamed result [] }
    {
        FunctionLabels {
            labels: IndexMap::new(alloc),
        }
    }

    /// The first label of this name in this function. It takes a few steps, and no memory.
    pub fn first(&self, owner: u32, name: NameId) -> Option<FunctionLabel>
        ensures { (labels : List SeenLabel) → StandsForNamed self.now labels → result ≡ option_map label_kept (first_named owner (name_seen name) labels) }
    {
        self.labels.get(&(owner, name)).copied()
    }

    /// Takes in a label of this name in this function.
    pub fn add(&mut self, owner: u32, name: NameId, label: FunctionLabel) -> Result<(), AllocError>
        ensures joins { OnOk result ((labels : List SeenLabel) → StandsForNamed self.old labels → StandsForNamed self.new (label_seen owner name label ∷ labels)) }
        ensures err { OnErr result ((labels : List SeenLabel) → StandsForNamed self.old labels → StandsForNamed self.new labels) }
    {
        keep_label(&mut self.labels, (owner, name), label)?;
        Ok(())
    }
}
