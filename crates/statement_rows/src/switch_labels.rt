// The labels of switches that were read so far: by a switch and a number it is kept where the earliest `case` stands, and by a switch
// where the earliest `default` does.
ghost use Rattle.std.specs.Prelude.{◌≡◌, ℕ, ℤ, None, OnErr, OnOk, Some, if◌then◌else◌};
ghost use Rattle.indexmap.specs.IndexMap.{get};
ghost use Rattle.meaning_statements.specs.StatementRows.{lower_token};
ghost use Rattle.statement_rows.specs.Labels.{same_numbered, same_switch};

use indexmap::IndexMap;
use std::alloc::{AllocError, Global};

fn lower_token(token: u32, found: Option<u32>) -> u32
    ensures { result ≡ lower_token token found }
{
    match found {
        None => token,
        Some(other) => { if other < token { other } else { token } }
    }
}

fn number_kept(kept: &IndexMap<(u32, i128), u32>, key: (u32, i128)) -> Option<u32>
    ensures { result ≡ get same_numbered kept.now key }
{
    kept.get(&key).copied()
}

// Keeps the earlier token of a number in its switch.
fn keep_number(
    kept: &mut IndexMap<(u32, i128), u32>,
    key: (u32, i128),
    token: u32,
) -> Result<(), AllocError>
    ensures kept { OnOk result ((other : ℕ × ℤ) → get same_numbered kept.new other ≡ (if same_numbered key other then Some (lower_token token (get same_numbered kept.old key)) else get same_numbered kept.old other)) }
    ensures err { OnErr result (kept.new.entries ≡ kept.old.entries) }
{
    let earliest = lower_token(token, kept.get(&key).copied());
    kept.insert(key, earliest)?;
    Ok(())
}

// And of a switch.
fn keep_default(kept: &mut IndexMap<u32, u32>, switch: u32, token: u32) -> Result<(), AllocError>
    ensures kept { OnOk result ((other : ℕ) → get same_switch kept.new other ≡ (if same_switch switch other then Some (lower_token token (get same_switch kept.old switch)) else get same_switch kept.old other)) }
    ensures err { OnErr result (kept.new.entries ≡ kept.old.entries) }
{
    let earliest = lower_token(token, kept.get(&switch).copied());
    kept.insert(switch, earliest)?;
    Ok(())
}

/// The labels of the switches of a unit that were read so far.
#[derive(Drop)]
pub struct SwitchLabels {
    // The hasher has a fixed seed, so numbers that were chosen to collide cost time, and nothing else.
    numbers: IndexMap<(u32, i128), u32>,
    defaults: IndexMap<u32, u32>,
}

impl SwitchLabels {
    ghost use Rattle.std.specs.Prelude.{◌∷◌, [], List};
    ghost use Rattle.meaning_statements.specs.StatementRows.{SwitchLabel, earliest_alike};
    ghost use Rattle.statement_rows.specs.Labels.{StandsForLabels, case_label, default_label};

    /// None, in no memory.
    pub fn new(alloc: Global) -> SwitchLabels
        ensures { StandsForLabels result [] }
    {
        SwitchLabels {
            numbers: IndexMap::new(alloc),
            defaults: IndexMap::new(alloc),
        }
    }

    /// The token of the earliest label with this number in this switch. It takes a few steps, and no memory.
    pub fn earliest_case(&self, switch: u32, number: i128) -> Option<u32>
        ensures { (labels : List SwitchLabel) → StandsForLabels self.now labels → result ≡ earliest_alike switch (Some number) labels }
    {
        number_kept(&self.numbers, (switch, number))
    }

    /// The token of the earliest `default` in this switch. It takes a few steps, and no memory.
    pub fn earliest_default(&self, switch: u32) -> Option<u32>
        ensures { (labels : List SwitchLabel) → StandsForLabels self.now labels → result ≡ earliest_alike switch None labels }
    {
        self.defaults.get(&switch).copied()
    }

    /// Takes in a `case` of this switch with this number, whose label stands at this token.
    pub fn add_case(&mut self, switch: u32, number: i128, token: u32) -> Result<(), AllocError>
        ensures joins { OnOk result ((labels : List SwitchLabel) → StandsForLabels self.old labels → StandsForLabels self.new (case_label switch number token ∷ labels)) }
        ensures err { OnErr result ((labels : List SwitchLabel) → StandsForLabels self.old labels → StandsForLabels self.new labels) }
    {
        keep_number(&mut self.numbers, (switch, number), token)?;
        Ok(())
    }

    /// Takes in a `default` of this switch at this token.
    pub fn add_default(&mut self, switch: u32, token: u32) -> Result<(), AllocError>
        ensures joins { OnOk result ((labels : List SwitchLabel) → StandsForLabels self.old labels → StandsForLabels self.new (default_label switch token ∷ labels)) }
        ensures err { OnErr result ((labels : List SwitchLabel) → StandsForLabels self.old labels → StandsForLabels self.new labels) }
    {
        keep_default(&mut self.defaults, switch, token)?;
        Ok(())
    }
}
