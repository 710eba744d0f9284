// Brings counts to the successors of a block.
ghost use Rattle.std.specs.Prelude.{◌≡◌, OnOk, length};
ghost use Rattle.control_flow.specs.Seen.{targets};
ghost use Rattle.context_walk.specs.Spread.{AllBelow, spread_counts, spread_worklist};

use std::alloc::AllocError;
use step_counts::Counts;
use tag_list::TagList;

/// Brings the counts to each successor, and notes those at which more stands now.
pub fn spread(
    counts: &mut Vec<Counts>,
    worklist: &mut Vec<u32>,
    comes: Counts,
    next: &TagList,
) -> Result<(), AllocError>
    requires { AllBelow (length counts.old.items) (targets next.now) }
    ensures counts { OnOk result (counts.new.items ≡ spread_counts comes (targets next.now) counts.old.items) }
    ensures worklist { OnOk result (worklist.new.items ≡ spread_worklist comes (targets next.now) counts.old.items worklist.old.items) }
{
    for (to, _) in next.iter() {
        if let Some(more) = counts[to as usize].grown(comes) {
            counts[to as usize] = more;
            worklist.push(to)?;
        }
    }
    Ok(())
}
