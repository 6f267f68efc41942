// Whether and where a fragment is kept (rule T6). What was looked up decides it, before anything changes.
ghost use Rattle.std.specs.Prelude.{◌≡◌};
ghost use Rattle.pushing.specs.Push.{has_share_lem, keep_way};
ghost use Rattle.pushing.specs.PrivateSteps.{kept_way, under_row_lem};

use crate::look::LookedUp;
use numbers::Refusal;
use table::{KEYS, MOST_KEYS, MOST_PLACES, PLACES, Totals};

// Rule T6: whether the sender holds its share, so that it gets no more.
fn has_share(found: LookedUp, held: Totals) -> bool
    ensures { result ≡ has_share_lem found held }
{
    MOST_PLACES <= held.places || (KEYS <= found.row && MOST_KEYS <= held.keys)
}

// Rule T6, step 3 of push: a fragment that is not marked last is kept, if its sender may hold more and there is room.
#[tactic(auto, unfolding(crate::specs::Push::keep_way))]
pub(crate) fn check_room(found: LookedUp, held: Totals) -> Result<(), Refusal>
    ensures { kept_way found result ≡ keep_way found held }
{
    if has_share(found, held) {
        return Err(Refusal::SenderFull);
    }
    if PLACES <= found.free || (KEYS <= found.row && KEYS <= found.spare) {
        return Err(Refusal::TableFull);
    }
    Ok(())
}

// Rule T6: the row under which a fragment is kept.
pub(crate) fn under_row(found: LookedUp) -> usize
    ensures { result ≡ under_row_lem found }
{
    if found.row < KEYS {
        found.row
    } else {
        found.spare
    }
}
