//! The visit of one item.
ghost use Rattle.std.specs.Prelude.{OnOk};
ghost use Rattle.glb_bound.specs.Best.{worth_of};
ghost use Rattle.glb_bound.specs.inner.Walks.{Visits, TakesBest};

use super::search::{Best, Search};
use glb_laws::NoMemory;

/// Raises the best by the item, and appends its children to those waiting, unless no item below it
/// can be better. As a call of its own it would copy each item through memory, and a search took a
/// third longer.
#[inline(always)]
pub(crate) fn visit<S: Search>(
    search: &S,
    item: S::Item,
    waiting: &mut Vec<S::Item>,
    best: &mut Best<S::Item>,
) -> Result<(), NoMemory>
where
    S::Item: Copy,
    ensures visited { OnOk result (Visits (S.children search.now)
        (worth_of (S.value search.now)) (S.cap_of search.now) item waiting.old.items
        waiting.new.items best.old.worth best.new.worth) }
    ensures item { OnOk result (TakesBest (worth_of (S.value search.now)) item
        best.old.item best.old.worth best.new.item best.new.worth) }
{
    let cap = search.cap(&item);
    if cap <= best.worth {
        return Ok(());
    }
    let before = waiting.len();
    let worth = search.expand(&item, waiting)?.0;
    if worth > best.worth {
        *best = Best { worth, item };
    }
    if cap <= best.worth {
        waiting.truncate(before);
    }
    Ok(())
}
