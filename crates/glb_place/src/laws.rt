//! Laws over a list of records of any length: their counters summed, their lists of items joined.
//! Each function does nothing: its contract is the law.
ghost use Rattle.std.specs.Prelude.{◌≡◌, ◌≢◌, ℕ, ◌+◌, ◌^◌, ◌<◌, ◌≤◌, List, [], ◌∷◌, ◌++◌, length, get_or, set, remove, fold, map, All, Bool, IsPermutation};
ghost use Rattle.std.specs.List.{flat_map, sum_by};
ghost use Rattle.glb_laws.specs.Tree.{IsSmall};
ghost use Rattle.glb_laws.specs.Expansion.{combined};
ghost use Rattle.glb_tree.specs.Runs.{IsOutcome};
ghost use Rattle.glb_stats.specs.Balances.{IsBalanced};
ghost use Rattle.glb_cube.specs.Lines.{Cube};
ghost use Rattle.glb_rules.specs.World.{World};
ghost use Rattle.glb_core.specs.Lifelines.{setup_of};
ghost use Rattle.glb_rules.specs.Setups.{tries_of};
ghost use Rattle.glb_rules.specs.Lawful.{IsLawfulFrom, sum_of_places};
ghost use Rattle.glb_core.specs.Counters.{all_awake, all_degrees};
ghost use Rattle.glb_rules.specs.declared.params.Params.{Params};
ghost use Rattle.glb_place.specs.Close.{AreRecordsOf, Closes, HasLeft, counters_in, done_of};
ghost use Rattle.glb_place.specs.declared.record.Record.{Record};

use glb_laws::{Monoid, Program};

/// Where one record is replaced, a sum changes by what it counted.
pub fn sums_where_one_is_replaced<P: Program>()
    ensures { (f : Record P.Item → ℕ) (rs : List (Record P.Item)) (i : ℕ) (r d : Record P.Item)
        → i < length rs → sum_by f (set rs i r) + f (get_or rs i d) ≡ sum_by f rs + f r }
{}

/// Where one record is replaced, and its list gained items, the joined lists gained these.
pub fn lists_where_one_is_replaced<P: Program>()
    ensures { (g : Record P.Item → List P.Item) (rs : List (Record P.Item)) (i : ℕ) (r d : Record
        P.Item)
        (more : List P.Item) → i < length rs → IsPermutation (g r) (more ++ g (get_or rs i d))
        → IsPermutation (flat_map g (set rs i r)) (more ++ flat_map g rs) }
{}

/// Where one record is split in two, a sum stays that counts as much in both as before.
pub fn sums_where_one_is_split<P: Program>()
    ensures { (f : Record P.Item → ℕ) (rs : List (Record P.Item)) (i : ℕ) (left right d : Record
        P.Item)
        → i < length rs → f (get_or rs i d) ≡ f left + f right
        → sum_by f (set rs i left ++ right ∷ []) ≡ sum_by f rs }
{}

/// And the joined lists stay, whose items are in both.
pub fn lists_where_one_is_split<P: Program>()
    ensures { (g : Record P.Item → List P.Item) (rs : List (Record P.Item)) (i : ℕ)
        (left right d : Record P.Item) → i < length rs
        → IsPermutation (g (get_or rs i d)) (g left ++ g right)
        → IsPermutation (flat_map g rs) (flat_map g (set rs i left ++ right ∷ [])) }
{}

/// Where one record is joined into another, a sum stays that counts as much in the one as in both.
pub fn sums_where_one_is_joined<P: Program>()
    ensures { (f : Record P.Item → ℕ) (rs : List (Record P.Item)) (j i : ℕ)
        (both taken d : Record P.Item) → j < length rs → taken ≡ get_or rs j taken
        → i < length (remove rs j) → f both ≡ f taken + f (get_or (remove rs j) i d)
        → sum_by f (set (remove rs j) i both) ≡ sum_by f rs }
{}

/// And the joined lists stay.
pub fn lists_where_one_is_joined<P: Program>()
    ensures { (g : Record P.Item → List P.Item) (rs : List (Record P.Item)) (j i : ℕ)
        (both taken d : Record P.Item) → j < length rs → taken ≡ get_or rs j taken
        → i < length (remove rs j)
        → IsPermutation (g both) (g taken ++ g (get_or (remove rs j) i d))
        → IsPermutation (flat_map g rs) (flat_map g (set (remove rs j) i both)) }
{}

/// At the close of a run whose places have all left: where the stop code is not 2 and the items
/// are at most the limit, the run has its outcome and its counters balance; where the items are
/// more than the limit, the trees together have more nodes than that.
pub fn closed_runs_have_an_outcome<P: Program>()
    ensures outcome { (program : P) (degrees : List ℕ) (awake : List Bool) (limit : ℕ) (roots :
        List P.Item)
        (rs : List (Record P.Item)) (live items stop : ℕ) (value : P.Value)
        → Closes (P.children program) degrees awake limit roots rs live items stop
        → All HasLeft rs → stop ≢ 2 → items ≤ limit
        → value ≡ combined (P.value program) P.Value.combine P.Value.unit (flat_map done_of rs)
        → IsOutcome (P.children program) (P.value program) P.Value.unit P.Value.combine roots limit
        (record { items = items; value = value }) × IsBalanced (map counters_in rs) items degrees
        awake }
    ensures too_many { (program : P) (degrees : List ℕ) (awake : List Bool) (limit : ℕ) (roots :
        List P.Item)
        (rs : List (Record P.Item)) (live items stop : ℕ)
        → Closes (P.children program) degrees awake limit roots rs live items stop
        → limit < items → IsSmall (P.children program) roots limit → ⊥ }
{}

/// The records of all places of a lawful world meet what the close promises, where the stop code is
/// at most 2, and 1 only where more items than the limit were expanded.
pub fn last_worlds_close<P: Program>()
    ensures { (children : P.Item → List P.Item) (roots : List P.Item) (lines : Cube)
        (params : Params) (awake : ℕ → Bool) (w : World P.Item) (rs : List (Record P.Item))
        (limit : ℕ)
        → IsLawfulFrom children roots (setup_of lines params awake) w
        → AreRecordsOf lines params w rs
        → lines.places ≤ 64 → 0 < lines.places → tries_of params ≤ 64
        → sum_of_places (setup_of lines params awake) w (λ a. a.count.items) ≤ 2 ^ 41
        → (w.stop ≡ 1 → limit < sum_of_places (setup_of lines params awake) w (λ a. a.count.items))
        → w.stop ≤ 2
        → Closes children (all_degrees (setup_of lines params awake))
        (all_awake (setup_of lines params awake)) limit roots rs w.live
        (sum_of_places (setup_of lines params awake) w (λ a. a.count.items)) w.stop }
{}

/// The values of all places, combined, are the combination over all items done.
pub fn values_of_places_combine<P: Program>()
    ensures { (program : P) (rs : List (Record P.Item)) (value : Record P.Item → P.Value)
        → All (λ r. value r ≡ combined (P.value program) P.Value.combine P.Value.unit (done_of r))
        rs
        → fold (λ a r. P.Value.combine a (value r)) P.Value.unit rs
        ≡ combined (P.value program) P.Value.combine P.Value.unit (flat_map done_of rs) }
{}
