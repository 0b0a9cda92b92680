//! What the definitions come to, as contracts of functions that do nothing.
ghost use Rattle.std.specs.Prelude.{◌≡◌, ℕ, ◌+◌, ◌*◌, ◌<◌, ◌≤◌, ◌↔◌, List, [], ◌∷◌, length, Some};
ghost use Rattle.std.specs.Prelude.{None};
ghost use Rattle.glb_laws.specs.Tree.{IsSmall, nodes, answer};
ghost use Rattle.glb_laws.specs.Tallies.{tallies, no_tallies, join_tallies};
ghost use Rattle.glb_graph.specs.Rows.{IsGraph, ArePairs, graph_of, edges_of, targets_of};
ghost use Rattle.glb_graph.specs.Rows.{targets_from};
ghost use Rattle.glb_graph.specs.Walks.{Walk, IsDistance};
ghost use Rattle.glb_graph.specs.Distances.{distance, reached_of, sum_of, greatest_of};
ghost use Rattle.glb_graph.specs.Pairs.{joined_pairs, sum_of_distances, greatest_distance};
ghost use Rattle.glb_graph.specs.GraphText.{Reading, Edges, BytesSay};
ghost use Rattle.glb_graph.specs.Spots.{spots, spot_children, spot_value};
ghost use Rattle.glb_graph.specs.declared.dist.Spot.{Spot};
ghost use Rattle.glb_graph.specs.declared.dist.Spot.TheVariants.{Root, Vertex};

use super::limits::{MOST_EDGES, MOST_VERTICES};

/// Each list of bytes says exactly one thing: a graph, or a fault with its line.
pub fn bytes_say_one_thing()
    ensures some { (bytes : List ℕ) → (reading : Reading) × BytesSay bytes reading }
    ensures one { (bytes : List ℕ) (r q : Reading) → BytesSay bytes r → BytesSay bytes q → r ≡ q }
{}

/// Graph text is of a graph within the limits, which has as many edges as the text has pairs.
pub fn text_is_of_a_graph()
    ensures graph { (bytes : List ℕ) (v : ℕ) (pairs : List (ℕ × ℕ)) →
        BytesSay bytes (Edges v pairs) → IsGraph (graph_of v pairs) }
    ensures vertices { (v : ℕ) (pairs : List (ℕ × ℕ)) → length (graph_of v pairs) ≡ v }
    ensures edges { (bytes : List ℕ) (v : ℕ) (pairs : List (ℕ × ℕ)) →
        BytesSay bytes (Edges v pairs) → edges_of (graph_of v pairs) ≡ length pairs }
{}

/// Pairs of vertices make a graph within the limits, which has as many edges as there are pairs;
/// those that leave a vertex stand in the order of the pairs.
pub fn pairs_make_a_graph()
    ensures graph { (n : ℕ) (pairs : List (ℕ × ℕ)) → n ≤ MOST_VERTICES →
        length pairs ≤ MOST_EDGES → ArePairs n pairs → IsGraph (graph_of n pairs) }
    ensures edges { (n : ℕ) (pairs : List (ℕ × ℕ)) → ArePairs n pairs →
        edges_of (graph_of n pairs) ≡ length pairs }
    ensures targets { (n v : ℕ) (pairs : List (ℕ × ℕ)) → v < n →
        targets_of (graph_of n pairs) v ≡ targets_from pairs v }
{}

/// The distance is the least number of edges of a walk, and is missing where there is none.
pub fn distance_is_least()
    ensures some { (rows : List (List ℕ)) (s t d : ℕ) → IsGraph rows →
        s < length rows → t < length rows → (distance rows s t ≡ Some d) ↔ IsDistance rows s t d }
    ensures none { (rows : List (List ℕ)) (s t : ℕ) → IsGraph rows →
        s < length rows → t < length rows →
        (distance rows s t ≡ None) ↔ ((n : ℕ) → Walk rows s t n → ⊥) }
{}

/// The tree of the root is the root and the vertices.
pub fn tree_of_the_root()
    ensures small { (rows : List (List ℕ)) (most : ℕ) →
        IsSmall (spot_children rows) (Root ∷ []) most ↔ (length rows + 1 ≤ most) }
    ensures nodes { (rows : List (List ℕ)) (most : ℕ) → length rows + 1 ≤ most →
        nodes (spot_children rows) (Root ∷ []) most ≡ Root ∷ spots (length rows) }
    ensures count { (n : ℕ) → length (spots n) ≡ n }
{}

/// The value of a vertex is the number of others that it reaches, the sum of their distances and
/// the greatest of these: none of the three comes near the last value of its type.
pub fn nothing_is_capped()
    ensures value { (rows : List (List ℕ)) (s : ℕ) → IsGraph rows → s < length rows →
        spot_value rows (Vertex s) ≡ tallies (reached_of (distance rows s) s (length rows))
        (sum_of (distance rows s) (length rows)) (greatest_of (distance rows s) (length rows)) }
    ensures reached { (rows : List (List ℕ)) (s : ℕ) → IsGraph rows →
        reached_of (distance rows s) s (length rows) ≤ MOST_VERTICES }
    ensures sum { (rows : List (List ℕ)) (s : ℕ) → IsGraph rows →
        sum_of (distance rows s) (length rows) ≤ MOST_VERTICES * MOST_VERTICES }
    ensures greatest { (rows : List (List ℕ)) (s : ℕ) → IsGraph rows →
        greatest_of (distance rows s) (length rows) ≤ MOST_VERTICES }
{}

/// The values of all nodes combine to the number of pairs of vertices that a walk joins, the sum of
/// their distances and the greatest of these.
pub fn answer_of_the_root()
    ensures { (rows : List (List ℕ)) (most : ℕ) → IsGraph rows → length rows + 1 ≤ most →
        answer (spot_children rows) (spot_value rows) no_tallies join_tallies (Root ∷ []) most
        ≡ tallies (joined_pairs rows) (sum_of_distances rows) (greatest_distance rows) }
{}
