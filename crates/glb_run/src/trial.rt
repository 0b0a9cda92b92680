//! The tree and the graph of a trial, both made from one number.
ghost use Rattle.std.specs.Prelude.{◌≡◌, ℕ, ◌+◌, ◌*◌, ◌<◌, length, IfOk, IfErr};
ghost use Rattle.glb_graph.specs.Rows.{ArePairs};
ghost use Rattle.glb_run.specs.Trials.{vertex_of as vertex_for, edge_of, first_edges};
ghost use Rattle.glb_run.specs.Trials.{trial_graph as graph_for};
ghost use Rattle.glb_run.specs.inner.Draws.{HasDrawn};

use glb_graph::Graph;
use glb_laws::NoMemory;
use glb_tree::RunFault;
use rand_core::utils::NextWord;
use rand_pcg::Pcg32;
use std::alloc::Global;

/// The first numbers of the tree, as of `uts`; the trial's own is the seed.
pub(crate) const TREE_B0: u32 = 2_000;

pub(crate) const TREE_M: u32 = 4;

pub(crate) const TREE_Q: u32 = 483_183_820;

const VERTICES: u32 = 1_000;

const EDGES: usize = 5_000;

/// Which of the generator's streams of words is drawn from.
const STREAM: u64 = 1_000;

/// The vertex that a word gives.
fn vertex_of(word: u32) -> u32
    ensures vertex { result ≡ vertex_for word }
    ensures below { result < 1000 }
{
    ((u64::from(word) * u64::from(VERTICES)) >> 32) as u32
}

/// The next edge: its start is drawn first.
fn draw_edge(words: &mut Pcg32) -> (u32, u32)
    ensures edge { (k number : ℕ) → HasDrawn k (number * 2) words.old →
        (result ≡ edge_of k number) × HasDrawn k ((number + 1) * 2) words.new }
    ensures ends { (result.0 < 1000) × (result.1 < 1000) }
{
    let from = vertex_of(words.next_word());
    let to = vertex_of(words.next_word());
    (from, to)
}

/// The edges in order.
fn edges_of(alloc: Global, k: u32) -> Result<Vec<(u32, u32)>, NoMemory>
    ensures edges { IfOk result (λ pairs. pairs.items ≡ first_edges k 5000) }
    ensures many { IfOk result (λ pairs. length pairs.items ≡ 5000) }
    ensures pairs { IfOk result (λ pairs. ArePairs 1000 pairs.items) }
{
    let mut words = Pcg32::new(u64::from(k), STREAM);
    let mut pairs = Vec::with_capacity(alloc, EDGES)?;
    for _ in 0..EDGES {
        pairs.push(draw_edge(&mut words))?;
    }
    Ok(pairs)
}

/// The graph.
pub(crate) fn trial_graph(alloc: Global, k: u32) -> Result<Graph, RunFault>
    ensures graph { IfOk result (λ graph. graph ≡ graph_for k) }
    ensures fault { IfErr result (λ e. e ≡ RunFault.NoMemory) }
{
    let Ok(edges) = edges_of(alloc, k) else {
        return Err(RunFault::NoMemory);
    };
    match Graph::from_pairs(alloc, VERTICES, edges) {
        Ok(graph) => Ok(graph),
        Err(_) => Err(RunFault::NoMemory),
    }
}
