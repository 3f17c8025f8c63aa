//! Cycles in a graph, which has for each node the list of those that follow it.

ghost use Rattle.std.specs.List.{Contains};
ghost use Rattle.std.specs.Prelude.{◌≡◌, ◌<◌, ◌≤◌, ◌⊎◌, ◌^◌, ◌↔◌, [], ℕ, IfOk, IsTrue, MatchOption, false, get_or, length, true};
ghost use Rattle.type_terms.specs.Graphs.{AreIn, FallsFrom, IsClosed, NeverRises};
ghost use Rattle.type_terms.specs.Paths.{IsPath};

use crate::graph::{component_ranks, followers, is_in};
use crate::list::{List, NoMemory};
use crate::open_table::mark_in;
use std::alloc::Global;

/// The least node from which a path leads back to it.
///
/// # Errors
///
/// `NoMemory` where memory runs out.
pub fn least_on_cycle(alloc: Global, graph: &[List<u32>]) -> Result<Option<u32>, NoMemory>
    requires { length graph.now < 2 ^ 32 }
    ensures { IfOk result (λ answer. MatchOption answer ((n : ℕ) → IsPath graph.now n n → ⊥) (λ n. IsPath graph.now n n × ((m : ℕ) → m < n → IsPath graph.now m m → ⊥))) }
{
    let by_node = component_ranks(alloc, graph)?;
    let ranks = by_node.as_slice();
    let first = first_not_falling(graph, ranks);
    if never_rises(graph, ranks) {
        if first >= graph.len() {
            return Ok(None);
        }
        if reaches_itself(alloc, graph, first)? {
            return Ok(Some(first as u32));
        }
    }
    'nodes: for node in 0..graph.len() {
        if reaches_itself(alloc, graph, node)? {
            return Ok(Some(node as u32));
        }
    }
    Ok(None)
}

fn reaches_itself(alloc: Global, graph: &[List<u32>], node: usize) -> Result<bool, NoMemory>
    ensures { IfOk result (λ answer. IsTrue answer ↔ IsPath graph.now node node) }
{
    let seen = reached_from(alloc, graph, node)?;
    let answer = is_in(seen.as_slice(), node);
    Ok(answer)
}

/// The nodes to which a path leads from a node.
///
/// # Errors
///
/// `NoMemory` where memory runs out.
pub fn reached_from(alloc: Global, graph: &[List<u32>], node: usize) -> Result<List<bool>, NoMemory>
    ensures { IfOk result (λ seen. (m : ℕ) → (get_or seen m false ≡ true) ↔ IsPath graph.now node m) }
{
    let mut seen = List::new(alloc);
    let mut waiting = List::new(alloc);
    visit(followers(graph, node), &mut seen, &mut waiting)?;
    'steps: for _step in 0..u64::MAX {
        match waiting.pop() {
            Some(next) => visit(followers(graph, next as usize), &mut seen, &mut waiting)?,
            None => {
                let set = seen.as_slice();
                if are_in(set, followers(graph, node)) && is_closed(graph, set) {
                    return Ok(seen);
                }
                add_members(seen.as_slice(), &mut waiting)?;
            }
        }
    }
    Err(NoMemory)
}

/// Adds nodes to a set, and those that are new also to the list of those that wait.
fn visit(nodes: &[u32], seen: &mut List<bool>, waiting: &mut List<u32>) -> Result<(), NoMemory>
    ensures seen { IfOk result (λ _. (i : ℕ) → get_or seen.new i false ≡ true → (get_or seen.old i false ≡ true) ⊎ Contains nodes.now i) }
    ensures waiting { IfOk result (λ _. (i : ℕ) → Contains waiting.new i → Contains waiting.old i ⊎ Contains nodes.now i) }
{
    'nodes: for node in nodes {
        visit_one(*node, seen, waiting)?;
    }
    Ok(())
}

fn visit_one(node: u32, seen: &mut List<bool>, waiting: &mut List<u32>) -> Result<(), NoMemory>
    ensures seen { IfOk result (λ _. (i : ℕ) → get_or seen.new i false ≡ true → (get_or seen.old i false ≡ true) ⊎ (i ≡ node)) }
    ensures waiting { IfOk result (λ _. (i : ℕ) → Contains waiting.new i → Contains waiting.old i ⊎ (i ≡ node)) }
{
    if !is_in(seen.as_slice(), node as usize) {
        mark_in(seen, node as usize)?;
        waiting.push(node)?;
    }
    Ok(())
}

/// The nodes of a set, for another visit.
fn add_members(set: &[bool], waiting: &mut List<u32>) -> Result<(), NoMemory>
    requires { waiting.old ≡ [] }
    ensures { IfOk result (λ _. (i : ℕ) → Contains waiting.new i → get_or set.now i false ≡ true) }
{
    let mut node: u32 = 0;
    'members: for _ in set {
        if is_in(set, node as usize) {
            waiting.push(node)?;
        }
        node = node.wrapping_add(1);
    }
    Ok(())
}

fn are_in(set: &[bool], nodes: &[u32]) -> bool
    ensures { IsTrue result → AreIn set.now nodes.now }
{
    'nodes: for node in nodes {
        if !is_in(set, *node as usize) {
            return false;
        }
    }
    true
}

fn is_closed(graph: &[List<u32>], set: &[bool]) -> bool
    ensures { IsTrue result → IsClosed graph.now set.now }
{
    'nodes: for node in 0..graph.len() {
        if is_in(set, node) && !are_in(set, followers(graph, node)) {
            return false;
        }
    }
    true
}

/// The least node from which the rank does not fall along each edge; the count if it falls from all.
fn first_not_falling(graph: &[List<u32>], ranks: &[usize]) -> usize
    ensures falls { (n : ℕ) → n < result → FallsFrom graph.now ranks.now n }
{
    'nodes: for node in 0..graph.len() {
        if !are_below(ranks, rank_of(ranks, node), followers(graph, node)) {
            return node;
        }
    }
    graph.len()
}

/// Whether the rank rises along no edge.
pub fn never_rises(graph: &[List<u32>], ranks: &[usize]) -> bool
    ensures { IsTrue result → NeverRises graph.now ranks.now }
{
    'nodes: for node in 0..graph.len() {
        if !are_at_most(ranks, rank_of(ranks, node), followers(graph, node)) {
            return false;
        }
    }
    true
}

fn are_below(ranks: &[usize], rank: usize, nodes: &[u32]) -> bool
    ensures { IsTrue result → (m : ℕ) → Contains nodes.now m → get_or ranks.now m 0 < rank }
{
    'nodes: for node in nodes {
        if rank_of(ranks, *node as usize) >= rank {
            return false;
        }
    }
    true
}

fn are_at_most(ranks: &[usize], rank: usize, nodes: &[u32]) -> bool
    ensures { IsTrue result → (m : ℕ) → Contains nodes.now m → get_or ranks.now m 0 ≤ rank }
{
    'nodes: for node in nodes {
        if rank_of(ranks, *node as usize) > rank {
            return false;
        }
    }
    true
}

fn rank_of(ranks: &[usize], node: usize) -> usize
    ensures { result ≡ get_or ranks.now node 0 }
{
    match ranks.get(node) {
        Some(rank) => *rank,
        None => 0,
    }
}
