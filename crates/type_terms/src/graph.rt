//! The order of the nodes of a graph, which has for each node the list of those that follow it.

ghost use Rattle.std.specs.Prelude.{◌≡◌, [], false, get_or};

use crate::list::{List, NoMemory};
use crate::open_table::{empty_lists, mark_in};
use std::alloc::Global;

/// What follows a node.
pub(crate) fn followers(graph: &[List<u32>], node: usize) -> &[u32]
    ensures { result.now ≡ get_or graph.now node [] }
{
    match sqlite_items::at(graph, node) {
        Some(list) => list.as_slice(),
        None => &[],
    }
}

pub(crate) fn is_in(set: &[bool], node: usize) -> bool
    ensures { result ≡ get_or set.now node false }
{
    match set.get(node) {
        Some(answer) => *answer,
        None => false,
    }
}

/// The graph with its edges turned round.
pub(crate) fn reversed(alloc: Global, graph: &[List<u32>]) -> Result<Vec<List<u32>>, NoMemory> {
    let mut turned = empty_lists(alloc, graph.len())?;
    let mut node: u32 = 0;
    for list in graph {
        add_edges(&mut turned, list.as_slice(), node)?;
        node = node.wrapping_add(1);
    }
    Ok(turned)
}

fn add_edges(graph: &mut [List<u32>], nodes: &[u32], to: u32) -> Result<(), NoMemory> {
    for node in nodes {
        let at = *node as usize;
        if at < graph.len() {
            graph[at].push(to)?;
        }
    }
    Ok(())
}

/// A node on the way of a search, and the place of the edge that is to be taken next.
#[derive(Clone, Copy)]
struct Visit {
    node: u32,
    next: usize,
}

/// The nodes, each after those that follow it, except on a cycle. The contract doesn't say so: who needs it tests it.
///
/// # Errors
///
/// `NoMemory` where memory runs out.
pub fn post_order(alloc: Global, graph: &[List<u32>]) -> Result<List<u32>, NoMemory> {
    let mut seen = List::new(alloc);
    let mut order = List::new(alloc);
    let mut root: u32 = 0;
    for _ in graph {
        descend(alloc, graph, root, &mut seen, &mut order)?;
        root = root.wrapping_add(1);
    }
    Ok(order)
}

/// Adds the unseen nodes that are found from one on, each after those that follow it.
fn descend(
    alloc: Global,
    graph: &[List<u32>],
    root: u32,
    seen: &mut List<bool>,
    order: &mut List<u32>,
) -> Result<(), NoMemory> {
    let mut way = List::new(alloc);
    enter(root, seen, &mut way)?;
    for _step in 0..u64::MAX {
        match way.pop() {
            None => break,
            Some(visit) => step(graph, visit, seen, &mut way, order)?,
        }
    }
    Ok(())
}

/// Takes the next edge from a node, or leaves it where there is none.
fn step(
    graph: &[List<u32>],
    visit: Visit,
    seen: &mut List<bool>,
    way: &mut List<Visit>,
    order: &mut List<u32>,
) -> Result<(), NoMemory> {
    match followers(graph, visit.node as usize).get(visit.next) {
        None => order.push(visit.node)?,
        Some(node) => {
            let next = visit.next.wrapping_add(1);
            way.push(Visit {
                node: visit.node,
                next,
            })?;
            enter(*node, seen, way)?;
        }
    }
    Ok(())
}

fn enter(node: u32, seen: &mut List<bool>, way: &mut List<Visit>) -> Result<(), NoMemory> {
    if !is_in(seen.as_slice(), node as usize) {
        mark_in(seen, node as usize)?;
        way.push(Visit { node, next: 0 })?;
    }
    Ok(())
}

/// A rank for each node, which falls along each edge, except that it stays the same along an edge
/// of a cycle. The contract doesn't say so: who needs it tests it.
///
/// # Errors
///
/// `NoMemory` where memory runs out.
pub fn component_ranks(alloc: Global, graph: &[List<u32>]) -> Result<List<usize>, NoMemory> {
    let turned = reversed(alloc, graph)?;
    let mut order = post_order(alloc, graph)?;
    let mut ranks = List::new(alloc);
    for _ in graph {
        ranks.push(0)?;
    }
    let mut seen = List::new(alloc);
    let mut rank = graph.len();
    'roots: while let Some(root) = order.pop() {
        if !is_in(seen.as_slice(), root as usize) {
            rank_component(alloc, &turned, root, rank, &mut seen, &mut ranks)?;
            rank = rank.saturating_sub(1);
        }
    }
    Ok(ranks)
}

/// Gives a rank to the unseen nodes that lead to one.
fn rank_component(
    alloc: Global,
    turned: &[List<u32>],
    root: u32,
    rank: usize,
    seen: &mut List<bool>,
    ranks: &mut List<usize>,
) -> Result<(), NoMemory> {
    let mut waiting = List::new(alloc);
    mark_in(seen, root as usize)?;
    waiting.push(root)?;
    for _step in 0..u64::MAX {
        match waiting.pop() {
            None => break,
            Some(node) => {
                if (node as usize) < ranks.len() {
                    ranks.set(node as usize, rank);
                }
                add_unseen(followers(turned, node as usize), seen, &mut waiting)?;
            }
        }
    }
    Ok(())
}

fn add_unseen(
    nodes: &[u32],
    seen: &mut List<bool>,
    waiting: &mut List<u32>,
) -> Result<(), NoMemory> {
    for node in nodes {
        if !is_in(seen.as_slice(), *node as usize) {
            mark_in(seen, *node as usize)?;
            waiting.push(*node)?;
        }
    }
    Ok(())
}
