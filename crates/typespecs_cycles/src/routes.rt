//! Whether paths lead from node to node of a graph.

ghost use Rattle.std.specs.Prelude.{◌≡◌, ◌↔◌, IfOk, IsTrue, false, get_or};
ghost use Rattle.type_terms.specs.Graphs.{NeverRises};
ghost use Rattle.type_terms.specs.Paths.{IsPath};

use std::alloc::Global;
use type_terms::{List, NoMemory, component_ranks, never_rises, reached_from};

/// A graph with a rank for each node, by which it is mostly told without a search that no path leads from a node to another.
#[derive(Drop)]
pub struct Routes {
    pub graph: Vec<List<u32>>,
    ranks: List<usize>,
    falls: bool,
    ghost ranks_fall: { IsTrue falls → NeverRises graph.items ranks },
}

fn rank_of(ranks: &[usize], node: usize) -> usize
    ensures { result ≡ get_or ranks.now node 0 }
{
    match ranks.get(node) {
        Some(rank) => *rank,
        None => 0,
    }
}

fn is_in(set: &[bool], node: usize) -> bool
    ensures { result ≡ get_or set.now node false }
{
    match set.get(node) {
        Some(answer) => *answer,
        None => false,
    }
}

impl Routes {
    /// A graph with its ranks.
    pub fn new(alloc: Global, graph: Vec<List<u32>>) -> Result<Routes, NoMemory>
        ensures { IfOk result (λ routes. routes.graph.items ≡ graph.items) }
    {
        let ranks = component_ranks(alloc, graph.as_slice())?;
        let falls = never_rises(graph.as_slice(), ranks.as_slice());
        Ok(Routes {
            graph,
            ranks,
            falls,
        })
    }

    /// Whether a path leads from a node to another.
    ///
    /// # Errors
    ///
    /// `NoMemory` where memory runs out.
    pub fn leads(&self, alloc: Global, from: u32, to: usize) -> Result<bool, NoMemory>
        ensures { IfOk result (λ answer. IsTrue answer ↔ IsPath self.now.graph.items from to) }
    {
        let from = from as usize;
        if self.falls && rank_of(self.ranks.as_slice(), from) < rank_of(self.ranks.as_slice(), to) {
            return Ok(false);
        }
        let reached = reached_from(alloc, self.graph.as_slice(), from)?;
        let answer = is_in(reached.as_slice(), to);
        Ok(answer)
    }
}
