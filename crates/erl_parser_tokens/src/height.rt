//! How deep a tree is nested.

ghost use Rattle.std.specs.Prelude.{◌≡◌, ◌+◌, ◌≤◌, ◌<◌, ◌^◌, max};
ghost use Rattle.erl_parser_tokens.specs.Heights as heights;

use erl_tree::Place;

/// The most levels that a tree has.
pub const NESTING_LIMIT: usize = 256;

/// How many levels a tree has, and where the first of its deepest nodes begins. What has no node that
/// counts as a level has no levels, and then the place means nothing.
#[derive(Clone, Copy)]
pub struct Height {
    pub depth: usize,
    pub deepest: Place,
}

/// A tree with its height.
#[derive(Drop)]
pub struct Measured<T> {
    pub tree: T,
    pub height: Height,
}

/// The height of what has no levels.
pub fn flat() -> Height
    ensures { result ≡ heights.flat }
{
    Height {
        depth: 0,
        deepest: Place { line: 1, column: 1 },
    }
}

impl Height {
    /// The greater of two heights, and the first where they are equal.
    pub fn higher(self, other: Height) -> Height
        ensures exact { result ≡ heights.higher self other }
        ensures depth { result.depth ≡ max self.depth other.depth }
    {
        if other.depth <= self.depth {
            self
        } else {
            other
        }
    }

    /// So many levels more, of what has any.
    pub fn raised(self, levels: usize) -> Height
        requires { self.depth + levels < 2 ^ 64 }
        ensures exact { result ≡ heights.raised levels self }
        ensures depth { result.depth ≤ self.depth + levels }
    {
        if self.depth == 0 {
            self
        } else {
            Height {
                depth: self.depth + levels,
                deepest: self.deepest,
            }
        }
    }

    /// The height of a node with parts of this height, which begins at this place.
    pub fn above(self, place: Place) -> Height
        requires { self.depth + 1 < 2 ^ 64 }
        ensures exact { result ≡ heights.above place self }
        ensures depth { result.depth ≡ self.depth + 1 }
    {
        if self.depth == 0 {
            Height {
                depth: 1,
                deepest: place,
            }
        } else {
            Height {
                depth: self.depth + 1,
                deepest: self.deepest,
            }
        }
    }
}
