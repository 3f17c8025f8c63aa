//! What stands at one level of a type: its parts are nested at most so deep.

ghost use Rattle.std.specs.Prelude.{◌≡◌, ◌<◌, ◌≤◌, ◌+◌, length, IfOk};
ghost use Rattle.erl_parser_tokens.specs.Tokens.{Gives};
ghost use Rattle.erl_parser_tokens.specs.Parts as parts_read;
ghost use Rattle.erl_parser_tokens.specs.Views.{several};
ghost use Rattle.erl_parser_types.specs.Types as reading;
ghost use Rattle.erl_parser_types.specs.Levels.{CanRead};

use erl_parser_tokens::height::Measured;
use erl_parser_tokens::parts::Parts;
use erl_parser_tokens::separated::closed;
use erl_parser_tokens::{Found, ParseFault};
use erl_tree::{Place, Placed, TypeExpr};
use std::alloc::Global;

/// Reads the parts of one level. The function `read` reads a type nested at most so deep as its second
/// argument says, which is at most `limit`.
#[derive(Clone, Copy)]
pub(crate) struct Level<'r, R> {
    pub(crate) alloc: Global,
    pub(crate) limit: usize,
    pub(crate) read: &'r R,
}

impl<R: Fn(&[Placed], usize) -> Found<'_, Measured<TypeExpr>>> Level<'_, R> {
    /// A type.
    pub(crate) fn inner<'a>(&self, tokens: &'a [Placed]) -> Found<'a, Measured<TypeExpr>>
        requires reads { CanRead (R.pre self.now.read.now) (R.post self.now.read.now) (self.now.limit + 1) }
        ensures exact { Gives (λ x. (x.0, x.1.now)) result (reading.read_type self.now.limit tokens.now) }
        ensures low { IfOk result (λ x. x.0.height.depth ≤ self.now.limit) }
        ensures shorter { IfOk result (λ x. length x.1.now < length tokens.now) }
    {
        (self.read)(tokens, self.limit)
    }

    /// A type that stands in another node of this level, which begins at this place.
    #[tactic(auto, using(crate::proofs::TypeLevels::no_levels, crate::proofs::TypeLevels::levels_are, std::proofs::lemmas::Grind::common_steps))]
    pub(crate) fn inside<'a>(
        &self,
        place: Place,
        tokens: &'a [Placed],
    ) -> Found<'a, Measured<TypeExpr>>
        requires reads { CanRead (R.pre self.now.read.now) (R.post self.now.read.now) (self.now.limit + 1) }
        ensures exact { Gives (λ x. (x.0, x.1.now)) result (reading.read_inside (reading.type_levels self.now.limit) place tokens.now) }
        ensures low { IfOk result (λ x. x.0.height.depth + 1 ≤ self.now.limit) }
        ensures shorter { IfOk result (λ x. length x.1.now < length tokens.now) }
    {
        if self.limit == 0 {
            return Err(ParseFault::TooDeep(place));
        }
        (self.read)(tokens, self.limit - 1)
    }

    /// Types with commas between them, or none, and the closing mark.
    pub(crate) fn types<'a>(
        &self,
        closing: &[u8],
        tokens: &'a [Placed],
    ) -> Found<'a, Parts<TypeExpr>>
        requires reads { CanRead (R.pre self.now.read.now) (R.post self.now.read.now) (self.now.limit + 1) }
        ensures exact { Gives (λ x. (several x.0, x.1.now)) result (parts_read.read_closed closing.now (reading.read_type self.now.limit) tokens.now) }
        ensures low { IfOk result (λ x. x.0.height.depth ≤ self.now.limit) }
        ensures shorter { IfOk result (λ x. length x.1.now < length tokens.now) }
    {
        closed(self.alloc, tokens, closing, |rest| self.inner(rest))
    }
}
