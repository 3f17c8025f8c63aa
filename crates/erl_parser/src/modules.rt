//! Modules.

ghost use Rattle.std.specs.Prelude.{◌≡◌, IfOk, IsErrOf};
ghost use Rattle.erl_tree.specs.Lists.{Among};
ghost use Rattle.erl_tree.specs.declared.token.Place.{Place as Spot};
ghost use Rattle.erl_tree.specs.declared.form.Module.{Module as ModuleTree};
ghost use Rattle.type_terms.specs.Keys.{Name};
ghost use Rattle.erl_grammar.specs.FormGrammar.{IsModule};
ghost use Rattle.erl_grammar.specs.FormNesting.{module_deep, IsModuleWithin};
ghost use Rattle.erl_grammar.specs.Nesting.{nesting_limit};
ghost use Rattle.erl_parser_tokens.specs.Tokens.{Gives};
ghost use Rattle.erl_parser_tokens.specs.Outside.{HasOutside};
ghost use Rattle.erl_parser_tokens.specs.Answers.{IsOrNoMemory};
ghost use Rattle.erl_parser.specs.Forms as reading;
ghost use Rattle.erl_parser.specs.Answers.{IsModuleText};

use crate::forms::forms;
use crate::items::Marked;
use crate::tokens::{expect_atom_named, expect_dot};
use erl_parser_tokens::tokens::{expect_atom, expect_mark};
use erl_parser_tokens::{Found, ParseFault};
use erl_tree::{Module, Placed};
use std::alloc::Global;
use type_terms::{List, Text};

/// `-module(name).`, by its name and its marks.
#[tactic(auto, unfolding(crate::specs::Forms::read_header))]
fn header(alloc: Global, tokens: &[Placed]) -> Found<'_, Marked<Text>>
    ensures exact { Gives (λ x. (x.0, x.1.now)) result (reading.read_header tokens.now) }
{
    let (hyphen, rest) = expect_mark(tokens, b"-")?;
    let (word, rest) = expect_atom_named(rest, b"module")?;
    let (opening, rest) = expect_mark(rest, b"(")?;
    let (name, named, rest) = expect_atom(alloc, rest)?;
    let (close, rest) = expect_mark(rest, b")")?;
    let (dot, rest) = expect_dot(rest)?;
    let marks = List::from_slice(alloc, &[hyphen, word, opening, named, close, dot])?;
    Ok(((name, marks), rest))
}

/// A module, of these tokens and no more.
#[tactic(auto, unfolding(crate::specs::Forms::read_module_at))]
fn module(alloc: Global, tokens: &List<Placed>) -> Result<Module, ParseFault>
    ensures exact { Gives (λ x. x) result (reading.read_module tokens.now) }
{
    let ((name, mut marks), rest) = header(alloc, tokens.as_slice())?;
    let (forms, end) = forms(alloc, rest)?;
    marks.push(end)?;
    Ok(Module { name, marks, forms })
}

/// The module that these tokens are, of which the last is the end of the text, whose outermost types,
/// patterns and expressions stand at the first of 256 levels (`docs/FORMS.md`).
///
/// # Errors
///
/// `OutOfProfile` where a form that is outside of the profile stands, by its place and its name;
/// `TooDeep` with the place of a node that is nested deeper; `Unexpected` with the place of the token
/// that fits nowhere; `NoMemory` where memory runs out.
pub fn parse(alloc: Global, tokens: &List<Placed>) -> Result<Module, ParseFault>
    // What is given is a well-formed module with exactly these tokens, nested within the limit.
    ensures found { IfOk result (λ m. IsModule m × IsModuleWithin nesting_limit m × IsModuleText m tokens.now) }
    // A well-formed module with these tokens, nested within the limit, is what is given, unless memory
    // runs out.
    ensures complete { (m : ModuleTree) → IsModule m → IsModuleWithin nesting_limit m → IsModuleText m tokens.now → IsOrNoMemory m result }
    // In every well-formed module with these tokens a node that is nested too deep begins there.
    ensures too_deep { (p : Spot) → IsErrOf result (ParseFault.TooDeep p) → (m : ModuleTree) → IsModule m → IsModuleText m tokens.now → Among p (module_deep m nesting_limit) }
    // No well-formed module has these tokens.
    ensures unexpected { (p : Spot) → IsErrOf result (ParseFault.Unexpected p) → (m : ModuleTree) → IsModule m → IsModuleText m tokens.now → ⊥ }
    // The form stands there, and no well-formed module has these tokens.
    ensures outside { (p : Spot) (form : Name) → IsErrOf result (ParseFault.OutOfProfile p form) → HasOutside tokens.now p form × ((m : ModuleTree) → IsModule m → IsModuleText m tokens.now → ⊥) }
{
    module(alloc, tokens)
}
