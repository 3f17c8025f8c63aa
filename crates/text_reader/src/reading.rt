//! Reading a text: its tokens, its tree, its names, its specs, each once.

ghost use Rattle.std.specs.Prelude.{◌⊎◌, ◌<◌, ◌≤◌, ◌↔◌, length, IfOk, IfErr, IsOk, IsErrOf};
ghost use Rattle.erl_tree.specs.Profile.{IsLexed};
ghost use Rattle.erl_scope_rules.specs.Resolution.{resolved_of};
ghost use Rattle.erl_scope_rules.specs.ScopeFaults.{HasRightNames};
ghost use Rattle.erl_scope_rules.specs.declared.fault.PlacedFault.{PlacedFault};
ghost use Rattle.erl_scope_numbers.specs.Table.{IsTableOf};
ghost use Rattle.typespecs_rules.specs.declared.fault.PlacedFault.{PlacedFault as TypePlacedFault};
ghost use Rattle.text_reader.specs.Modules.{text_limit, IsParsedAs, IsReadModule, HasNoModule, HasWrongNames, HasWrongSpecs, HasReadableModule};
ghost use Rattle.text_reader.specs.Refusals.{IsReadRefusal, IsNoModuleReading, IsWrongNamesReading, IsWrongSpecsReading};

use crate::fault::{ReadFault, refused_by_parser};
use erl_lexer::{LexFault, lex};
use erl_parser::parse;
use erl_scope::{ScopeFault, resolve};
use erl_scope_numbers::Scopes;
use erl_tree::{Module, Placed};
use std::alloc::Global;
use type_terms::List;
use typespecs::{SpecFault, read_specs};
use typespecs_rules::Specs;

/// The greatest number of bytes of a module's text.
pub const TEXT_LIMIT: u64 = 1048576;

/// A readable module: its tree, the numbers of its variables, and its types, records and specs.
#[derive(Drop)]
pub struct ReadModule {
    pub tree: Module,
    pub scopes: Scopes,
    pub specs: Specs,
}

/// Reads the text of a module, of at most `TEXT_LIMIT` bytes: the module that it spells, of the profile
/// (`docs/LANGUAGE.md`) and nested at most 256 levels deep, whose names are used rightly (`docs/NAMES.md`) and
/// with whose types, records and specs nothing is wrong (`docs/SPECS.md`).
///
/// # Errors
///
/// `TooLong` exactly where the text has more than `TEXT_LIMIT` bytes, whatever they are. Of a text within that
/// limit: `Lex` where it has no tokens, with the first fault of the lexer; `Parse` where its tokens are those of
/// no module of the profile, or of one that is nested too deep; `Scope` where it spells a module whose names are
/// used wrongly, with their first fault; `Spec` where its names are right and something is wrong with its types,
/// records or specs, with the first fault of these. `NoMemory` where memory runs out.
pub fn read_text(alloc: Global, text: &[u8]) -> Result<ReadModule, ReadFault>
    // What is given is the one module that the text spells, which is readable, and what was read of it.
    ensures read { IfOk result (λ r. IsReadModule text.now r.tree r.scopes r.specs) }
    // A refusal comes only with its cause.
    ensures refused { IfErr result (IsReadRefusal text.now) }
    ensures too_long { IsErrOf result ReadFault.TooLong ↔ (text_limit < length text.now) }
    // A text within the limit gets the answer that it calls for, unless memory runs out.
    ensures complete { HasReadableModule text.now → length text.now ≤ text_limit → IsOk result ⊎ IsErrOf result ReadFault.NoMemory }
    ensures no_module { HasNoModule text.now → length text.now ≤ text_limit → IsNoModuleReading result }
    ensures wrong_names { (fault : PlacedFault) → HasWrongNames text.now fault → length text.now ≤ text_limit → IsWrongNamesReading fault result }
    ensures wrong_specs { (fault : TypePlacedFault) → HasWrongSpecs text.now fault → length text.now ≤ text_limit → IsWrongSpecsReading fault result }
{
    read_or_refuse(alloc, text)
}

/// The answer of `read_text`: its other clauses follow from these three.
fn read_or_refuse(alloc: Global, text: &[u8]) -> Result<ReadModule, ReadFault>
    ensures read { IfOk result (λ r. IsReadModule text.now r.tree r.scopes r.specs) }
    ensures refused { IfErr result (IsReadRefusal text.now) }
    ensures too_long { IsErrOf result ReadFault.TooLong ↔ (text_limit < length text.now) }
{
    if text.len() as u64 > TEXT_LIMIT {
        return Err(ReadFault::TooLong);
    }
    match lex(alloc, text) {
        Err(LexFault::NoMemory) => Err(ReadFault::NoMemory),
        Err(fault) => Err(ReadFault::Lex(fault)),
        Ok(tokens) => read_tokens(alloc, text, &tokens),
    }
}

/// The module whose tokens a text was lexed as.
fn read_tokens(alloc: Global, text: &[u8], tokens: &List<Placed>) -> Result<ReadModule, ReadFault>
    requires lexed { IsLexed text.now tokens.now }
    ensures read { IfOk result (λ r. IsReadModule text.now r.tree r.scopes r.specs) }
    ensures refused { IfErr result (IsReadRefusal text.now) }
    ensures short { IsErrOf result ReadFault.TooLong → ⊥ }
{
    match parse(alloc, tokens) {
        Ok(tree) => read_module(alloc, text, tree),
        Err(fault) => Err(refused_by_parser(fault)),
    }
}

/// The module as which a text was parsed, where its names and its specs are right.
fn read_module(alloc: Global, text: &[u8], tree: Module) -> Result<ReadModule, ReadFault>
    requires { IsParsedAs text.now tree }
    ensures read { IfOk result (λ r. IsReadModule text.now r.tree r.scopes r.specs) }
    ensures refused { IfErr result (IsReadRefusal text.now) }
    ensures short { IsErrOf result ReadFault.TooLong → ⊥ }
{
    match resolve(alloc, &tree) {
        Ok(scopes) => read_resolved(alloc, text, tree, scopes),
        Err(ScopeFault::NoMemory) => Err(ReadFault::NoMemory),
        Err(fault) => Err(ReadFault::Scope(fault)),
    }
}

/// The module as which a text was parsed, whose names are right and whose variables have these numbers, where
/// its specs are right.
fn read_resolved(
    alloc: Global,
    text: &[u8],
    tree: Module,
    scopes: Scopes,
) -> Result<ReadModule, ReadFault>
    requires parsed { IsParsedAs text.now tree }
    requires right_names { HasRightNames tree }
    requires table { IsTableOf (resolved_of tree) scopes }
    ensures read { IfOk result (λ r. IsReadModule text.now r.tree r.scopes r.specs) }
    ensures refused { IfErr result (IsReadRefusal text.now) }
    ensures short { IsErrOf result ReadFault.TooLong → ⊥ }
{
    match read_specs(alloc, &tree) {
        Ok(specs) => Ok(ReadModule {
            tree,
            scopes,
            specs,
        }),
        Err(SpecFault::NoMemory) => Err(ReadFault::NoMemory),
        Err(fault) => Err(ReadFault::Spec(fault)),
    }
}
