ghost use Rattle.std.specs.Prelude.{◌≡◌, ◌⊎◌, ◌<◌, ◌≤◌, ◌↔◌, Some, length, IfOk, IfErr, IsOk, IsErrOf};
ghost use Rattle.typespecs_rules.specs.SpecTerms.{module_specs};
ghost use Rattle.typespecs_rules.specs.declared.fault.PlacedFault.{PlacedFault as TypePlacedFault};
ghost use Rattle.erl_scope_rules.specs.declared.fault.PlacedFault.{PlacedFault};
ghost use Rattle.text_reader.specs.Modules.{text_limit, HasNoModule, HasWrongNames, HasWrongSpecs, IsReadModule};
ghost use Rattle.flat_modules.specs.FlatModules.{IsFlatModule};
ghost use Rattle.cert_checker.specs.declared.refusal.FirstRefusal.{FirstRefusal as Failure};
ghost use Rattle.cert_checker.specs.Failures.{ShowsFirstFailure};
ghost use Rattle.etylizer_program.specs.Check.{IsNotBuilt, IsRightText, IsReadWith, IsNoModuleAnswer, IsWrongNamesAnswer, IsWrongSpecsAnswer, IsAcceptedModule, IsAcceptedText, IsTextRefusal, refused_as, refused_by_reader};

use crate::count::{count_functions, count_specs};
use cert_checker::{FirstRefusal, check_first};
use erl_lexer::LexFault;
use erl_parser::ParseFault;
use erl_scope::ScopeFault;
use erl_tree::Module;
use flat_tests::is_flat_module;
use std::alloc::Global;
use text_reader::{ReadFault, ReadModule, read_text};
use type_terms::{NoMemory, Plain, Text};
use typespecs::SpecFault;
use typespecs_rules::Specs;

/// A safe module: its name, and the numbers of its functions and spec clauses.
#[derive(Drop)]
pub struct Accepted {
    pub name: Text,
    pub functions: u64,
    pub clauses: u64,
}

/// Why a text is not accepted.
#[derive(Drop)]
pub enum Refused {
    NoMemory,
    /// It has more than `TEXT_LIMIT` bytes.
    TooLong,
    /// It has no tokens within the profile and the limit of integers.
    Lex(LexFault),
    /// Its tokens are those of no module that is nested at most 256 levels deep.
    Parse(ParseFault),
    /// The names of its module are used wrongly.
    Scope(ScopeFault),
    /// The names of its module are right, and something is wrong with its types, records or specs.
    Spec(SpecFault),
    /// Its module is readable and isn't flat.
    NotBuilt,
    /// A constraint of its module fails.
    Types(FirstRefusal),
}

impl From<ReadFault> for Refused {
    ghost from_gives = { λ fault refused. refused ≡ refused_by_reader fault };

    fn from(fault: ReadFault) -> Refused {
        match fault {
            ReadFault::NoMemory => Refused::NoMemory,
            ReadFault::TooLong => Refused::TooLong,
            ReadFault::Lex(fault) => Refused::Lex(fault),
            ReadFault::Parse(fault) => Refused::Parse(fault),
            ReadFault::Scope(fault) => Refused::Scope(fault),
            ReadFault::Spec(fault) => Refused::Spec(fault),
        }
    }
}

impl From<FirstRefusal> for Refused {
    ghost from_gives = { λ refusal refused. refused ≡ refused_as refusal };

    fn from(refusal: FirstRefusal) -> Refused {
        match refusal {
            FirstRefusal::NoMemory => Refused::NoMemory,
            failed => Refused::Types(failed),
        }
    }
}

/// Reads and checks the text of a module.
///
/// # Errors
///
/// `TooLong` exactly where the text has more than `TEXT_LIMIT` bytes, whatever they are. Of a text
/// within that limit: `Lex` where it has no tokens, with the first fault of the lexer; `Parse` where
/// its tokens are those of no module of the profile, or of one that is nested too deep; `Scope` where
/// it spells a module whose names are used wrongly, with their first fault (`docs/NAMES.md`); `Spec`
/// where its names are right and something is wrong with its types, records or specs, with the first
/// fault of these (`docs/SPECS.md`); `NotBuilt` where nothing is wrong with them and the module isn't
/// flat (`docs/LANGUAGE.md`); `Types` where it spells a flat module, with the first constraint that
/// fails. `NoMemory` where memory runs out.
pub fn check_text(alloc: Global, text: &[u8]) -> Result<Accepted, Refused>
    ensures safe { IfOk result (λ a. IsAcceptedText text.now a.name a.functions a.clauses) }
    ensures refused { IfErr result (IsTextRefusal text.now) }
    ensures too_long { IsErrOf result Refused.TooLong ↔ (text_limit < length text.now) }
    ensures complete { IsRightText text.now → length text.now ≤ text_limit → IsOk result ⊎ IsErrOf result Refused.NoMemory }
    ensures not_built { IsNotBuilt text.now → length text.now ≤ text_limit → IsErrOf result Refused.NotBuilt ⊎ IsErrOf result Refused.NoMemory }
    ensures no_module { HasNoModule text.now → length text.now ≤ text_limit → IsNoModuleAnswer result }
    ensures wrong_names { (fault : PlacedFault) → HasWrongNames text.now fault → length text.now ≤ text_limit → IsWrongNamesAnswer fault result }
    ensures wrong_specs { (fault : TypePlacedFault) → HasWrongSpecs text.now fault → length text.now ≤ text_limit → IsWrongSpecsAnswer fault result }
{
    read_and_check(alloc, text)
}

/// The answer of `check_text`: its other clauses follow from these three.
fn read_and_check(alloc: Global, text: &[u8]) -> Result<Accepted, Refused>
    ensures safe { IfOk result (λ a. IsAcceptedText text.now a.name a.functions a.clauses) }
    ensures refused { IfErr result (IsTextRefusal text.now) }
    ensures too_long { IsErrOf result Refused.TooLong ↔ (text_limit < length text.now) }
{
    let read = read_flat(alloc, text)?;
    Ok(check_module(alloc, &read.tree, &read.specs)?)
}

/// What is read of a text, where its module is flat.
///
/// # Errors
///
/// Those of `check_text` without `Types`.
pub fn read_flat(alloc: Global, text: &[u8]) -> Result<ReadModule, Refused>
    ensures read { IfOk result (λ r. IsReadWith text.now r.tree r.specs) }
    ensures refused { IfErr result (IsTextRefusal text.now) }
    ensures too_long { IsErrOf result Refused.TooLong ↔ (text_limit < length text.now) }
    ensures types { (refusal : Failure) → IsErrOf result (Refused.Types refusal) → ⊥ }
{
    match read_text(alloc, text) {
        Ok(read) => flat_or_refused(alloc, text, read),
        Err(fault) => Err(Refused::from(fault)),
    }
}

/// What was read of a text, where its module is flat.
fn flat_or_refused(alloc: Global, text: &[u8], read: ReadModule) -> Result<ReadModule, Refused>
    requires { IsReadModule text.now read.tree read.scopes read.specs }
    ensures read { IfOk result (λ r. IsReadWith text.now r.tree r.specs) }
    ensures refused { IfErr result (IsTextRefusal text.now) }
    ensures short { IsErrOf result Refused.TooLong → ⊥ }
    ensures types { (refusal : Failure) → IsErrOf result (Refused.Types refusal) → ⊥ }
{
    match is_flat_module(alloc, &read.tree) {
        Ok(true) => Ok(read),
        Ok(false) => Err(Refused::NotBuilt),
        Err(NoMemory) => Err(Refused::NoMemory),
    }
}

/// Checks a flat module, whose specs these are.
///
/// # Errors
///
/// `Failed` with the first constraint that fails, and `NoMemory` where memory runs out.
pub fn check_module(alloc: Global, tree: &Module, specs: &Specs) -> Result<Accepted, FirstRefusal>
    requires flat { IsFlatModule tree.now }
    requires specs { module_specs tree.now ≡ Some specs.now }
    ensures accepted { IfOk result (λ a. IsAcceptedModule tree.now a.name a.functions a.clauses) }
    ensures refused { IfErr result (ShowsFirstFailure tree.now) }
{
    check_first(alloc, tree, specs)?;
    let name = tree.name.copy(alloc)?;
    let forms = tree.forms.as_slice();
    Ok(Accepted {
        name,
        functions: count_functions(forms) as u64,
        // Each spec of a flat module has one clause.
        clauses: count_specs(forms) as u64,
    })
}
