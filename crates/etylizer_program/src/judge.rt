ghost use Rattle.std.specs.Prelude.{◌≡◌, ◌<◌, ◌≤◌, ℕ, List as Listed, Some, length, IfOk};
ghost use Rattle.erl_tree.specs.Functions.{functions_of};
ghost use Rattle.typespecs_rules.specs.SpecTerms.{module_specs};
ghost use Rattle.typespecs_rules.specs.TypeFaults as type_faults;
ghost use Rattle.flat_modules.specs.FlatModules.{IsFlatModule};
ghost use Rattle.cert_checker.specs.Failures.{ShowsFirstFailure};
ghost use Rattle.text_reader.specs.Modules.{text_limit};
ghost use Rattle.text_reader.specs.Refusals.{IsFirstFault, IsParseRefusal, IsScopeRefusal, IsSpecRefusal};
ghost use Rattle.etylizer_program.specs.Check.{IsModuleVerdict, IsRightVerdict};

use crate::check::{Refused, check_module, read_flat};
use crate::count::function_at;
use crate::report::{Verdict, Words};
use cert_checker::{FirstRefusal, Shown};
use erl_lexer::LexFault;
use erl_parser::ParseFault;
use erl_scope::ScopeFault;
use erl_tree::{Module, Place};
use std::alloc::Global;
use type_terms::{Kind, NoMemory, Plain, Text};
use typespecs::SpecFault;
use typespecs_rules::{Outside, Specs};

/// What is to be said of a module's text.
pub fn judge(alloc: Global, text: &[u8]) -> Result<Verdict, NoMemory>
    ensures { IfOk result (IsRightVerdict text.now) }
{
    match read_flat(alloc, text) {
        Ok(read) => judge_module(alloc, &read.tree, &read.specs),
        Err(Refused::NoMemory) => Err(NoMemory),
        Err(Refused::TooLong) => Ok(Verdict::TooLong),
        Err(Refused::Lex(fault)) => fault_verdict(fault),
        Err(Refused::Parse(fault)) => parse_verdict(fault),
        Err(Refused::Scope(fault)) => scope_verdict(fault),
        Err(Refused::Spec(fault)) => spec_verdict(alloc, fault),
        Err(Refused::NotBuilt) => Ok(Verdict::NotBuilt),
        Err(Refused::Types(_)) => unreachable!(),
    }
}

/// The verdict on a text that is refused at a place.
fn not_text(place: Place, words: Words) -> Verdict
    ensures { result ≡ Verdict.NotText place words }
{
    Verdict::NotText { place, words }
}

/// The verdict on a text with a fault of the lexer.
fn fault_verdict(fault: LexFault) -> Result<Verdict, NoMemory>
    ensures { IfOk result (λ verdict. (text : Listed ℕ) → IsFirstFault text fault → length text ≤ text_limit → IsRightVerdict text verdict) }
{
    match fault {
        LexFault::NoMemory => Err(NoMemory),
        LexFault::NotUtf8(at) => Ok(Verdict::NotUtf8 { at }),
        LexFault::OutOfProfile(place, form) => Ok(not_text(place, Words::OutOfProfile(form))),
        LexFault::WideNumber(place) => Ok(not_text(place, Words::NumberTooWide)),
        LexFault::BadEscape(place) => Ok(not_text(place, Words::BadEscape)),
        LexFault::BadToken(place) => Ok(not_text(place, Words::BadToken)),
    }
}

/// The verdict on a text whose tokens the parser refuses.
fn parse_verdict(fault: ParseFault) -> Result<Verdict, NoMemory>
    ensures { IfOk result (λ verdict. (text : Listed ℕ) → IsParseRefusal text fault → length text ≤ text_limit → IsRightVerdict text verdict) }
{
    match fault {
        ParseFault::NoMemory => Err(NoMemory),
        ParseFault::OutOfProfile(place, form) => Ok(not_text(place, Words::OutOfProfile(form))),
        ParseFault::Unexpected(place) => Ok(not_text(place, Words::Unexpected)),
        ParseFault::TooDeep(place) => Ok(not_text(place, Words::TooDeep)),
    }
}

/// The verdict on a text whose module has wrong names.
fn scope_verdict(fault: ScopeFault) -> Result<Verdict, NoMemory>
    ensures { IfOk result (λ verdict. (text : Listed ℕ) → IsScopeRefusal text fault → length text ≤ text_limit → IsRightVerdict text verdict) }
{
    match fault {
        ScopeFault::NoMemory => Err(NoMemory),
        ScopeFault::Unbound(place) => Ok(not_text(place, Words::UnboundVariable)),
        ScopeFault::Unsafe(place) => Ok(not_text(place, Words::UnsafeVariable)),
        ScopeFault::NoSuchFunction(place) => Ok(not_text(place, Words::NoSuchFunction)),
        ScopeFault::TwoFunctions(place) => Ok(not_text(place, Words::TwoFunctions)),
        ScopeFault::NoSpec(place) => Ok(not_text(place, Words::NoSpec)),
        ScopeFault::NoSuchRecord(place) => Ok(not_text(place, Words::NoSuchRecord)),
        ScopeFault::NoSuchField(place) => Ok(not_text(place, Words::NoSuchField)),
        ScopeFault::Repeated(place) => Ok(not_text(place, Words::Repeated)),
        ScopeFault::ArityDiffers(place) => Ok(not_text(place, Words::ArityDiffers)),
    }
}

/// What is out of the profile, in words.
fn outside_words(alloc: Global, what: Outside) -> Result<Text, NoMemory>
    ensures { IfOk result (λ words. words ≡ type_faults.outside_words what) }
{
    let words: &[u8] = match what {
        Outside::RecordDefault => b"record default",
        Outside::MapKey => b"map key",
        Outside::UnusableType => b"type",
        Outside::NonRegularType => b"non-regular type",
        Outside::CyclicBound => b"cyclic bound",
    };
    Ok(Text::from_slice(alloc, words)?)
}

/// The verdict on a text with whose module's types, records or specs something is wrong.
fn spec_verdict(alloc: Global, fault: SpecFault) -> Result<Verdict, NoMemory>
    ensures { IfOk result (λ verdict. (text : Listed ℕ) → IsSpecRefusal text fault → length text ≤ text_limit → IsRightVerdict text verdict) }
{
    match fault {
        SpecFault::NoMemory => Err(NoMemory),
        SpecFault::NoSuchType(place) => Ok(not_text(place, Words::NoSuchType)),
        SpecFault::Repeated(place) => Ok(not_text(place, Words::Repeated)),
        SpecFault::NotContractive(place) => Ok(not_text(place, Words::NotContractive)),
        SpecFault::NegatedFun(place) => Ok(not_text(place, Words::NegatedFun)),
        SpecFault::OutOfProfile(place, what) => {
            let form = outside_words(alloc, what)?;
            Ok(not_text(place, Words::OutOfProfile(form)))
        }
        SpecFault::ArityDiffers(place) => Ok(not_text(place, Words::ArityDiffers)),
        SpecFault::BadRange(place) => Ok(not_text(place, Words::EmptyRange)),
    }
}

/// What is to be said of a flat module, whose specs these are.
fn judge_module(alloc: Global, tree: &Module, specs: &Specs) -> Result<Verdict, NoMemory>
    requires flat { IsFlatModule tree.now }
    requires specs { module_specs tree.now ≡ Some specs.now }
    ensures { IfOk result (IsModuleVerdict tree.now) }
{
    match check_module(alloc, tree, specs) {
        Ok(accepted) => Ok(Verdict::Accepted {
            name: accepted.name,
            functions: accepted.functions,
            clauses: accepted.clauses,
        }),
        Err(FirstRefusal::NoMemory) => Err(NoMemory),
        Err(
            FirstRefusal::Failed {
                function,
                place,
                kind,
                shown,
            },
        ) => failed_verdict(alloc, tree, function, place, kind, shown),
    }
}

/// The verdict on a constraint that fails, in the function with this number.
fn failed_verdict(
    alloc: Global,
    tree: &Module,
    number: usize,
    place: Place,
    kind: Kind,
    shown: Shown,
) -> Result<Verdict, NoMemory>
    requires shown { ShowsFirstFailure tree.now (FirstRefusal.Failed number place kind shown) }
    requires counted { number < length (functions_of tree.now) }
    ensures { IfOk result (IsModuleVerdict tree.now) }
{
    let function = function_at(tree.forms.as_slice(), number).unwrap();
    let name = tree.name.copy(alloc)?;
    let function_name = function.name.copy(alloc)?;
    Ok(Verdict::Failed {
        name,
        function: function_name,
        arity: function.arity() as u64,
        clause: 1,
        place,
        kind,
        shown,
    })
}
