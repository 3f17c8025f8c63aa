//! Whether a module is flat.

ghost use Rattle.std.specs.Prelude.{◌≡◌, true, IsTrue, IfOk};
ghost use Rattle.erl_grammar.specs.FormGrammar.{IsModule};
ghost use Rattle.erl_grammar.specs.FormNesting.{IsModuleWithin};
ghost use Rattle.erl_grammar.specs.Nesting.{nesting_limit};
ghost use Rattle.erl_grammar.specs.Texts.{HasIntegersInLimit};
ghost use Rattle.text_reader_rules.specs.Readable.{IsReadable};
ghost use Rattle.flat_modules.specs.FlatModules.{IsFlatModule};

use crate::forms::are_right_forms;
use crate::function_names::has_matching_names;
use erl_tree::Module;
use flat_modules::is_flat;
use std::alloc::Global;
use type_terms::NoMemory;

/// Whether a module is flat: its tree has flat forms alone, each spec has known types, variables are
/// distinct in each head, and each call is of a function of the module.
///
/// The module must be well formed in the grammar of all modules, be nested at most `nesting_limit`
/// levels deep, have integers within the limit, and be readable: its names, types and specs are right.
///
/// # Errors
///
/// `NoMemory` where memory runs out.
pub fn is_flat_module(alloc: Global, module: &Module) -> Result<bool, NoMemory>
    requires well_formed { IsModule «module».now }
    requires within { IsModuleWithin nesting_limit «module».now }
    requires in_limit { HasIntegersInLimit «module».now }
    requires readable { IsReadable «module».now }
    ensures sound { IfOk result (λ answer. IsTrue answer → IsFlatModule «module».now) }
    ensures complete { IfOk result (λ answer. IsFlatModule «module».now → IsTrue answer) }
{
    if !is_flat(module) {
        return Ok(false);
    }
    let forms = module.forms.as_slice();
    if !are_right_forms(forms) {
        return Ok(false);
    }
    has_matching_names(alloc, forms)
}
