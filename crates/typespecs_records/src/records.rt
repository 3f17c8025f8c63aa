//! The records of a module.

ghost use Rattle.std.specs.Prelude.{◌≡◌, IfOk};
ghost use Rattle.erl_runs.specs.Records as declared;
ghost use Rattle.typespecs_records.specs.Records.{records_seen};

use erl_tree::{Module, RecDefKind, TreeForm};
use std::alloc::Global;
use type_terms::NoMemory;

/// The records among forms, in text order.
fn records_among<'a>(alloc: Global, forms: &'a [TreeForm]) -> Result<Vec<&'a RecDefKind>, NoMemory>
    ensures { IfOk result (λ records. records_seen records.items ≡ declared.records_in forms.now) }
{
    let mut records = Vec::new(alloc);
    'forms: for form in forms {
        if let TreeForm::RecDef(declaration) = form {
            records.push(declaration.kind.get())?;
        }
    }
    Ok(records)
}

/// The records of a module, in text order.
///
/// # Errors
///
/// `NoMemory` where memory runs out.
pub(crate) fn records_of<'a>(
    alloc: Global,
    module: &'a Module,
) -> Result<Vec<&'a RecDefKind>, NoMemory>
    ensures { IfOk result (λ records. records_seen records.items ≡ declared.records_of «module».now) }
{
    records_among(alloc, module.forms.as_slice())
}
