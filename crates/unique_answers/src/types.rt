//! What `read_specs` and `answer_for` of `typespecs` answer, and `term_of` of `typespecs_single`.

ghost use Rattle.std.specs.Prelude.{◌≡◌, ◌≢◌, [], IfSome, Some};
ghost use Rattle.erl_tree.specs.declared.form.Module.{Module};
ghost use Rattle.erl_tree.specs.declared.token.Node.{Node};
ghost use Rattle.erl_tree.specs.declared.type_expr.TypeKind.{TypeKind};
ghost use Rattle.typespecs_rules.specs.Declarations.{Declarations};
ghost use Rattle.typespecs_rules.specs.TypeFaults.{HasSpecs, IsFirstFault, IsFirstTypeFault, any_variable, type_faults};
ghost use Rattle.typespecs_rules.specs.declared.fault.PlacedFault.{PlacedFault};
ghost use Rattle.typespecs_rules.specs.declared.specs.Specs.{Specs};
ghost use Rattle.typespecs.specs.FaultPlaces.{placed_fault};
ghost use Rattle.typespecs.specs.declared.fault.SpecFault.{SpecFault};
ghost use Rattle.typespecs.specs.declared.fault.SpecFault.TheVariants.{NoMemory};

/// A module has one meaning of its types, records and specs, or one first fault.
pub fn specs_or_one_fault()
    ensures one_meaning { (m : Module) (s t : Specs) → HasSpecs m s → HasSpecs m t → s ≡ t }
    ensures one_fault { (m : Module) (f g : SpecFault) → IfSome (placed_fault f) (IsFirstFault m) → IfSome (placed_fault g) (IsFirstFault m) → f ≢ NoMemory → g ≢ NoMemory → f ≡ g }
    ensures never_both { (m : Module) (s : Specs) (f : SpecFault) → HasSpecs m s → IfSome (placed_fault f) (IsFirstFault m) → f ≡ NoMemory }
{}

/// A type expression that stands alone is right, or has one first fault. Its term, where it is right, is told by an equation.
pub fn right_type_or_one_fault()
    ensures one_fault { (d : Declarations) (t : Node TypeKind) (f g : SpecFault) →
        IfSome (placed_fault f) (IsFirstTypeFault d t) → IfSome (placed_fault g) (IsFirstTypeFault d t) → f ≢ NoMemory → g ≢ NoMemory → f ≡ g }
    ensures never_both { (d : Declarations) (t : Node TypeKind) (f : SpecFault) → type_faults d any_variable t ≡ [] → IfSome (placed_fault f) (IsFirstTypeFault d t) → f ≡ NoMemory }
{}

/// One answer tells a fault at a place.
pub fn one_answer_for_a_fault()
    ensures { (found : PlacedFault) (f g : SpecFault) → placed_fault f ≡ Some found → placed_fault g ≡ Some found → f ≡ g }
{}
