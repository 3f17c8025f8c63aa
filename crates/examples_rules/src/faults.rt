//! Which modules have specs, and which of a module's faults is the first, each the contract of a function that does nothing.

ghost use Rattle.std.specs.Prelude.{◌≡◌, [], ◌∷◌, map, Some, None, true, false};
ghost use Rattle.typespecs_rules.specs.declared.specs.Specs.{Specs};
ghost use Rattle.typespecs_rules.specs.declared.fault.PlacedFault.{PlacedFault};
ghost use Rattle.typespecs_rules.specs.declared.fault.TypeFault.TheVariants.{NoSuchType, Repeated, NotContractive, NegatedFun, OutOfProfile, ArityDiffers, BadRange};
ghost use Rattle.typespecs_rules.specs.declared.fault.Outside.TheVariants.{RecordDefault, MapKey, UnusableType, NonRegularType, CyclicBound};
ghost use Rattle.typespecs_rules.specs.TypeFaults.{listed_faults, rank, is_earlier, IsFirstFault, HasSpecs};
ghost use Rattle.typespecs_rules.specs.Earliest.{earliest};
ghost use Rattle.typespecs_rules.specs.SmallModules.{fault, unknown_type, negated_variable, own_alternative, bounded_once};
ghost use Rattle.examples_rules.specs.SmallFaults.{two_faults};

/// A module has no specs where a type is used that isn't there, as in `-type t() :: foo().`; where a spec negates a variable, as in
/// `-spec f(ety:negation(A)) -> a.`; and where a type reaches itself under no constructor, as in `-type t() :: t() | a.`.
pub fn modules_without_specs()
    ensures unknown_type { (s : Specs) → HasSpecs unknown_type s → ⊥ }
    ensures negated_variable { (s : Specs) → HasSpecs negated_variable s → ⊥ }
    ensures own_alternative { (s : Specs) → HasSpecs own_alternative s → ⊥ }
{}

/// In `-spec f(foo()) -> a; () -> a.` the second clause has another number of parameters than the first one, and this fault is listed
/// before the unknown type in the first clause. The unknown type is the first fault, since it stands first in the text. The other
/// fault isn't the first, and neither is one that the module hasn't, however early it stands.
pub fn the_first_fault()
    ensures listed { listed_faults two_faults ≡ fault ArityDiffers 2 22 ∷ fault NoSuchType 2 9 ∷ [] }
    ensures earlier { IsFirstFault two_faults (fault NoSuchType 2 9) }
    ensures later { IsFirstFault two_faults (fault ArityDiffers 2 22) → ⊥ }
    ensures no_fault_of_it { IsFirstFault two_faults (fault NoSuchType 2 8) → ⊥ }
{}

/// `-spec f(X) -> Y when X :: integer(), Y :: integer().` has no fault that is the first.
pub fn no_first_fault()
    ensures { (f : PlacedFault) → IsFirstFault bounded_once f → ⊥ }
{}

/// A fault is earlier than one in a later line, and in a later column of its line, whatever their kinds are, and at one place than one
/// whose kind is named behind its own. It is no earlier than itself.
pub fn earlier_faults()
    ensures line { is_earlier (fault BadRange 2 20) (fault NoSuchType 3 4) ≡ true }
    ensures line_back { is_earlier (fault NoSuchType 3 4) (fault BadRange 2 20) ≡ false }
    ensures column { is_earlier (fault BadRange 2 4) (fault NoSuchType 2 20) ≡ true }
    ensures column_back { is_earlier (fault NoSuchType 2 20) (fault BadRange 2 4) ≡ false }
    ensures kind { is_earlier (fault (OutOfProfile MapKey) 2 4) (fault BadRange 2 4) ≡ true }
    ensures kind_back { is_earlier (fault BadRange 2 4) (fault (OutOfProfile MapKey) 2 4) ≡ false }
    ensures itself { is_earlier (fault BadRange 2 4) (fault BadRange 2 4) ≡ false }
{}

/// The order of the kinds at one place: what is out of the profile stands behind `NegatedFun`, in its own order.
pub fn ranks()
    ensures { map rank (NoSuchType ∷ Repeated ∷ NotContractive ∷ NegatedFun ∷ OutOfProfile RecordDefault ∷ OutOfProfile MapKey ∷ OutOfProfile UnusableType ∷ OutOfProfile NonRegularType ∷ OutOfProfile CyclicBound ∷ ArityDiffers ∷ BadRange ∷ []) ≡ 0 ∷ 1 ∷ 2 ∷ 3 ∷ 4 ∷ 5 ∷ 6 ∷ 7 ∷ 8 ∷ 9 ∷ 10 ∷ [] }
{}

/// Of no faults none is the earliest, and behind none the one that stands stays. Of two it is the one that stands first in the text,
/// or at one place the one whose kind is named first, whichever is listed first.
pub fn the_earliest_fault()
    ensures of_none { earliest None [] ≡ None }
    ensures of_the_standing { earliest (Some (fault NoSuchType 2 4)) [] ≡ Some (fault NoSuchType 2 4) }
    ensures in_order { earliest None (fault BadRange 2 4 ∷ fault NoSuchType 2 20 ∷ []) ≡ Some (fault BadRange 2 4) }
    ensures turned { earliest None (fault NoSuchType 2 20 ∷ fault BadRange 2 4 ∷ []) ≡ Some (fault BadRange 2 4) }
    ensures later_than_the_standing { earliest (Some (fault BadRange 2 4)) (fault NoSuchType 2 20 ∷ []) ≡ Some (fault BadRange 2 4) }
    ensures earlier_than_the_standing { earliest (Some (fault NoSuchType 2 20)) (fault BadRange 2 4 ∷ []) ≡ Some (fault BadRange 2 4) }
    ensures one_place_in_order { earliest None (fault Repeated 2 4 ∷ fault ArityDiffers 2 4 ∷ []) ≡ Some (fault Repeated 2 4) }
    ensures one_place_turned { earliest None (fault ArityDiffers 2 4 ∷ fault Repeated 2 4 ∷ []) ≡ Some (fault Repeated 2 4) }
{}
