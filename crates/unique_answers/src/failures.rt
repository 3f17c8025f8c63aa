//! What `check_first` of `cert_checker` answers where it takes a module, and which constraint it tells where it doesn't. The element
//! that is shown isn't fixed: any one that refutes the constraint may come.

ghost use Rattle.std.specs.Prelude.{◌≡◌, ℕ};
ghost use Rattle.type_terms.specs.declared.spec.Kind.{Kind};
ghost use Rattle.erl_tree.specs.declared.form.Module.{Module};
ghost use Rattle.erl_tree.specs.declared.token.Place.{Place};
ghost use Rattle.cert_checker.specs.Failures.{MeetsConstraints, ShowsFirstFailure};
ghost use Rattle.cert_checker.specs.declared.refusal.FirstRefusal.{FirstRefusal};
ghost use Rattle.cert_checker.specs.declared.refusal.FirstRefusal.TheVariants.{Failed, NoMemory};
ghost use Rattle.cert_checker.specs.declared.refusal.Shown.{Shown};

/// A module meets its constraints, or one of them is the first that fails.
pub fn constraints_or_one_failure()
    ensures one_failure { (m : Module) (f g : ℕ) (p q : Place) (k l : Kind) (s t : Shown) →
        ShowsFirstFailure m (Failed f p k s) → ShowsFirstFailure m (Failed g q l t) → (f ≡ g) × ((p ≡ q) × (k ≡ l)) }
    ensures never_both { (m : Module) (refusal : FirstRefusal) → MeetsConstraints m → ShowsFirstFailure m refusal → refusal ≡ NoMemory }
{}
