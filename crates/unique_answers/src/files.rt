//! What a load of files that tell what they hold answers: `Files::load` of `tool_io`.

ghost use Rattle.std.specs.Prelude.{◌≡◌, ℕ, List};
ghost use Rattle.tool_io.specs.Outside.{Holdings, Loads};

/// A load of a name that is held gives one text.
pub fn one_load()
    ensures { (files : Holdings) (name : List ℕ) (limit : ℕ) (a b : List ℕ) → Loads files name limit a → Loads files name limit b → a ≡ b }
{}
