//! What the proofs of the crates that read types and specs share: definitions of records that don't lead
//! back and of what a variable stands for by its bound, and lemmas of the rules of types. It states no law.
#![tactic(auto)]
