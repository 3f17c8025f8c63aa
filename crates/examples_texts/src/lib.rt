//! Examples of texts that are safe, and of readable ones that aren't.
#![tactic(auto)]

pub mod examples_of_texts;
