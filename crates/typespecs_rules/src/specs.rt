//! What the types, records and specs of a module are.

use type_terms::{Defs, FunSpec, List, Text};

/// A declared type: its name, and the number of its parameters.
#[derive(Drop)]
pub struct TypeName {
    pub name: Text,
    pub params: u32,
}

/// A declared record: its name, the names of its fields, and the number of its definition.
#[derive(Drop)]
pub struct RecordSpec {
    pub name: Text,
    pub fields: List<Text>,
    pub def: u32,
}

/// All that a module's type declarations, records and specs are.
#[derive(Drop)]
pub struct Specs {
    /// The definitions: those that are given, the module's types in text order, its records in text order.
    pub defs: Defs,
    /// The declared types in text order; their definitions have the numbers from 2 on.
    pub types: List<TypeName>,
    /// The specs in text order.
    pub functions: List<FunSpec>,
    /// The records in text order.
    pub records: List<RecordSpec>,
}
