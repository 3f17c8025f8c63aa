//! Shows what types, records and specs of modules mean, or what is wrong with them and where.
//!
//! The program writes the texts of `rows`, by topic, each with its answer. A text is the forms of a
//! module behind its first line, `-module(a).`, so its own first line is line 2.
//!
//! # Answers
//!
//! An answer stands behind its text, indented by two blanks (clauses of specs by four).
//!
//! - `def N PARAMS TERM`: the definition with the number N, which has so many parameters. The
//!   definitions 0 and 1 are given and aren't shown.
//! - `record NAME N: FIELDS`: a record, the number of its definition, and its fields.
//! - `spec NAME/ARITY VARS`: the spec of a function, which has so many variables, and behind it a line
//!   `PARAMS TERM.. -> TERM` for each of its clauses: the number of parameters, their terms, and the
//!   term of the result.
//! - `LINE:COLUMN: WORDS`: the fault, and its place.
//! - `nothing`, where a module declares and specifies nothing.
//!
//! A row of types that stand alone has the forms of a module and, behind `? `, types in lines of their
//! own, which are read one after the other with the types and records of the module and with the same
//! variables. Each gets its term, or its fault with the place in its own line, where `? ` doesn't count.
//! The last line, `names NAME..`, has the variables by their numbers. Where the forms have a fault, it is
//! the whole answer.
//!
//! # Terms
//!
//! `any`, `none`, `int LOW HIGH` (`*` where it is open), `atom A`, `atoms`, `nil`, `cons T T`,
//! `tuple N T..`, `tuples`, `map N FIELD.. REST REST`, `fun N T.. T`, `funs N`, `funs *`, `or N T..`,
//! `and N T..`, `not T`, `var N`, and `name N M T..` for definition N with M arguments. A number in
//! front of terms says how many there are. A field is `req` or `opt`, its key, which is `i INTEGER` or
//! `a ATOM`, and a term. A rest, of integers and of atoms, is `-` or `+ T`.
//!
//! # A new row
//!
//! Its text goes into `rows`, and both text and answer into `stdout`, the stored run. The answer is worked
//! out by hand from the rules, and never taken from the program.
#![tactic(auto)]

mod answers;
mod definitions;
mod faults;
mod rows;
mod single;
mod terms;

use anyhow::{Context, Result};
use std::alloc::Global;
use std::io::{self, BufWriter, Write};

/// A heading.
fn write_heading<W: Write>(out: &mut W, heading: &str) -> Result<()> {
    out.write_all(b"# ")?;
    out.write_all(heading.as_bytes())?;
    out.write_all(b"\n")?;
    Ok(())
}

/// A row with its answer.
fn write_row<W: Write>(out: &mut W, row: &str, answer: &[u8]) -> Result<()> {
    out.write_all(row.as_bytes())?;
    out.write_all(b"\n")?;
    out.write_all(answer)?;
    Ok(())
}

/// The rows of a topic, each with its answer, behind a heading.
fn write_topic<W: Write>(alloc: Global, out: &mut W, heading: &str, rows: &str) -> Result<()> {
    write_heading(out, heading)?;
    for row in rows.split("\n\n") {
        let answer = answers::answer(alloc, row).context(row)?;
        write_row(out, row, answer.as_slice())?;
    }
    out.write_all(b"\n")?;
    Ok(())
}

/// Types that stand alone.
fn write_single_types<W: Write>(alloc: Global, out: &mut W) -> Result<()> {
    write_heading(out, "Types that stand alone")?;
    for row in rows::SINGLE_TYPES.split("\n\n") {
        let answer = single::answer_types(alloc, row).context(row)?;
        write_row(out, row, answer.as_slice())?;
    }
    out.write_all(b"\n")?;
    Ok(())
}

/// What types, records and specs are.
fn write_meanings<W: Write>(alloc: Global, out: &mut W) -> Result<()> {
    write_topic(alloc, out, "Built-in types", rows::BUILT_IN_TYPES)?;
    write_topic(alloc, out, "Literals and operations", rows::LITERALS)?;
    write_topic(alloc, out, "Maps", rows::MAPS)?;
    write_topic(alloc, out, "Declared types", rows::DECLARED_TYPES)?;
    write_topic(alloc, out, "Records", rows::RECORDS)?;
    write_topic(alloc, out, "Specs", rows::SPECS)?;
    write_topic(alloc, out, "Bounds", rows::BOUNDS)?;
    write_topic(alloc, out, "Worked examples", rows::EXAMPLES)
}

/// Each kind of fault.
fn write_faults<W: Write>(alloc: Global, out: &mut W) -> Result<()> {
    write_topic(alloc, out, "No such type", rows::NO_SUCH_TYPE)?;
    write_topic(alloc, out, "Repeated", rows::REPEATED)?;
    write_topic(alloc, out, "Not contractive", rows::NOT_CONTRACTIVE)?;
    write_topic(alloc, out, "Negated fun types", rows::NEGATED_FUN_TYPES)?;
    write_topic(alloc, out, "Record defaults", rows::RECORD_DEFAULTS)?;
    write_topic(alloc, out, "Map keys", rows::MAP_KEYS)?;
    write_topic(alloc, out, "Types out of profile", rows::UNUSABLE_TYPES)?;
    write_topic(alloc, out, "Non-regular types", rows::NON_REGULAR_TYPES)?;
    write_topic(alloc, out, "Cyclic bounds", rows::CYCLIC_BOUNDS)?;
    write_topic(alloc, out, "Arities", rows::ARITIES)?;
    write_topic(alloc, out, "Empty ranges", rows::EMPTY_RANGES)?;
    write_topic(alloc, out, "Two faults", rows::TWO_FAULTS)?;
    write_topic(
        alloc,
        out,
        "Faults of terms beside others",
        rows::FAULTS_BESIDE,
    )
}

fn main(rt: HostRuntime) -> Result<()> {
    let alloc = rt.alloc();
    let mut out = BufWriter::new(alloc, io::writer(&rt))?;
    write_meanings(alloc, &mut out)?;
    write_faults(alloc, &mut out)?;
    write_single_types(alloc, &mut out)?;
    out.flush()?;
    Ok(())
}
