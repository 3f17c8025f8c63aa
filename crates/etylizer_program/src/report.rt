ghost use Rattle.std.specs.Prelude.{◌≡◌, ◌∷◌, ◌++◌, [], OnOk, IfOk, codes, decimal, flat_map};
ghost use Rattle.std.specs.List.{list_all};
ghost use Rattle.std.specs.Fmt.{signed_decimal};
ghost use Rattle.erl_tree.specs.Lexis.{is_name};
ghost use Rattle.etylizer_program.specs.Report.{begins_lower, is_plain_atom, escaped, atom_text, key_text, keys_text, missing_text, kind_text, shown_text, place_text, words_text, report_text};

use cert_checker::Shown;
use erl_lexer::is_reserved;
use erl_tree::Place;
use itoa::Buffer;
use std::alloc::{AllocError, Global};
use type_terms::{Bytes, Key, Kind, NoMemory, Text};

/// What the program says of a command line or a text.
#[derive(Drop)]
pub enum Verdict {
    /// The text is a safe module, with so many functions and spec clauses.
    Accepted {
        name: Text,
        functions: u64,
        clauses: u64,
    },
    /// The element is in the left side of a constraint and not in its right side.
    Failed {
        name: Text,
        function: Text,
        arity: u64,
        /// The spec's clause, counted from 1.
        clause: u64,
        place: Place,
        kind: Kind,
        shown: Shown,
    },
    /// The text is UTF-8, within the limit of length, and no module, or one whose names, types or specs are
    /// wrong: why, and where.
    NotText {
        place: Place,
        words: Words,
    },
    /// The text is within the limit of length and isn't UTF-8: the first ill-formed sequence begins at
    /// this byte, counted from 0.
    NotUtf8 {
        at: u64,
    },
    /// The text is longer than a module may be.
    TooLong,
    /// The text is a module whose names, types and specs are right, and which isn't flat.
    NotBuilt,
    /// The words are no command.
    Usage,
}

/// Why a text is no module with right names, types and specs.
#[derive(Drop)]
pub enum Words {
    BadToken,
    BadEscape,
    NumberTooWide,
    /// A form outside of the profile, by its name.
    OutOfProfile(Text),
    /// The token fits nowhere.
    Unexpected,
    /// A node that is nested deeper than 256 levels.
    TooDeep,
    /// A variable is used that isn't bound.
    UnboundVariable,
    /// A variable that isn't bound was bound inside a construct that ended before it.
    UnsafeVariable,
    /// A function is named that isn't there.
    NoSuchFunction,
    /// A function is defined anew, or one that is built in.
    TwoFunctions,
    /// A function without a spec.
    NoSpec,
    /// A record that isn't declared.
    NoSuchRecord,
    /// A field that its record doesn't have.
    NoSuchField,
    /// A field, a type, a record, a spec, a key or a bounded variable that stands twice.
    Repeated,
    /// A clause with another number of patterns or parameters than the first one.
    ArityDiffers,
    /// A type, a record or a field in a type that isn't declared.
    NoSuchType,
    /// A type that reaches itself under no constructor.
    NotContractive,
    /// A fun type or a variable under an odd number of negations.
    NegatedFun,
    /// A range whose lower end is above the upper one.
    EmptyRange,
}

/// The text of a verdict: one line.
///
/// # Errors
///
/// `NoMemory` where memory runs out.
pub fn report(alloc: Global, verdict: &Verdict) -> Result<Bytes, NoMemory>
    ensures { IfOk result (λ bytes. bytes ≡ report_text verdict.now) }
{
    let mut out = Vec::new(alloc);
    push_verdict(&mut out, verdict)?;
    Ok(Bytes::from_vec(out))
}

fn push_verdict(out: &mut Vec<u8>, verdict: &Verdict) -> Result<(), AllocError>
    ensures { OnOk result (out.new.items ≡ out.old.items ++ report_text verdict.now) }
{
    match verdict {
        Verdict::Accepted {
            name,
            functions,
            clauses,
        } => push_accepted(out, name.as_slice(), *functions, *clauses),
        Verdict::Failed {
            name,
            function,
            arity,
            clause,
            place,
            kind,
            shown,
        } => {
            push_place_of_failure(out, name.as_slice(), function.as_slice(), *arity, *clause)?;
            push_failure(out, *place, *kind, shown)?;
            Ok(())
        }
        Verdict::NotText { place, words } => push_not_text(out, *place, words),
        Verdict::NotUtf8 { at } => push_not_utf8(out, *at),
        Verdict::TooLong => out.extend_from_slice(b"not a module: over 1048576 bytes\n"),
        Verdict::NotBuilt => out.extend_from_slice(b"not a module: not built yet\n"),
        Verdict::Usage => out.extend_from_slice(b"usage: etylizer check FILE\n"),
    }
}

fn push_not_text(out: &mut Vec<u8>, place: Place, words: &Words) -> Result<(), AllocError>
    ensures { OnOk result (out.new.items ≡ out.old.items ++ (codes "not a module: " ++ (place_text place ++ (codes ": " ++ (words_text words.now ++ codes "\n"))))) }
{
    out.extend_from_slice(b"not a module: ")?;
    push_place(out, place)?;
    out.extend_from_slice(b": ")?;
    push_words(out, words)?;
    out.extend_from_slice(b"\n")?;
    Ok(())
}

fn push_words(out: &mut Vec<u8>, words: &Words) -> Result<(), AllocError>
    ensures { OnOk result (out.new.items ≡ out.old.items ++ words_text words.now) }
{
    match words {
        Words::BadToken => out.extend_from_slice(b"bad token"),
        Words::BadEscape => out.extend_from_slice(b"bad escape"),
        Words::NumberTooWide => out.extend_from_slice(b"number too wide"),
        Words::OutOfProfile(form) => push_outside(out, form.as_slice()),
        Words::Unexpected => out.extend_from_slice(b"unexpected"),
        Words::TooDeep => out.extend_from_slice(b"nested too deep"),
        Words::UnboundVariable => out.extend_from_slice(b"unbound variable"),
        Words::UnsafeVariable => out.extend_from_slice(b"unsafe variable"),
        Words::NoSuchFunction => out.extend_from_slice(b"no such function"),
        Words::TwoFunctions => out.extend_from_slice(b"function defined twice"),
        Words::NoSpec => out.extend_from_slice(b"no spec"),
        Words::NoSuchRecord => out.extend_from_slice(b"no such record"),
        Words::NoSuchField => out.extend_from_slice(b"no such field"),
        Words::Repeated => out.extend_from_slice(b"repeated"),
        Words::ArityDiffers => out.extend_from_slice(b"arity differs"),
        Words::NoSuchType => out.extend_from_slice(b"no such type"),
        Words::NotContractive => out.extend_from_slice(b"not contractive"),
        Words::NegatedFun => out.extend_from_slice(b"negated fun type"),
        Words::EmptyRange => out.extend_from_slice(b"empty range"),
    }
}

fn push_outside(out: &mut Vec<u8>, form: &[u8]) -> Result<(), AllocError>
    ensures { OnOk result (out.new.items ≡ out.old.items ++ (codes "out of profile: " ++ form.now)) }
{
    out.extend_from_slice(b"out of profile: ")?;
    out.extend_from_slice(form)
}

fn push_not_utf8(out: &mut Vec<u8>, at: u64) -> Result<(), AllocError>
    ensures { OnOk result (out.new.items ≡ out.old.items ++ (codes "not a module: byte " ++ (decimal at ++ codes ": not UTF-8\n"))) }
{
    out.extend_from_slice(b"not a module: byte ")?;
    push_number(out, at)?;
    out.extend_from_slice(b": not UTF-8\n")?;
    Ok(())
}

fn push_accepted(
    out: &mut Vec<u8>,
    name: &[u8],
    functions: u64,
    clauses: u64,
) -> Result<(), AllocError>
    ensures { OnOk result (out.new.items ≡ out.old.items ++ (codes "accepted " ++ (atom_text name.now ++ (codes ": " ++ (decimal functions ++ (codes " functions, " ++ (decimal clauses ++ codes " clauses\n"))))))) }
{
    out.extend_from_slice(b"accepted ")?;
    push_atom(out, name)?;
    out.extend_from_slice(b": ")?;
    push_number(out, functions)?;
    out.extend_from_slice(b" functions, ")?;
    push_number(out, clauses)?;
    out.extend_from_slice(b" clauses\n")?;
    Ok(())
}

fn push_place_of_failure(
    out: &mut Vec<u8>,
    name: &[u8],
    function: &[u8],
    arity: u64,
    clause: u64,
) -> Result<(), AllocError>
    ensures { OnOk result (out.new.items ≡ out.old.items ++ (codes "refused " ++ (atom_text name.now ++ (codes ": " ++ (atom_text function.now ++ (codes "/" ++ (decimal arity ++ (codes " clause " ++ decimal clause)))))))) }
{
    out.extend_from_slice(b"refused ")?;
    push_atom(out, name)?;
    out.extend_from_slice(b": ")?;
    push_atom(out, function)?;
    out.extend_from_slice(b"/")?;
    push_number(out, arity)?;
    out.extend_from_slice(b" clause ")?;
    push_number(out, clause)?;
    Ok(())
}

fn push_failure(
    out: &mut Vec<u8>,
    place: Place,
    kind: Kind,
    shown: &Shown,
) -> Result<(), AllocError>
    ensures { OnOk result (out.new.items ≡ out.old.items ++ (codes " at " ++ (place_text place ++ (codes ": " ++ (kind_text kind ++ (codes ": " ++ (shown_text shown.now ++ codes "\n"))))))) }
{
    out.extend_from_slice(b" at ")?;
    push_place(out, place)?;
    out.extend_from_slice(b": ")?;
    out.extend_from_slice(kind_word(kind).as_bytes())?;
    out.extend_from_slice(b": ")?;
    push_shown(out, shown)?;
    out.extend_from_slice(b"\n")?;
    Ok(())
}

/// `line:column`.
fn push_place(out: &mut Vec<u8>, place: Place) -> Result<(), AllocError>
    ensures { OnOk result (out.new.items ≡ out.old.items ++ place_text place) }
{
    push_number(out, u64::from(place.line))?;
    out.extend_from_slice(b":")?;
    push_number(out, u64::from(place.column))?;
    Ok(())
}

fn push_number(out: &mut Vec<u8>, number: u64) -> Result<(), AllocError>
    ensures { OnOk result (out.new.items ≡ out.old.items ++ decimal number) }
{
    out.extend_from_slice(Buffer::new().format(number).as_bytes())
}

fn push_integer(out: &mut Vec<u8>, number: i128) -> Result<(), AllocError>
    ensures { OnOk result (out.new.items ≡ out.old.items ++ signed_decimal number) }
{
    out.extend_from_slice(Buffer::new().format(number).as_bytes())
}

fn kind_word(kind: Kind) -> &'static str
    ensures { result.now ≡ kind_text kind }
{
    match kind {
        Kind::Skip => "skip",
        Kind::Variable => "variable",
        Kind::Uncovered => "uncovered",
        Kind::Result => "result",
        Kind::Operand => "operand",
        Kind::List => "list",
        Kind::Part => "part",
        Kind::Call => "call",
        Kind::Apply => "apply",
        Kind::Key => "key",
        Kind::Update => "update",
        Kind::Filter => "filter",
    }
}

/// An element: an integer, an atom, or a fun.
fn push_shown(out: &mut Vec<u8>, shown: &Shown) -> Result<(), AllocError>
    ensures { OnOk result (out.new.items ≡ out.old.items ++ shown_text shown.now) }
{
    match shown {
        Shown::One(key) => push_key(out, key),
        Shown::Missing(keys) => push_missing(out, keys.as_slice()),
    }
}

/// The fun that fails on these arguments.
fn push_missing(out: &mut Vec<u8>, keys: &[Key]) -> Result<(), AllocError>
    ensures { OnOk result (out.new.items ≡ out.old.items ++ missing_text keys.now) }
{
    out.extend_from_slice(b"fun/")?;
    push_number(out, keys.len() as u64)?;
    out.extend_from_slice(b"{(")?;
    push_keys(out, keys)?;
    out.extend_from_slice(b") -> fails}")?;
    Ok(())
}

/// Keys with commas between them.
fn push_keys(out: &mut Vec<u8>, keys: &[Key]) -> Result<(), AllocError>
    ensures { OnOk result (out.new.items ≡ out.old.items ++ keys_text keys.now) }
{
    let Some((first, more)) = keys.split_first() else {
        return Ok(());
    };
    push_key(out, first)?;
    push_more_keys(out, more)
}

/// Each key behind a comma.
fn push_more_keys(out: &mut Vec<u8>, keys: &[Key]) -> Result<(), AllocError>
    ensures { OnOk result (out.new.items ≡ out.old.items ++ flat_map (λ key. 44 ∷ key_text key) keys.now) }
{
    'keys: for key in keys {
        out.extend_from_slice(b",")?;
        push_key(out, key)?;
    }
    Ok(())
}

fn push_key(out: &mut Vec<u8>, key: &Key) -> Result<(), AllocError>
    ensures { OnOk result (out.new.items ≡ out.old.items ++ key_text key.now) }
{
    match key {
        Key::Int(number) => push_integer(out, *number),
        Key::Atom(name) => push_atom(out, name.as_slice()),
    }
}

/// An atom as it is written: plain where it may be, and otherwise between quotes.
#[tactic(auto, unfolding(crate::specs::Report::atom_text))]
fn push_atom(out: &mut Vec<u8>, name: &[u8]) -> Result<(), AllocError>
    ensures { OnOk result (out.new.items ≡ out.old.items ++ atom_text name.now) }
{
    if is_plain_atom(name) {
        out.extend_from_slice(name)?;
        return Ok(());
    }
    out.extend_from_slice(b"'")?;
    push_escaped(out, name)?;
    out.extend_from_slice(b"'")?;
    Ok(())
}

/// A backslash before each quote and each backslash.
fn push_escaped(out: &mut Vec<u8>, name: &[u8]) -> Result<(), AllocError>
    ensures { OnOk result (out.new.items ≡ out.old.items ++ flat_map escaped name.now) }
{
    'bytes: for byte in name {
        if *byte == b'\'' || *byte == b'\\' {
            out.push(b'\\')?;
        }
        out.push(*byte)?;
    }
    Ok(())
}

/// Whether an atom is written without quotes.
fn is_plain_atom(name: &[u8]) -> bool
    ensures { result ≡ is_plain_atom name.now }
{
    begins_lower(name) && has_only_name_bytes(name) && !is_reserved(name)
}

/// Whether a small letter comes first.
fn begins_lower(name: &[u8]) -> bool
    ensures { result ≡ begins_lower name.now }
{
    match name {
        [] => false,
        [first, ..] => *first >= b'a' && *first <= b'z',
    }
}

fn has_only_name_bytes(name: &[u8]) -> bool
    ensures { result ≡ list_all is_name name.now }
{
    name.iter().all(|byte| is_name_byte(*byte))
}

/// Letters, digits, `_` and `@`.
fn is_name_byte(byte: u8) -> bool
    ensures { result ≡ is_name byte }
{
    byte.is_ascii_alphanumeric() || byte == b'_' || byte == b'@'
}
