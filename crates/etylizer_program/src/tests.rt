ghost use Rattle.std.specs.Prelude.{◌≡◌, ℕ, List, [], ◌∷◌, IfOk};

use crate::check::{Refused, check_text};
use crate::report::{Verdict, report};
use crate::tool::{Status, run_tool};
use cert_checker::{FirstRefusal, Shown};
use erl_lexer::{LexFault, lex};
use erl_parser::{ParseFault, parse};
use erl_scope::{ScopeFault, resolve};
use erl_tree::Place;
use std::alloc::Global;
use std::process::Abort;
use std::test::Fail;
use tool_io::{MemoryFiles, MemorySink, SureFiles, SureSink};
use type_terms::{Bytes, Key, Kind, List, NoMemory, Text};
use typespecs::SpecFault;

const IDENTITY: &[u8] = b"-module(a).\n-spec f(integer()) -> integer().\nf(X) -> X.\n";

/// Runs the tool over files that hold a text under `m`. Gives the status and what was written.
fn run(alloc: Global, words: &[&str], text: &[u8]) -> Result<(Status, Bytes), NoMemory> {
    let mut files = SureFiles::new(alloc, held(alloc, text)?);
    let mut out = SureSink::new(alloc);
    let status = run_tool(alloc, &words_of(alloc, words)?, &mut files, &mut out);
    let written = Bytes::from_slice(alloc, out.bytes().as_slice())?;
    Ok((status, written))
}

fn words_of(alloc: Global, words: &[&str]) -> Result<Vec<String>, NoMemory> {
    let mut all_words = Vec::new(alloc);
    for word in words {
        all_words.push(String::from_str(alloc, word)?)?;
    }
    Ok(all_words)
}

/// A text under the name `m`.
fn held(alloc: Global, text: &[u8]) -> Result<List<(Text, Bytes)>, NoMemory>
    ensures { IfOk result (λ pairs. (pair : List ℕ × List ℕ) × (pairs ≡ pair ∷ [])) }
{
    let name = Text::from_slice(alloc, b"m")?;
    let bytes = Bytes::from_slice(alloc, text)?;
    one(alloc, (name, bytes))
}

/// A list of one item.
fn one<T: Drop>(alloc: Global, item: T) -> Result<List<T>, NoMemory>
    ensures { IfOk result (λ items. items ≡ item ∷ []) }
{
    let mut items = List::new(alloc);
    items.push(item)?;
    Ok(items)
}

/// Asserts the status and the output of `check m` over a text.
fn expect(
    rt: &impl Abort,
    alloc: Global,
    text: &[u8],
    status: Status,
    output: &[u8],
) -> Result<(), NoMemory> {
    let (got, written) = run(alloc, &["check", "m"], text)?;
    assert_eq!(rt; got, status);
    assert_eq!(rt; written.as_slice(), output);
    Ok(())
}

/// The lines behind `-module(a).`, the status and the output.
const MODULES: [(&[u8], Status, &[u8]); 30] = [
    (
        b"-spec f(integer()) -> integer().\nf(X) -> X.\n",
        0,
        b"accepted a: 1 functions, 1 clauses\n",
    ),
    (
        b"-spec f() -> integer().\nf() -> 1 + a.\n",
        1,
        b"refused a: f/0 clause 1 at 3:12: operand: a\n",
    ),
    (
        b"-spec f() -> a.\nf() -> 7.\n",
        1,
        b"refused a: f/0 clause 1 at 3:8: result: 7\n",
    ),
    (b"", 0, b"accepted a: 0 functions, 0 clauses\n"),
    (
        b"-spec f(a) -> b.\nf(X) -> X.\n",
        1,
        b"refused a: f/1 clause 1 at 3:9: result: a\n",
    ),
    (
        b"-spec f(integer()) -> integer().\nf(X) -> X * 2 - 1.\n-spec g(a) -> integer().\ng(Y) -> f(Y).\n",
        1,
        b"refused a: g/1 clause 1 at 5:9: call: fun/1{(a) -> fails}\n",
    ),
    (
        b"-spec f(a) -> integer().\nf(X) -> 1 + X.\n",
        1,
        b"refused a: f/1 clause 1 at 3:13: operand: a\n",
    ),
    (
        b"-spec f(a) -> integer().\nf(X) -> 1 - X - 2.\n",
        1,
        b"refused a: f/1 clause 1 at 3:13: operand: a\n",
    ),
    (
        b"-spec f(1..3 | a) -> integer() | a.\nf(X) -> X.\n",
        0,
        b"accepted a: 1 functions, 1 clauses\n",
    ),
    (
        b"-spec f(1..3) -> 1..2.\nf(X) -> X.\n",
        1,
        b"refused a: f/1 clause 1 at 3:9: result: 3\n",
    ),
    (
        b"-spec f(-3..-1) -> -3 | -2 | -1.\nf(X) -> X.\n",
        0,
        b"accepted a: 1 functions, 1 clauses\n",
    ),
    (
        b"-spec f((a | b)) -> (b | a).\nf(X) -> ((X)).\n",
        0,
        b"accepted a: 1 functions, 1 clauses\n",
    ),
    (
        b"-spec f(integer()) -> integer().\nf(X) -> f(X - 1).\n",
        0,
        b"accepted a: 1 functions, 1 clauses\n",
    ),
    (
        b"-spec g(a) -> b.\ng(X) -> h(X).\n-spec h(a) -> b.\nh(_) -> b.\n",
        0,
        b"accepted a: 2 functions, 2 clauses\n",
    ),
    (
        b"-spec f(a, b) -> a.\nf(X, _) -> X.\n-spec g() -> a.\ng() -> f(a, c).\n",
        1,
        b"refused a: g/0 clause 1 at 5:8: call: fun/2{(a,c) -> fails}\n",
    ),
    (
        b"-spec f(a) -> a.\nf(X) -> X.\n-spec f(a, b) -> b.\nf(_, Y) -> Y.\n-spec g() -> b.\ng() -> f(a, b).\n",
        0,
        b"accepted a: 3 functions, 3 clauses\n",
    ),
    (
        b"-spec f() -> b.\nf() -> g().\n",
        3,
        b"not a module: 3:8: no such function\n",
    ),
    (
        b"-spec f(3..1) -> b.\nf(_) -> b.\n",
        3,
        b"not a module: 2:9: empty range\n",
    ),
    (b"-spec f() -> integer().\nf() -> - 1.\n", 3, NOT_BUILT),
    (
        b"-spec f() -> integer().\nf() -> 170141183460469231731687303715884105726.\n",
        0,
        b"accepted a: 1 functions, 1 clauses\n",
    ),
    (
        b"-spec f() -> integer().\nf() -> 170141183460469231731687303715884105727.\n",
        3,
        b"not a module: 3:8: number too wide\n",
    ),
    (b"\xff", 3, b"not a module: byte 12: not UTF-8\n"),
    (
        b"f() -> 1.5.",
        3,
        b"not a module: 2:8: out of profile: float\n",
    ),
    (b"f() -> '\\q'.", 3, b"not a module: 2:9: bad escape\n"),
    (
        b"-spec f() -> string().\nf() -> \"ab",
        3,
        b"not a module: 3:8: bad token\n",
    ),
    (
        b"%\xc3\xa9\nf() -> X--Y.",
        3,
        b"not a module: 3:9: out of profile: list difference\n",
    ),
    (b"-spec f('a') -> 16#1f.\nf('a b') -> 31.\n", 3, NOT_BUILT),
    (b"f() -> 1.\n", 3, b"not a module: 2:1: no spec\n"),
    (b"hello", 3, b"not a module: 2:6: unexpected\n"),
    (b"f() -> a b.", 3, b"not a module: 2:10: unexpected\n"),
];

const NOT_BUILT: &[u8] = b"not a module: not built yet\n";

#[test]
fn checks_modules(rt: HostRuntime) -> Result<(), Fail> {
    let alloc = rt.alloc();
    for (lines, status, output) in MODULES {
        let mut text = Vec::from_slice(alloc, b"-module(a).\n")?;
        text.extend_from_slice(lines)?;
        expect(&rt, alloc, &text, status, output)?;
    }
    expect(
        &rt,
        alloc,
        b"-module(a).",
        0,
        b"accepted a: 0 functions, 0 clauses\n",
    )?;
    Ok(())
}

/// Lines behind `-module(a).`, each with a form that is outside of the profile, its place and its name.
const OUTSIDE: [(&str, &str); 38] = [
    ("f() -> 1.5.", "2:8: out of profile: float"),
    ("f() -> 4 / 2.", "2:10: out of profile: float"),
    ("f() -> ?X.", "2:8: out of profile: macro"),
    ("f() -> <<1>>.", "2:8: out of profile: binary"),
    ("f(P) -> P ! a.", "2:11: out of profile: send"),
    ("f() -> receive X -> X end.", "2:8: out of profile: receive"),
    ("f() -> maybe a end.", "2:8: out of profile: maybe"),
    ("f() -> catch g().", "2:8: out of profile: catch"),
    ("f(X) -> X band 1.", "2:11: out of profile: bit operator"),
    ("f(X) -> bnot X.", "2:9: out of profile: bit operator"),
    ("f(X) -> X -- X.", "2:11: out of profile: list difference"),
    (
        "f() -> \"a\" \"b\".",
        "2:8: out of profile: adjacent strings",
    ),
    (
        "f() -> \"\"\"\na\n\"\"\".",
        "2:8: out of profile: triple-quoted string",
    ),
    ("f() -> ~\"a\".", "2:8: out of profile: sigil"),
    ("f() -> \u{e9}.", "2:8: out of profile: non-ASCII name"),
    (
        "f() -> try a catch error:E:S -> b end.",
        "2:27: out of profile: stack trace",
    ),
    (
        "f(M) -> #{K => V || K := V <- M}.",
        "2:18: out of profile: map comprehension",
    ),
    (
        "f(L) -> [X || X <:- L].",
        "2:17: out of profile: strict generator",
    ),
    ("f() -> fun F() -> a end.", "2:8: out of profile: named fun"),
    (
        "f() -> lists:map(a, b).",
        "2:13: out of profile: remote name",
    ),
    (
        "f() -> fun lists:map/2.",
        "2:17: out of profile: remote name",
    ),
    ("-spec a:f() -> b.", "2:8: out of profile: remote name"),
    ("-type t() :: a:b().", "2:15: out of profile: remote name"),
    ("-define(X, 1).", "2:1: out of profile: preprocessor"),
    ("-include(\"a.hrl\").", "2:1: out of profile: preprocessor"),
    ("-ifdef(X).", "2:1: out of profile: preprocessor"),
    ("-if(X).", "2:1: out of profile: preprocessor"),
    ("-else.", "2:1: out of profile: preprocessor"),
    ("-import(lists, [map/2]).", "2:1: out of profile: import"),
    ("-nominal t() :: a.", "2:1: out of profile: nominal"),
    ("f() -> g(X = 1).", "2:12: out of profile: nested match"),
    ("f() -> #r{_ = 1}.", "2:11: out of profile: record wildcard"),
    ("f() -> #r.a.", "2:8: out of profile: record index"),
    ("f(\"a\" ++ X) -> X.", "2:7: out of profile: list pattern"),
    ("f(#{X := 1}) -> a.", "2:5: out of profile: map key"),
    (
        "f(X) -> is_function(X, X).",
        "2:9: out of profile: built-in",
    ),
    ("f(X) when g(X) -> X.", "2:11: out of profile: built-in"),
    ("f(X) when X(1) -> X.", "2:11: out of profile: built-in"),
];

#[test]
fn names_what_is_outside_of_the_profile(rt: HostRuntime) -> Result<(), Fail> {
    let alloc = rt.alloc();
    for (line, refusal) in OUTSIDE {
        let text = format!(in alloc; "-module(a).\n{line}\n")?;
        let output = format!(in alloc; "not a module: {refusal}\n")?;
        expect(&rt, alloc, text.as_bytes(), 3, output.as_bytes())?;
    }
    Ok(())
}

/// Lines behind `-module(a).` whose names are wrong, the place of their first fault and its words.
const WRONG_NAMES: [(&str, &str); 50] = [
    ("f() -> 1.", "2:1: no spec"),
    (
        "-spec f() -> 1.\nf() -> 1.\nf() -> 1.",
        "4:1: function defined twice",
    ),
    (
        "-spec f(a) -> a.\nf(X) -> case X of Y -> Y end, Y.",
        "3:31: unsafe variable",
    ),
    ("-spec f(a) -> a.\nf(X) -> Y.", "3:9: unbound variable"),
    ("-spec f(a) -> a.\nf(_) -> _.", "3:9: unbound variable"),
    (
        "-spec f(a) -> a.\nf(X) -> Y, Y = X.",
        "3:9: unbound variable",
    ),
    (
        "-spec f(a) -> a.\nf(X) when Y -> X.",
        "3:11: unbound variable",
    ),
    (
        "-spec f(a) -> a.\nf(X) -> case X of Y when Y == Z -> Y end.",
        "3:31: unbound variable",
    ),
    (
        "-spec f(a) -> a.\nf(X) -> begin Y = X end, Y.",
        "3:26: unsafe variable",
    ),
    (
        "-spec f(a) -> a.\nf(X) -> if X == a -> Y = b; true -> Y = c end, Y.",
        "3:48: unsafe variable",
    ),
    (
        "-spec f(a) -> a.\nf(X) -> X = begin Y = X, Y end, Y.",
        "3:33: unsafe variable",
    ),
    (
        "-spec f(a) -> a.\nf(_) -> {case a of X -> X end, X}.",
        "3:32: unsafe variable",
    ),
    (
        "-spec f(a) -> a.\nf(X) -> case X of Y -> Y end, Y = X.",
        "3:31: unsafe variable",
    ),
    (
        "-spec f(a) -> a.\nf(X) -> case X of a -> Y = b, Y; b -> Y end.",
        "3:39: unbound variable",
    ),
    (
        "-spec f(a) -> a.\nf(X) -> try Y = X, Y of Z -> Y catch _ -> b end.",
        "3:30: unsafe variable",
    ),
    (
        "-spec f(a) -> a.\nf(X) -> try X catch _ -> Y = b, Y end, Y.",
        "3:40: unsafe variable",
    ),
    (
        "-spec f(a) -> a.\nf(X) -> try X of Y -> b catch _ -> Y end.",
        "3:36: unbound variable",
    ),
    (
        "-spec f(a) -> a.\nf(X) -> try Y = X, Y catch _ -> b after Y end.",
        "3:41: unsafe variable",
    ),
    (
        "-spec f(a) -> a.\nf(X) -> fun(Y) -> Y end, Y.",
        "3:26: unbound variable",
    ),
    (
        "-spec f(a) -> a.\nf(X) -> fun(Y) -> begin Z = Y, Z end end, Z.",
        "3:43: unbound variable",
    ),
    (
        "-spec f(a) -> a.\nf(L) -> [X || X <- X].",
        "3:20: unbound variable",
    ),
    (
        "-spec f(a) -> a.\nf(L) -> [X || Y <- X, X <- L].",
        "3:20: unbound variable",
    ),
    (
        "-spec f(a) -> a.\nf(L) -> [X || X <- L], X.",
        "3:24: unbound variable",
    ),
    (
        "-spec f(a) -> a.\nf(L) -> [begin Z = b, Z end || X <- [begin Z = L, Z end]].",
        "3:44: unsafe variable",
    ),
    ("-spec f(a) -> a.\nf(X) -> g(X).", "3:9: no such function"),
    (
        "-spec f(a) -> a.\nf(X) -> f(X, X).",
        "3:9: no such function",
    ),
    (
        "-spec f(a) -> a.\nf(X) -> erlang:foo(X).",
        "3:9: no such function",
    ),
    (
        "-spec f(a) -> a.\nf(X) -> erlang:f(X).",
        "3:9: no such function",
    ),
    (
        "-spec f(a) -> a.\nf(_) -> fun g/1.",
        "3:9: no such function",
    ),
    (
        "-spec f(a) -> a.\nf(_) -> fun hd/1.",
        "3:9: no such function",
    ),
    (
        "-export([f/1, g/0]).\n-spec f(a) -> a.\nf(X) -> X.",
        "2:1: no such function",
    ),
    (
        "-spec f(a) -> a.\nf(X) -> X.\n-spec g() -> a.",
        "4:1: no such function",
    ),
    (
        "-spec hd(a) -> a.\nhd(X) -> X.",
        "3:1: function defined twice",
    ),
    ("-spec f(a) -> a.\nf(_) -> #r{}.", "3:9: no such record"),
    ("-spec f(a) -> a.\nf(X) -> X#r.a.", "3:9: no such record"),
    ("-spec f(a) -> a.\nf(#r{}) -> a.", "3:3: no such record"),
    (
        "-record(r, {a}).\n-spec f(a) -> a.\nf(X) -> X#r.b.",
        "4:9: no such field",
    ),
    (
        "-record(r, {a}).\n-spec f(a) -> a.\nf(_) -> #r{b = c}.",
        "4:12: no such field",
    ),
    (
        "-record(r, {a}).\n-record(r, {b}).\n-spec f(a) -> a.\nf(X) -> X#r.b.",
        "5:9: no such field",
    ),
    (
        "-record(r, {a}).\n-spec f(a) -> a.\nf(_) -> #r{a = b, a = c}.",
        "4:19: repeated",
    ),
    (
        "-record(r, {a}).\n-spec f(a) -> a.\nf(#r{a = X, a = Y}) -> {X, Y}.",
        "4:13: repeated",
    ),
    ("-record(r, {a = X}).", "2:17: unbound variable"),
    ("-record(r, {a = g()}).", "2:17: no such function"),
    (
        "-spec f(a) -> a.\nf(X) -> X;\nf(X, Y) -> {X, Y}.",
        "4:1: arity differs",
    ),
    (
        "-spec f(a) -> a.\nf(_) -> fun(X) -> X; (X, Y) -> {X, Y} end.",
        "3:22: arity differs",
    ),
    ("f(X) -> Y.", "2:1: no spec"),
    ("hd(X) -> X.", "2:1: function defined twice"),
    (
        "-spec f(a) -> a.\nf(X) -> {g(X), Y}.",
        "3:10: no such function",
    ),
    ("-spec f(a) -> a.\nf(X) -> g(Y).", "3:9: no such function"),
    (
        "-spec f(a) -> a.\nf(X) -> {Y, g(X)}.",
        "3:10: unbound variable",
    ),
];

/// Lines behind `-module(a).` whose names are right, of modules that aren't flat.
const RIGHT_NAMES: [&str; 22] = [
    "-spec f(a) -> a.\nf(X) -> Y = X, Y.",
    "-spec f(a) -> a.\nf(X) -> X = b, X.",
    "-spec f(a, a) -> a.\nf(X, X) -> X.",
    "-spec f(a) -> a.\nf(_) -> X = begin X = b, X end, X.",
    "-spec f(a) -> a.\nf(X) -> case X of {Y, Y} -> Y; Y -> Y end.",
    "-spec f(a) -> a.\nf(X) -> case X of a -> Y = b; b -> Y = c end.",
    "-spec f(a) -> a.\nf(X) -> case X of Y -> Y end, fun(Y) -> Y end.",
    "-spec f(a) -> a.\nf(X) -> case X of Y -> Y end, [Y || Y <- X].",
    "-spec f(a) -> a.\nf(X) -> try X of Y -> Y catch Y -> Y end.",
    "-spec f(a) -> a.\nf(X) -> try X catch C:Y when Y == C -> {C, Y} end.",
    "-spec f(a) -> a.\nf(X) -> try X after Y = X, Y end.",
    "-spec f(a) -> a.\nf(X) -> fun(X) -> X end.",
    "-spec f(a) -> a.\nf(L) -> [X || X <- L].",
    "-spec f(a) -> a.\nf(X) -> [X || X <- X].",
    "-spec f(a) -> a.\nf(L) -> [Y || X <- L, Y <- X].",
    "-spec f(a) -> a.\nf(L) -> [begin X = b, X end || X <- [begin X = L, X end]].",
    "-spec f(a) -> a.\nf(X) -> erlang:hd(X).",
    "-spec f(a) -> a.\nf(X) -> hd(X).",
    "-spec f(a) -> a.\nf(_) -> fun f/1.",
    "-spec f(a) -> a.\nf(X) -> X(X).",
    "-export([f/1]).\n-spec f(a) -> a.\nf(X) -> X.",
    "-record(r, {a, b = c}).\n-spec f(a) -> a.\nf(#r{a = X}) -> #r{b = X}.",
];

#[test]
fn tells_wrong_names(rt: HostRuntime) -> Result<(), Fail> {
    let alloc = rt.alloc();
    for (lines, refusal) in WRONG_NAMES {
        let text = format!(in alloc; "-module(a).\n{lines}\n")?;
        let output = format!(in alloc; "not a module: {refusal}\n")?;
        expect(&rt, alloc, text.as_bytes(), 3, output.as_bytes())?;
    }
    for lines in RIGHT_NAMES {
        let text = format!(in alloc; "-module(a).\n{lines}\n")?;
        expect(&rt, alloc, text.as_bytes(), 3, NOT_BUILT)?;
    }
    Ok(())
}

/// Lines behind `-module(a).` whose types, records or specs are wrong, the place of their first fault and its words.
const WRONG_SPECS: [(&str, &str); 32] = [
    ("-type t() :: t() | a.", "2:7: not contractive"),
    (
        "-type u(A) :: A.\n-type t() :: u(t()).",
        "3:7: not contractive",
    ),
    (
        "-spec f(ety:negation(fun((a) -> b))) -> a.\nf(_) -> a.",
        "2:8: negated fun type",
    ),
    (
        "-spec f(ety:negation(A)) -> a.\nf(_) -> a.",
        "2:8: negated fun type",
    ),
    (
        "-type n(A) :: ety:negation(A).\n-spec f(n(fun((a) -> b))) -> a.\nf(_) -> a.",
        "3:8: negated fun type",
    ),
    ("-spec f(foo()) -> b.\nf(_) -> b.", "2:9: no such type"),
    (
        "-type t(A) :: A.\n-spec f(t()) -> b.\nf(_) -> b.",
        "3:9: no such type",
    ),
    ("-type t() :: A.", "2:14: no such type"),
    ("-record(r, {a :: A}).", "2:18: no such type"),
    ("-spec f(#r{}) -> b.\nf(_) -> b.", "2:9: no such type"),
    (
        "-record(r, {a}).\n-spec f(#r{b :: c}) -> d.\nf(_) -> d.",
        "3:12: no such type",
    ),
    ("-type t() :: a.\n-type t() :: b.", "3:1: repeated"),
    ("-type list() :: a.", "2:1: repeated"),
    ("-type pid(A) :: A.", "2:1: repeated"),
    ("-record(r, {a}).\n-record(r, {b}).", "3:1: repeated"),
    (
        "-spec f(a) -> a.\n-spec f(b) -> b.\nf(_) -> a.",
        "3:1: repeated",
    ),
    ("-record(r, {a, a}).", "2:16: repeated"),
    (
        "-spec f(#{a := b, a => c}) -> d.\nf(_) -> d.",
        "2:19: repeated",
    ),
    (
        "-spec f(#{$a => b, 97 => c}) -> d.\nf(_) -> d.",
        "2:20: repeated",
    ),
    (
        "-spec f(#{atom() => b, atom() => c}) -> d.\nf(_) -> d.",
        "2:24: repeated",
    ),
    (
        "-spec f(A) -> a when A :: b, A :: c.\nf(_) -> a.",
        "2:8: repeated",
    ),
    (
        "-record(r, {a = {b, (c)}}).",
        "2:17: out of profile: record default",
    ),
    (
        "-spec f(#{{} => a}) -> b.\nf(_) -> b.",
        "2:11: out of profile: map key",
    ),
    (
        "-spec f(#{integer() := a}) -> b.\nf(_) -> b.",
        "2:11: out of profile: map key",
    ),
    (
        "-spec f(pid()) -> a.\nf(_) -> a.",
        "2:9: out of profile: type",
    ),
    (
        "-type t(A) :: {A, t({A, A})}.",
        "2:19: out of profile: non-regular type",
    ),
    (
        "-record(r, {a :: #r{a :: b}}).",
        "2:18: out of profile: non-regular type",
    ),
    (
        "-spec f(A) -> B when A :: B, B :: A.\nf(X) -> X.",
        "2:8: out of profile: cyclic bound",
    ),
    (
        "-spec f(a) -> a; (a, b) -> b.\nf(_) -> a.",
        "2:18: arity differs",
    ),
    (
        "-type t() :: t().\n-spec f(foo()) -> a.\nf(_) -> a.",
        "3:9: no such type",
    ),
    (
        "-spec f(ety:negation(A)) -> a.\n-type t() :: t().\nf(_) -> a.",
        "3:7: not contractive",
    ),
    ("-spec f(foo()) -> a.\nf(_) -> X.", "3:9: unbound variable"),
];

/// Lines behind `-module(a).` whose types, records and specs are right, of modules that aren't flat.
const RIGHT_SPECS: [&str; 7] = [
    "-type t() :: {a, t()}.\n-spec f(t()) -> none().\nf(X) -> X.",
    "-spec f(ety:negation(fun())) -> a.\nf(_) -> a.",
    "-spec f(X) -> Y when X :: integer(), Y :: integer().\nf(X) -> X + 1.",
    "-type tree(K) :: leaf | {node, tree(K), K, tree(K)}.\n-spec f(tree(A)) -> [A].\nf(X) -> X.",
    "-record(r, {a = [1, $a, {b, \"c\"}] :: term(), b}).\n-spec f(#r{a :: 1}) -> #r{}.\nf(X) -> X.",
    "-spec f(#{a := b, 1 => c, integer() => d, atom() => e}) -> map().\nf(X) -> X.",
    "-opaque t(A) :: {A}.\n-export_type([t/1, u/0]).\n-spec f(t(a)) -> {a}.\nf(X) -> X.",
];

#[test]
fn tells_wrong_specs(rt: HostRuntime) -> Result<(), Fail> {
    let alloc = rt.alloc();
    for (lines, refusal) in WRONG_SPECS {
        let text = format!(in alloc; "-module(a).\n{lines}\n")?;
        let output = format!(in alloc; "not a module: {refusal}\n")?;
        expect(&rt, alloc, text.as_bytes(), 3, output.as_bytes())?;
    }
    for lines in RIGHT_SPECS {
        let text = format!(in alloc; "-module(a).\n{lines}\n")?;
        expect(&rt, alloc, text.as_bytes(), 3, NOT_BUILT)?;
    }
    Ok(())
}

/// A function with three bindings, of which two have the same name.
const NUMBERED: &[u8] =
    b"-module(a).\n-spec f(a) -> a.\nf(X) -> case X of Y -> [X || X <- Y] end.\n";

#[test]
fn numbers_variables(rt: HostRuntime) -> Result<(), Fail> {
    let alloc = rt.alloc();
    let tokens = lex(alloc, NUMBERED).ok().ok_or("not lexed")?;
    let tree = parse(alloc, &tokens).ok().ok_or("not parsed")?;
    let scopes = resolve(alloc, &tree).ok().ok_or("not resolved")?;
    // The columns of variables in the third line, and their numbers.
    let numbers = [(3, 0), (14, 0), (19, 1), (25, 2), (30, 2), (35, 1)];
    for (column, number) in numbers {
        assert_eq!(rt; scopes.of(Place { line: 3, column }), Some(number));
    }
    // The columns of the bindings.
    for (number, column) in [(0, 3), (1, 19), (2, 30)] {
        assert_eq!(rt; scopes.place_of(number), Some(Place { line: 3, column }));
    }
    assert_eq!(rt; scopes.of(Place { line: 3, column: 1 }), None);
    assert_eq!(rt; scopes.place_of(3), None);
    Ok(())
}

/// `-module(a).` and a line: a text, so many times an opening bracket, `a`, as many closing brackets,
/// and the rest.
fn nested(
    alloc: Global,
    before: &str,
    brackets: (u8, u8),
    levels: usize,
    behind: &str,
) -> Result<Vec<u8>, NoMemory> {
    let mut text = Vec::from_slice(alloc, b"-module(a).\n")?;
    text.extend_from_slice(before.as_bytes())?;
    for _ in 0..levels {
        text.push(brackets.0)?;
    }
    text.push(b'a')?;
    for _ in 0..levels {
        text.push(brackets.1)?;
    }
    text.extend_from_slice(behind.as_bytes())?;
    Ok(text)
}

/// A text in front of brackets, the brackets, the text behind them, the status and the output with 255
/// of them, and the output with 256.
type Nest = (
    &'static str,
    (u8, u8),
    &'static str,
    Status,
    &'static [u8],
    &'static [u8],
);

/// Expressions, types and patterns in brackets.
const NESTS: [Nest; 4] = [
    (
        "-spec f() -> a.\nf() -> ",
        (b'(', b')'),
        ".\n",
        0,
        b"accepted a: 1 functions, 1 clauses\n",
        b"not a module: 3:264: nested too deep\n",
    ),
    (
        "-spec f() -> tuple().\nf() -> ",
        (b'{', b'}'),
        ".\n",
        3,
        NOT_BUILT,
        b"not a module: 3:264: nested too deep\n",
    ),
    (
        "-spec f() -> ",
        (b'[', b']'),
        ".\nf() -> a.\n",
        3,
        NOT_BUILT,
        b"not a module: 2:270: nested too deep\n",
    ),
    (
        "f(",
        (b'{', b'}'),
        ") -> b.\n",
        3,
        b"not a module: 2:1: no spec\n",
        b"not a module: 2:259: nested too deep\n",
    ),
];

#[test]
fn limits_the_nesting(rt: HostRuntime) -> Result<(), Fail> {
    let alloc = rt.alloc();
    for (before, brackets, behind, status, within, deeper) in NESTS {
        let text = nested(alloc, before, brackets, 255, behind)?;
        expect(&rt, alloc, &text, status, within)?;
        let text = nested(alloc, before, brackets, 256, behind)?;
        expect(&rt, alloc, &text, 3, deeper)?;
    }
    Ok(())
}

/// `-module(a).` and a function of so many parameters.
fn with_parameters(alloc: Global, count: usize) -> Result<Vec<u8>, NoMemory> {
    let mut text = Vec::from_slice(alloc, b"-module(a).\nf(a")?;
    for _ in 1..count {
        text.extend_from_slice(b",a")?;
    }
    text.extend_from_slice(b") -> b.\n")?;
    Ok(text)
}

#[test]
fn limits_the_parameters(rt: HostRuntime) -> Result<(), Fail> {
    let alloc = rt.alloc();
    let most = with_parameters(alloc, 255)?;
    expect(&rt, alloc, &most, 3, b"not a module: 2:1: no spec\n")?;
    let more = with_parameters(alloc, 256)?;
    let output = b"not a module: 2:513: out of profile: arity\n";
    expect(&rt, alloc, &more, 3, output)?;
    Ok(())
}

/// A module of many forms, of records, types, specs of funs and type variables, maps, guards, `try` and
/// comprehensions.
const LEDGER: &str = r#"%% A small shop ledger.
-module(shop).
-export([total/1, add/3, insert/2, to_list/1, fold/3, main/1]).
-vsn("1.0").

-record(item, {name :: atom(), price = 0 :: integer(), count = 1 :: integer()}).
-type item() :: #item{}.
-type settings() :: #{currency := atom(), limit => integer()}.
-type tree(K) :: leaf | {node, tree(K), K, tree(K)}.

-spec total([item()]) -> integer().
total(Items) ->
    fold(fun(#item{price = P, count = C}, Sum) -> Sum + P * C end, 0, Items).

-spec add(atom(), integer(), [item()]) -> [item()].
add(Name, Price, Items) when Price >= 0 ->
    [#item{name = Name, price = Price} | Items];
add(_, _, Items) ->
    Items.

-spec insert(integer(), tree(integer())) -> tree(integer()).
insert(K, leaf) -> {node, leaf, K, leaf};
insert(K, {node, L, N, R}) when K < N -> {node, insert(K, L), N, R};
insert(K, {node, L, N, R}) when K > N -> {node, L, N, insert(K, R)};
insert(_, T) -> T.

-spec to_list(tree(A)) -> [A].
to_list(leaf) -> [];
to_list({node, L, K, R}) -> to_list(L) ++ [K | to_list(R)].

-spec fold(fun((A, B) -> B), B, [A]) -> B.
fold(_, Acc, []) -> Acc;
fold(F, Acc, [X | Xs]) -> fold(F, F(X, Acc), Xs).

-spec limit(settings()) -> integer().
limit(#{limit := L}) -> L;
limit(#{currency := _}) -> 0.

-spec with_limit(integer(), settings()) -> settings().
with_limit(L, S) -> S#{limit => L}.

-spec safe_div(integer(), integer()) -> {ok, integer()} | {error, atom()}.
safe_div(X, Y) ->
    try X div Y of
        Q -> {ok, Q}
    catch
        error:badarith -> {error, zero};
        _:_ -> {error, unknown}
    end.

-spec sign(term()) -> neg | zero | pos | other.
sign(X) when is_integer(X), X < 0 -> neg;
sign(0) -> zero;
sign(X) when is_integer(X) -> pos;
sign(_) -> other.

-spec prices([item()]) -> [integer()].
prices(Items) -> [I#item.price || I <- Items, I#item.count > 0].

-spec main(settings()) -> integer().
main(S) ->
    Items = add(apple, 3, add(pear, 2, [hd([#item{name = plum}])])),
    Sum = total(Items),
    case Sum > limit(S) of
        true -> limit(S);
        false -> Sum
    end.
"#;

#[test]
fn reads_a_realistic_module(rt: HostRuntime) -> Result<(), Fail> {
    expect(&rt, rt.alloc(), LEDGER.as_bytes(), 3, NOT_BUILT)?;
    Ok(())
}

#[test]
fn answers_usage(rt: HostRuntime) -> Result<(), Fail> {
    let usage: &[u8] = b"usage: etylizer check FILE\n";
    let none: &[&str] = &[];
    let lines: [&[&str]; 5] = [
        &["check"],
        &["check", "m", "m"],
        none,
        &["--help"],
        &["verify", "m"],
    ];
    for words in lines {
        let (status, written) = run(rt.alloc(), words, IDENTITY)?;
        assert_eq!(rt; status, 2);
        assert_eq!(rt; written.as_slice(), usage);
    }
    Ok(())
}

#[test]
fn answers_a_missing_file(rt: HostRuntime) -> Result<(), Fail> {
    let (status, written) = run(rt.alloc(), &["check", "other"], IDENTITY)?;
    assert_eq!(rt; status, 4);
    assert!(rt; written.is_empty());
    Ok(())
}

#[test]
fn checks_texts(rt: HostRuntime) -> Result<(), Fail> {
    let alloc = rt.alloc();
    let accepted = check_text(alloc, IDENTITY).ok().ok_or("not accepted")?;
    assert_eq!(rt; accepted.name.as_slice(), b"a".as_slice());
    assert_eq!(rt; accepted.functions, 1);
    assert_eq!(rt; accepted.clauses, 1);
    let refused = check_text(alloc, b"-module(a).\n-spec f(a) -> b.\nf(X) -> X.\n");
    assert!(rt; matches!(&refused, Err(Refused::Types(FirstRefusal::Failed { .. }))));
    let faulty = check_text(alloc, b"a?");
    assert!(rt; matches!(&faulty, Err(Refused::Lex(LexFault::OutOfProfile(_, _)))));
    let unexpected = check_text(alloc, b"hello");
    assert!(rt; matches!(&unexpected, Err(Refused::Parse(ParseFault::Unexpected(_)))));
    let wrong_names = check_text(alloc, b"-module(a).\nf() -> 1.\n");
    assert!(rt; matches!(&wrong_names, Err(Refused::Scope(ScopeFault::NoSpec(_)))));
    let wrong_specs = check_text(alloc, b"-module(a).\n-type t() :: u().\n");
    assert!(rt; matches!(&wrong_specs, Err(Refused::Spec(SpecFault::NoSuchType(_)))));
    let not_built = check_text(alloc, b"-module(a).\n-spec f() -> 1.\nf() -> (1), 1.\n");
    assert!(rt; matches!(&not_built, Err(Refused::NotBuilt)));
    Ok(())
}

/// The module behind a comment that fills the text to a length of that many bytes.
fn filled(alloc: Global, length: usize) -> Result<Vec<u8>, NoMemory> {
    let mut text = Vec::from_slice(alloc, IDENTITY)?;
    text.push(b'%')?;
    for _ in text.len()..length {
        text.push(b'x')?;
    }
    Ok(text)
}

#[test]
fn limits_the_length(rt: HostRuntime) -> Result<(), Fail> {
    let alloc = rt.alloc();
    let longest = filled(alloc, 1048576)?;
    expect(
        &rt,
        alloc,
        &longest,
        0,
        b"accepted a: 1 functions, 1 clauses\n",
    )?;
    let longer = filled(alloc, 1048577)?;
    expect(
        &rt,
        alloc,
        &longer,
        3,
        b"not a module: over 1048576 bytes\n",
    )?;
    match check_text(alloc, &longer) {
        Err(Refused::TooLong) => Ok(()),
        _ => Err(Fail::from("not too long")),
    }
}

#[test]
fn reports_quoted_atoms_and_funs(rt: HostRuntime) -> Result<(), Fail> {
    let alloc = rt.alloc();
    let mut keys = List::new(alloc);
    keys.push(Key::Int(-5))?;
    keys.push(Key::Atom(Text::from_slice(alloc, b"end")?))?;
    let verdict = Verdict::Failed {
        name: Text::from_slice(alloc, b"a'\\B")?,
        function: Text::from_slice(alloc, b"f")?,
        arity: 2,
        clause: 1,
        place: Place { line: 5, column: 9 },
        kind: Kind::Call,
        shown: Shown::Missing(keys),
    };
    let text = report(alloc, &verdict)?;
    let expected: &[u8] =
        b"refused 'a\\'\\\\B': f/2 clause 1 at 5:9: call: fun/2{(-5,'end') -> fails}\n";
    assert_eq!(rt; text.as_slice(), expected);
    Ok(())
}

/// Runs the tool on `check m`. Gives the status and what was written.
fn run_failing(
    alloc: Global,
    mut files: MemoryFiles,
    mut out: MemorySink,
) -> Result<(Status, Bytes), NoMemory> {
    let words = words_of(alloc, &["check", "m"])?;
    let status = run_tool(alloc, &words, &mut files, &mut out);
    let written = Bytes::from_slice(alloc, out.bytes().as_slice())?;
    Ok((status, written))
}

#[test]
fn answers_a_failed_put(rt: HostRuntime) -> Result<(), Fail> {
    let alloc = rt.alloc();
    let files = MemoryFiles::new(alloc, held(alloc, IDENTITY)?, List::new(alloc));
    let out = MemorySink::new(alloc, one(alloc, (0, 3))?);
    let (status, written) = run_failing(alloc, files, out)?;
    assert_eq!(rt; status, 5);
    assert_eq!(rt; written.as_slice(), b"acc".as_slice());
    Ok(())
}

#[test]
fn answers_a_failed_load(rt: HostRuntime) -> Result<(), Fail> {
    let alloc = rt.alloc();
    let files = MemoryFiles::new(alloc, held(alloc, IDENTITY)?, one(alloc, 0)?);
    let out = MemorySink::new(alloc, List::new(alloc));
    let (status, written) = run_failing(alloc, files, out)?;
    assert_eq!(rt; status, 4);
    assert!(rt; written.is_empty());
    Ok(())
}

#[test]
fn answers_each_prefix(rt: HostRuntime) -> Result<(), Fail> {
    let alloc = rt.alloc();
    for length in 0..=IDENTITY.len() {
        let expected = match length {
            11 | 12 | 55 | 56 => 0,
            _ => 3,
        };
        let (status, _) = run(alloc, &["check", "m"], &IDENTITY[..length])?;
        assert_eq!(rt; status, expected);
    }
    Ok(())
}
