//! Texts by topic: the forms of small modules behind their first line, `-module(a).`, with an empty line
//! between two texts.

/// The built-in types, lists, tuples, funs and maps.
pub(crate) const BUILT_IN_TYPES: &str = "-type a() :: any().
-type b() :: term().
-type c() :: _.

-type a() :: none().
-type b() :: no_return().

-type a() :: integer().
-type b() :: non_neg_integer().
-type c() :: pos_integer().
-type d() :: neg_integer().

-type a() :: byte().
-type b() :: char().
-type c() :: arity().

-type a() :: atom().
-type b() :: module().

-type a() :: boolean().
-type b() :: timeout().

-type a() :: [].
-type b() :: nil().

-type a() :: [x].
-type b() :: list(x).
-type c() :: list().

-type a() :: [x, ...].
-type b() :: nonempty_list(x).
-type c() :: nonempty_list().

-type a() :: string().
-type b() :: nonempty_string().

-type a() :: tuple().
-type b() :: {}.
-type c() :: {x}.
-type d() :: {x, {y, 1}, []}.
-type e() :: mfa().

-type a() :: fun().
-type b() :: function().

-type a() :: fun(() -> x).
-type b() :: fun((x, y) -> z).
-type c() :: fun((X :: x, _ :: x | y) -> z).
-type d() :: fun((fun((x) -> y)) -> fun(() -> z)).

-type a() :: map().
-type b() :: #{}.";

/// Literals, ranges, unions, intersections and negations.
pub(crate) const LITERALS: &str = "-type a() :: x.
-type b() :: 'X'.
-type c() :: 5.
-type d() :: 16#ff.
-type e() :: -5.
-type f() :: $a.
-type g() :: -0.

-type a() :: 1..3.
-type b() :: -3..-1.
-type c() :: $a..$z.
-type d() :: -1..$a.
-type e() :: 4..4.
-type f() :: 0..-0.

-type a() :: -170141183460469231731687303715884105726..170141183460469231731687303715884105726.

-type a() :: x | y.
-type b() :: x | y | z.
-type c() :: (x | y) | z.
-type d() :: ((x)).
-type e() :: 1..3 | -1 | [].

-type a() :: ety:intersection(x | y, atom()).
-type b() :: ety:negation(x).
-type c() :: ety:intersection(integer(), ety:negation(0)).
-type d() :: ety:negation(fun(() -> x)).";

/// Keys and rests of map types.
pub(crate) const MAPS: &str = "-type a() :: #{k := x}.
-type b() :: #{k => x}.

-type a() :: #{1 := x, -2 => y, $a := z}.

-type a() :: #{b => x, 3 => y, a => z, 2 => x}.

-type a() :: #{ab := 1, b := 2, 'B' := 3, a := 4}.

-type a() :: #{integer() => x}.
-type b() :: #{atom() => x}.
-type c() :: #{atom() => x, k := y, integer() => z}.

-type a() :: #{k := #{}, j => map()}.";

/// Declarations with and without parameters, and their use.
pub(crate) const DECLARED_TYPES: &str = "-type t() :: u().
-type u() :: x.

-opaque t() :: x.

-type t() :: x.
-type t(A) :: A.
-type t(A, B) :: {B, A}.
-type u() :: {t(), t(y), t(y, z)}.

-type t(A) :: [A] | {A, integer()}.

-type t(A) :: x.

-type t(A, A) :: A.

-type t(_) :: _.

-type t(_, A) :: {_, A}.

-type t() :: {a, t()}.

-type t() :: [t()] | #{k := t()} | fun((t()) -> t()).

-type t(A) :: [] | {A, t(A)}.

-type t(A, B) :: {t(A, (B))}.

-type t(A) :: {u(A)}.
-type u(B) :: {t(B)} | B.

-type t(A) :: [u(t(A))].
-type u(A) :: {A}.

-type t(A) :: {u([A])}.
-type u(A) :: A.

-type w(A) :: {A}.
-type x() :: w(x()).

-export([f/1]).
-export_type([t/0]).
-author(x).
f(X) -> X.";

/// Declarations of records, and record types.
pub(crate) const RECORDS: &str = "-record(r, {}).

-record(r, {f, g = 1, h :: integer(), i = x :: atom()}).

-record(r, {a = 1, b = -1, c = $c, d = x, e = \"s\", f = {}, g = {x, [1, -2, {\"s\"}]}, h = []}).

-record('R', {'F' :: x}).
-type t() :: #'R'{}.

-record(r, {}).
-type t() :: x.
-record(s, {}).
-type u() :: y.

-type r() :: #r{}.
-record(r, {f :: x}).
-type u() :: [#r{}].

-record(r, {f, g :: x}).
-type t() :: #r{f :: y}.
-type u() :: #r{g :: y, f :: z}.
-type v(A) :: #r{g :: A}.

-record(r, {next :: #r{} | nil}).

-type t() :: #r{}.
-record(r, {f :: t()}).

-record(r, {f :: #s{}}).
-record(s, {g :: #r{} | x}).

-record(r, {f :: x, g}).
-record(s, {h :: #r{g :: y}}).

-record(s, {h :: #r{g :: y}}).
-record(r, {f :: #s{}, g}).

-record(r, {f}).
-type t() :: x | #r{f :: t()}.";

/// Specs, and the numbers of their variables.
pub(crate) const SPECS: &str = "-spec f() -> x.

-spec f(X :: x, _) -> _.

-spec f(A) -> A.

-spec f(B, A) -> {A, B}.

-spec f(A, B) -> C;
       (C, B) -> A.

-spec f(a, A) -> A;
       (b, A) -> [A];
       (c, x) -> y;
       (d, A) -> A.

-spec f(fun((A) -> B), [C]) -> #{k := B, integer() => D}.

-spec f(#{b := B, a := A}) -> x.

-type t(A) :: {A}.
-spec f(t(A)) -> t(t(A)).
-spec g(A) -> A.

-spec f(x) -> x.
-spec f(x, y) -> y.

-record(r, {f :: x}).
-spec f(#r{}) -> #r{f :: A}.

-spec f(ety:negation(ety:negation(A))) -> ety:negation(fun()).

-type t(A) :: ety:negation(A).
-spec f(t(t(A))) -> t(x).

-type t(A) :: x.
-spec f(ety:negation(t(A))) -> x.";

/// Bounds behind `when`.
pub(crate) const BOUNDS: &str = "-spec f(A) -> x when A :: integer().

-spec f(A) -> A when A :: integer().

-spec f(A) -> B when A :: integer(), B :: atom().

-spec f(A) -> A when A :: [B].

-spec f(A) -> B when A :: [B].

-spec f(A) -> x when A :: B, B :: [C].

-spec f(A) -> x when B :: [C], A :: B.

-spec f(A) -> A when A :: [B], B :: {C}, C :: integer().

-spec f(A, B) -> x when A :: {B}, B :: atom().

-spec f(x) -> x when A :: [B].

-spec f(A) -> x when A :: integer(), B :: A.

-spec f(_) -> x when _ :: [_].

-spec f(A) -> x when A :: [_].

-spec f(X :: A) -> X when A :: 1.

-spec f(A) -> A when A :: integer();
       (A) -> [A] when A :: atom(), B :: x.

-spec f(x) -> x when A :: ety:negation(fun(() -> y)).

-spec f(ety:negation(A)) -> x when A :: integer().";

/// The examples of `docs/SPECS.md`.
pub(crate) const EXAMPLES: &str = "-type settings() :: #{currency := atom(), limit => integer()}.
-type counts() :: #{atom() => integer(), total := integer()}.

-record(item, {name, count}).
-type sold_out() :: #item{count :: 0}.

-type tree(K) :: leaf | {node, tree(K), K, tree(K)}.

-type t(A) :: {A, t({A, A})}.

-spec id(A) -> A.
-spec first([A, ...]) -> A.
-spec add(X, Y) -> integer() when X :: integer(), Y :: integer().";

/// Types, variables, records and fields that aren't there.
pub(crate) const NO_SUCH_TYPE: &str = "-type t() :: {x, [foo()]}.

-type t(A) :: A.
-type u() :: t().

-type t() :: integer(x).

-type t() :: list(x, y).

-type t() :: A.

-type t(A) :: {A, B}.

-record(r, {f :: A}).

-record(r, {f, g :: foo()}).

-type t() :: #r{}.

-type t() :: [#r{f :: x}].

-record(r, {f}).
-type t() :: #r{f :: x, g :: y}.

-type t() :: #{k := foo()}.

-type t() :: #{foo() => x}.

-type t() :: #{A => x}.

-type t() :: fun((foo()) -> x).

-spec f(foo()) -> x.

-spec f(x) -> x | foo().

-spec f(x) -> x;
       (#r{}) -> x.

-spec f(x) -> x when A :: foo().";

/// What stands twice, and names of built-in types.
pub(crate) const REPEATED: &str = "-type t() :: x.
-type t() :: y.

-type t(A) :: A.
-opaque t(B) :: {B}.

-type integer() :: x.

-type list(A, B) :: {A, B}.

-type pid() :: x.

-record(r, {f}).
-record(r, {g}).

-spec f(x) -> x.
-type t() :: y.
-spec f(y) -> y.

-record(r, {f, g, f = 1}).

-record(r, {f}).
-type t() :: #r{f :: x, f :: y}.

-type t() :: #{k := x, 'k' => y}.

-type t() :: #{97 := x, $a := y}.

-type t() :: #{0 := x, -0 := y}.

-type t() :: #{-1 => x, y => x, -1 := z}.

-type t() :: #{integer() => x, integer() => y}.

-type t() :: #{atom() => x, k := y, atom() => z}.

-spec f(A) -> A when A :: x, A :: y.

-spec f(_) -> x when _ :: x, _ :: y.

-spec f(x) -> x;
       (A) -> A when A :: x, B :: y, A :: z.";

/// Types that reach themselves.
pub(crate) const NOT_CONTRACTIVE: &str = "-type t() :: t() | a.

-opaque t() :: a | (t()).

-type t() :: ety:intersection(x, ety:negation(t())).

-type t() :: {u()}.
-type u() :: v() | x.
-type v() :: u().

-type u(A) :: A.
-type v() :: u(v()).

-type u(A) :: v(A) | x.
-type v(A) :: A.
-type w() :: u(u(w())).

-record(r, {f :: u()}).
-type t() :: #r{} | {t()}.
-type u() :: t() | u().";

/// Fun types and variables under an odd number of negations.
pub(crate) const NEGATED_FUN_TYPES: &str = "-spec f(ety:negation(fun((a) -> b))) -> a.

-spec f(ety:negation(A)) -> a.

-spec f(x) -> {ety:negation([fun(() -> x)])}.

-spec f(ety:negation(ety:negation(ety:negation(A)))) -> x.

-spec f(fun((ety:negation(A)) -> x)) -> x.

-spec f(x) -> x;
       (A) -> #{integer() => ety:negation(A)}.

-type t() :: fun(() -> x).
-spec f(ety:negation(t())) -> x.

-type t(A) :: ety:negation(A).
-spec f(t(A)) -> x.

-type t(A) :: ety:negation({A}).
-spec f(x) -> t(fun(() -> x)).

-record(r, {f :: fun(() -> x)}).
-spec f(ety:negation(#r{})) -> x.

-spec f(A) -> x when A :: ety:negation(B).

-spec f(ety:negation(A)) -> A when A :: integer().

-spec f(x) -> x.
-spec g(ety:negation(A)) -> x.
-spec h(ety:negation(A)) -> x.";

/// Defaults of record fields that are none.
pub(crate) const RECORD_DEFAULTS: &str = "-record(r, {f = g()}).

-record(r, {f = 1 + 1}).

-record(r, {f = (1)}).

-record(r, {f = +1}).

-record(r, {f = -$a}).

-record(r, {f = {x, [y()]}}).

-record(r, {f = [x | y]}).

-record(r, {g = 1, f = #{} :: map()}).";

/// Keys of map types that are none.
pub(crate) const MAP_KEYS: &str = "-type t() :: #{{} := x}.

-type t() :: #{(k) := x}.

-type t() :: #{integer() := x}.

-type t() :: #{k := x, atom() := y}.

-type t() :: #{any() => x}.

-type t() :: #{1..2 => x}.

-type t() :: #{a | b => x}.

-type t() :: #{_ => x}.

-type t() :: #{pid() => x}.

-type t() :: #{ety:negation(x) => y}.

-type t(A) :: #{A => x}.

-spec f(#{[] := x}) -> x.";

/// Each name of a type that can't be used.
pub(crate) const UNUSABLE_TYPES: &str = "-type t() :: pid().

-type t() :: port().

-type t() :: reference().

-type t() :: float().

-type t() :: number().

-type t() :: binary().

-type t() :: bitstring().

-type t() :: nonempty_binary().

-type t() :: nonempty_bitstring().

-type t() :: iolist().

-type t() :: iodata().

-type t() :: identifier().

-type t() :: node().

-type t() :: dynamic().

-type t() :: maybe_improper_list(x, y).

-type t() :: nonempty_improper_list(x, y).

-type t() :: nonempty_maybe_improper_list().

-spec f(x) -> [node(x)].";

/// Uses with other arguments than the parameters, and records inside themselves.
pub(crate) const NON_REGULAR_TYPES: &str = "-type t(A) :: {t(x)}.

-type t(A, B) :: {t(B, A)}.

-type t(A) :: {u(A)}.
-type u(A) :: {t([A])}.

-type t(A) :: {u()}.
-type u() :: {t(x)}.

-type t(_) :: {t(_)}.

-type t(A, A) :: {t(A, A)}.

-type t(A) :: {A, #r{}}.
-record(r, {f :: t(x)}).

-record(r, {f, g :: #r{f :: x}}).

-record(r, {f :: #r{f :: x}}).

-record(r, {f :: #s{g :: x}}).
-record(s, {g, h :: #r{f :: y}}).";

/// Bounds that lead back to their variables.
pub(crate) const CYCLIC_BOUNDS: &str = "-spec f(A) -> x when A :: [A].

-spec f(x) -> x when A :: A.

-spec f(A) -> x when A :: B, B :: {A}.

-spec f(x) -> x;
       (A) -> B when A :: [B], B :: {C}, C :: x | A.";

/// Spec clauses of different lengths.
pub(crate) const ARITIES: &str = "-spec f(x) -> x;
       (x, y) -> y.

-spec f() -> x;
       () -> y;
       (x) -> z;
       (x, y) -> z.";

/// Ranges whose lower end is above the upper one.
pub(crate) const EMPTY_RANGES: &str = "-type t() :: 3..1.

-type t() :: $b..$a.

-type t() :: {-1..-2}.

-record(r, {f :: 1..-1}).

-spec f(1..0) -> x.";

/// The first of two faults is answered, and at one place the one that comes first by its kind.
pub(crate) const TWO_FAULTS: &str = "-type t() :: foo().
-type u() :: 3..1.

-type t() :: 3..1.
-type u() :: foo().

-type t() :: {foo(), 3..1}.

-type t() :: {3..1, foo()}.

-spec f(x) -> x;
       (x, y) -> y.
-type t() :: pid().

-type t() :: pid().
-spec f(x) -> x;
       (x, y) -> y.

-type t(A) :: {t(x), foo()}.

-type t(A) :: {foo(), t(x)}.

-type t(A) :: {t(foo())}.

-type integer() :: foo().

-type t() :: foo().
-type t() :: x.

-record(r, {f = g() :: foo()}).

-record(r, {f = 1 :: foo(), g = h()}).

-spec f(x) -> x when A :: A, A :: x.

-spec f(x) -> x;
       (A, B) -> B when A :: x, A :: y.

-spec f(x) -> x;
       (A, B) -> B when A :: A.

-spec f(foo()) -> x when A :: A.";

/// What isn't contractive or has a negated fun type is told only where nothing else is wrong.
pub(crate) const FAULTS_BESIDE: &str = "-type t() :: t() | a.
-type u() :: foo().

-type u() :: foo().
-type t() :: t() | a.

-type t() :: t().
-spec f(x) -> 3..1.

-spec f(ety:negation(A)) -> 3..1.

-spec f(ety:negation(A)) -> x.
-type t() :: foo().

-spec f(ety:negation(A)) -> x.
-spec f(y) -> y.

-spec f(ety:negation(A)) -> A when A :: A.

-type t() :: t() | a.
-spec f(ety:negation(A)) -> x.

-spec f(ety:negation(A)) -> x.
-type t() :: t() | a.";

/// Types that stand alone, behind `? `, with the forms of the module with whose types and records they are
/// read.
pub(crate) const SINGLE_TYPES: &str = "? X
? {X, Y, X}
? Y | _
? Z

? _

-type t(A) :: {A, b}.
-record(r, {f, g = 1 :: integer()}).
? t(Y)
? #r{}
? #r{f :: Y}
? [#r{g :: X, f :: t(X)}]

? ety:intersection(X, ety:negation(integer()))
? fun((X) -> [Y, ...])
? fun((N :: X) -> N)
? #{a := Y, integer() => X}

? ety:negation(X)
? ety:negation(fun(() -> X))

-type t(A) :: A.
-record(r, {f}).
? u()
? t()
? {X, 3..1, u()}
? #s{}
? #r{f :: Y, g :: 1, f :: 2}
? #{a := 1, [] := 2, a => pid()}
? #{a := 1, a := X}
? #r{f :: X, f :: Y}
? {pid(), Y}
? X

-type t() :: u().
? t()";
