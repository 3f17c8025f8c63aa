//! Lists of type definitions.

ghost use Rattle.std.specs.Option.{option_copied};
ghost use Rattle.std.specs.Prelude.{◌≡◌, ◌++◌, ◌^◌, ◌<◌, ◌↔◌, ℕ, IfOk, IsTrue, MatchOption, MatchResult, OnOk, length, reverse, slice_get, take};
ghost use Rattle.std.specs.Prelude.{None as Nothing};
ghost use Rattle.type_terms.specs.Definitions.{AreDefinitions, Reaches};
ghost use Rattle.type_terms.specs.Openness.{names_by};
ghost use Rattle.type_terms.specs.Refusals.{AreWellMade, IsRefusedAs};
ghost use Rattle.type_terms.specs.SignTables.{IsSignTable};
ghost use Rattle.type_terms.specs.Signs.{IsWellSigned};
ghost use Rattle.type_terms.specs.Undefined.{undefined_among};
ghost use Rattle.type_terms.specs.declared.defs.DefFault.TheVariants as faults;

use crate::list::{List, NoMemory};
use crate::names::{undefined_in, undefined_in_bodies};
use crate::naming::naming_graph;
use crate::open_table::open_table;
use crate::openness::{Wanted, find_bare};
use crate::paths::least_on_cycle;
use crate::sign_search::{DefSigns, Sought, signs_in};
use crate::sign_table::sign_table;
use crate::term::{Def, Term};
use std::alloc::Global;
use std::marker::Model;

/// Why a list of definitions is refused.
#[derive(Clone, Copy, Debug, PartialEq, Eq)]
pub enum DefFault {
    /// Memory runs out, or there would be 2^32 definitions.
    NoMemory,
    /// The first name, in the order of the list and of the parts of a body, that has no definition with its
    /// number of arguments.
    NoName(u32),
    /// Each name is defined, and this is the least definition that reaches itself.
    NotContractive(u32),
}

impl From<NoMemory> for DefFault {
    ghost from_gives = { λ _ e. e ≡ faults.NoMemory };

    fn from(_error: NoMemory) -> DefFault {
        DefFault::NoMemory
    }
}

/// Definitions: contractive, with each name defined. Contracts see the list of them.
#[derive(Drop)]
pub struct Defs {
    alloc: Global,
    list: List<Def>,
    /// How fun types and parameters stand in each body.
    signs: List<DefSigns>,
}

impl Model for Defs {
    ghost use Rattle.std.specs.Prelude.{List};
    ghost use Rattle.type_terms.specs.declared.term.Def.{Def};
    ghost use Rattle.std.specs.Coded.{coded_list};
    ghost use Rattle.type_terms.specs.contracts.term.Def as def_contract;

    ghost Value = { List Def };

    ghost coded = { coded_list def_contract.the_row.coded };

    ghost use Rattle.type_terms.specs.Definitions.{AreDefinitions};
    ghost use Rattle.type_terms.specs.SignTables.{IsSignTable};

    ghost view = { λ d. d.list };

    ghost invariant = { λ d. AreDefinitions d.list × IsSignTable d.list d.signs };
}

impl Defs {
    /// The definitions of a list, numbered by their places. Users expect `list` and `ends` as 0 and 1; the
    /// contract doesn't ask for that.
    ///
    /// # Errors
    ///
    /// `NoName` where a name in a body has no definition with its number of arguments: the first one, in the
    /// order of the list, and within a body in the order of its parts. `NotContractive` where each name has
    /// one, and a definition reaches itself: the least one. `NoMemory` where memory runs out, or
    /// the list has 2^32 definitions.
    pub fn new(alloc: Global, list: List<Def>) -> Result<Defs, DefFault>
        requires { AreWellMade list }
        ensures { MatchResult result (λ defs. (defs ≡ list) × AreDefinitions list) (λ fault. IsRefusedAs list fault) }
    {
        let signs = check_definitions(alloc, list.as_slice())?;
        Ok(Defs { alloc, list, signs })
    }

    /// Adds definitions, whose numbers follow those that stand. A refusal leaves what stood.
    ///
    /// # Errors
    ///
    /// Those of `new`, of the old definitions and the new ones together.
    pub fn add(&mut self, more: List<Def>) -> Result<(), DefFault>
        requires { AreWellMade more }
        ensures { MatchResult result (λ _. (self.new ≡ self.old ++ more) × AreDefinitions (self.old ++ more)) (λ fault. (self.new ≡ self.old) × AreDefinitions self.old × IsRefusedAs (self.old ++ more) fault) }
    {
        let signs = add_definitions(self.alloc, &mut self.list, more)?;
        self.signs = signs;
        Ok(())
    }

    /// The definition of a number; `None` where it isn't below the count. Takes no memory.
    pub fn get(&self, number: u32) -> Option<&Def>
        ensures definition { option_copied result ≡ slice_get self.now number }
        ensures definitions { AreDefinitions self.now }
    {
        self.list.get(number as usize)
    }
}

/// Whether the term is well signed: each of its names is defined, and neither a fun type nor a
/// variable stands under an odd number of negations, at any depth and through names. Takes no memory.
pub fn well_signed(term: &Term, defs: &Defs) -> bool
    ensures { IsTrue result ↔ IsWellSigned defs.now term.now }
{
    match undefined_in(defs.list.as_slice(), term) {
        Some(_) => false,
        None => !signs_in(defs.signs.as_slice(), Sought::FunsAndVariables, term).odd,
    }
}

/// Adds definitions to a list, which is as it was where they are refused, and answers their signs.
fn add_definitions(
    alloc: Global,
    list: &mut List<Def>,
    more: List<Def>,
) -> Result<List<DefSigns>, DefFault>
    requires { AreWellMade (list.old ++ more) }
    ensures { MatchResult result (λ signs. (list.new ≡ list.old ++ more) × AreDefinitions (list.old ++ more) × IsSignTable (list.old ++ more) signs) (λ fault. (list.new ≡ list.old) × IsRefusedAs (list.old ++ more) fault) }
{
    let more = turned(alloc, more)?;
    let count = list.len();
    let answer = push_and_check(alloc, list, more);
    if answer.is_err() {
        cut(list, count);
    }
    answer
}

/// Adds definitions to the end of a list, which begins as it was, be they refused or not, and answers
/// their signs.
fn push_and_check(
    alloc: Global,
    list: &mut List<Def>,
    more: List<Def>,
) -> Result<List<DefSigns>, DefFault>
    requires { AreWellMade (list.old ++ reverse more) }
    ensures begins { take (length list.old) list.new ≡ list.old }
    ensures checked { MatchResult result (λ signs. (list.new ≡ list.old ++ reverse more) × AreDefinitions (list.old ++ reverse more) × IsSignTable (list.old ++ reverse more) signs) (λ fault. IsRefusedAs (list.old ++ reverse more) fault) }
{
    push_turned(list, more)?;
    let whole = list.as_slice();
    let signs = check_definitions(alloc, whole)?;
    Ok(signs)
}

/// The definitions from last to first.
fn turned(alloc: Global, defs: List<Def>) -> Result<List<Def>, NoMemory>
    ensures { IfOk result (λ made. reverse made ≡ defs) }
{
    let mut defs = defs;
    let mut made = List::new(alloc);
    'turning: while let Some(def) = defs.pop() {
        made.push(def)?;
    }
    Ok(made)
}

/// Adds definitions, from last to first, to the end of a list, which in either case begins as it was.
fn push_turned(list: &mut List<Def>, more: List<Def>) -> Result<(), NoMemory>
    ensures all { OnOk result (list.new ≡ list.old ++ reverse more) }
    ensures begins { take (length list.old) list.new ≡ list.old }
{
    let mut more = more;
    'pushing: while let Some(def) = more.pop() {
        list.push(def)?;
    }
    Ok(())
}

/// Takes away what stands past a count.
fn cut(list: &mut List<Def>, count: usize)
    ensures { list.new ≡ take count list.old }
{
    'longer: while list.len() > count {
        list.pop();
    }
}

/// The signs of the definitions, if these are what they have to be.
fn check_definitions(alloc: Global, defs: &[Def]) -> Result<List<DefSigns>, DefFault>
    requires { AreWellMade defs.now }
    ensures { MatchResult result (λ signs. AreDefinitions defs.now × IsSignTable defs.now signs) (λ fault. IsRefusedAs defs.now fault) }
{
    if defs.len() > u32::MAX as usize {
        return Err(DefFault::NoMemory);
    }
    match undefined_in_bodies(defs) {
        Some(number) => Err(DefFault::NoName(number)),
        None => check_contractive(alloc, defs),
    }
}

/// The signs of the definitions, if none reaches itself, where each name is defined.
fn check_contractive(alloc: Global, defs: &[Def]) -> Result<List<DefSigns>, DefFault>
    requires made { AreWellMade defs.now }
    requires fewer { length defs.now < 2 ^ 32 }
    requires named { undefined_among defs.now ≡ Nothing }
    ensures { MatchResult result (λ signs. AreDefinitions defs.now × IsSignTable defs.now signs) (λ fault. IsRefusedAs defs.now fault) }
{
    let graph = naming_graph(alloc, defs)?;
    match first_reaching_itself(alloc, defs, &graph)? {
        Some(number) => Err(DefFault::NotContractive(number)),
        None => {
            let signs = sign_table(alloc, defs, &graph)?;
            Ok(signs)
        }
    }
}

/// The least definition that reaches itself.
fn first_reaching_itself(
    alloc: Global,
    defs: &[Def],
    graph: &[List<u32>],
) -> Result<Option<u32>, NoMemory>
    requires { length defs.now < 2 ^ 32 }
    ensures { IfOk result (λ answer. MatchOption answer ((n : ℕ) → Reaches defs.now n n → ⊥) (λ n. Reaches defs.now n n × ((m : ℕ) → m < n → Reaches defs.now m m → ⊥))) }
{
    let table = open_table(alloc, defs, graph)?;
    let names = named_in(alloc, defs, &table)?;
    let answer = least_on_cycle(alloc, &names)?;
    Ok(answer)
}

/// For each definition, those that its body names bare.
fn named_in(alloc: Global, defs: &[Def], table: &[List<bool>]) -> Result<Vec<List<u32>>, NoMemory>
    ensures { IfOk result (λ names. names.items ≡ names_by table.now defs.now) }
{
    let mut names = Vec::new(alloc);
    'bodies: for def in defs {
        let mut found = List::new(alloc);
        find_bare(Wanted::Names, table, &def.body, &mut found)?;
        names.push(found)?;
    }
    Ok(names)
}
