ghost use Rattle.std.specs.Prelude.{◌≡◌, ◌≤◌, ◌<◌, length, vec_len, IfSome, OnOk};
ghost use Rattle.erl_scope_stack.specs.Stored.{place_by_role};
ghost use Rattle.erl_scope_stack.specs.Indexed.{top_reaches, IsBindingAt, IsChangedAt, IsCountable, IsCounted, counted_up, counted_down, with_top, IsRoomier};

use erl_scope_rules::Role;
use erl_tree::Place;
use type_terms::NoMemory;

/// A variable that is seen.
#[derive(Clone, Copy)]
pub struct Seen {
    /// The number of its name.
    pub name: usize,
    pub place: Place,
    pub role: Role,
    /// Where the innermost binding of its name stands, among this variable and those below.
    pub binding: Option<Place>,
    /// The topmost variable below that has the same name.
    pub below: Option<usize>,
}

/// What is known of a name.
#[derive(Clone, Copy)]
pub struct NameState {
    /// The topmost variable that has the name.
    pub top: Option<usize>,
    /// How often it stands among the names that ended.
    pub ended: usize,
}

pub fn binding_by_role(role: Role, place: Place, outer: Option<Place>) -> Option<Place>
    ensures { result ≡ place_by_role role place outer }
{
    match role {
        Role::Used => outer,
        Role::Met => match outer {
            None => Some(place),
            Some(binding) => Some(binding),
        },
        Role::Renewed => Some(place),
    }
}

pub fn binding_at(seen: &[Seen], top: Option<usize>) -> Option<Place>
    requires { IfSome top (λ at. at < length seen.now) }
    ensures { IsBindingAt seen.now top result }
{
    match top {
        None => None,
        Some(at) => seen[at].binding,
    }
}

/// Whether the topmost variable of a name lies above the first so many.
pub fn reaches(top: Option<usize>, seen: usize) -> bool
    ensures { result ≡ top_reaches seen top }
{
    match top {
        None => false,
        Some(at) => seen <= at,
    }
}

pub fn count_up(states: &mut [NameState], name: usize)
    requires within { name < length states.old }
    requires fits { IsCountable states.old name }
    ensures { IsChangedAt name counted_up states.old states.new }
{
    states[name].ended += 1;
}

pub fn count_down(states: &mut [NameState], name: usize)
    requires within { name < length states.old }
    requires counted { IsCounted states.old name }
    ensures { IsChangedAt name counted_down states.old states.new }
{
    states[name].ended -= 1;
}

pub fn set_top(states: &mut [NameState], name: usize, top: Option<usize>)
    requires { name < length states.old }
    ensures { IsChangedAt name (with_top top) states.old states.new }
{
    states[name].top = top;
}

/// Makes room for the state of one more name.
pub fn make_room(states: &mut Vec<NameState>, names: usize) -> Result<(), NoMemory>
    requires { names ≤ vec_len states.old }
    ensures room { IsRoomier states.old.items states.new.items }
    ensures enough { OnOk result (names < vec_len states.new) }
{
    if names == states.len() {
        states.push(NameState {
            top: None,
            ended: 0,
        })?;
    }
    Ok(())
}
