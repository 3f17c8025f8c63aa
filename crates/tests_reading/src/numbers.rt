//! The numbers of variables of which several stand at one place, as no text has them.

use erl_scope_numbers::Scopes;
use erl_scope_rules::{NameFault, Resolved};
use erl_tree::Place;
use std::test::Fail;

fn place(column: u32) -> Place {
    Place { line: 1, column }
}

/// A variable of the first line that has this binding.
fn seeing(column: u32, binding: u32) -> Resolved {
    Resolved {
        place: place(column),
        binding: Some(place(binding)),
        binds: column == binding,
        fault: None,
    }
}

fn unbound(column: u32) -> Resolved {
    Resolved {
        place: place(column),
        binding: None,
        binds: false,
        fault: Some(NameFault::Unbound),
    }
}

/// The first at a place counts, also where it has no binding.
#[test]
fn several_at_one_place(rt: HostRuntime) -> Result<(), Fail> {
    let found = [
        unbound(1),
        seeing(1, 1),
        seeing(5, 5),
        seeing(5, 5),
        seeing(9, 5),
    ];
    let scopes = Scopes::new(rt.alloc(), &found)?;
    for (column, number) in [(1, None), (5, Some(1)), (9, Some(1)), (2, None)] {
        assert_eq!(rt; scopes.of(place(column)), number);
    }
    for (number, wanted) in [(0, Some(place(1))), (2, Some(place(5))), (3, None)] {
        assert_eq!(rt; scopes.place_of(number), wanted);
    }
    Ok(())
}
