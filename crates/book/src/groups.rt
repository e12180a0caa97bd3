// By what an amount is divided over the rows, and the groups that a use is taken from.
ghost use Rattle.std.specs.Prelude.{◌≡◌};
ghost use Rattle.book.specs.Groups.{in_group, weight};

use crate::rows::{Row, Standing};

// The defaulter's base and reserve, and the bases and reserves of the others, in the order in which they pay.
#[derive(Clone, Copy)]
pub(crate) enum Group {
    OwnBase,
    OwnReserve,
    OtherBases,
    OtherReserves,
}

// What a row weighs by: an enum and not a closure, since the definitions of what a call leaves name it.
#[derive(Clone, Copy)]
pub(crate) enum Basis {
    Base,
    Charged,
    Group(Group),
}

// What of a row is in the group.
pub(crate) fn in_group(group: Group, row: &Row) -> u64
    ensures { result ≡ in_group group row.now }
{
    match (group, row.standing) {
        (Group::OwnBase, Standing::Defaulting)
        | (Group::OtherBases, Standing::Active | Standing::Barred) => row.base,
        (Group::OwnReserve, Standing::Defaulting)
        | (Group::OtherReserves, Standing::Active | Standing::Barred) => row.reserve,
        _ => 0,
    }
}

pub(crate) fn weight(basis: Basis, row: &Row) -> u64
    ensures { result ≡ weight basis row.now }
{
    match basis {
        Basis::Base => row.base,
        Basis::Charged => row.charged,
        Basis::Group(group) => in_group(group, row),
    }
}
