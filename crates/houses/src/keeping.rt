// What a house keeps of each account that it is made with.
ghost use Rattle.std.specs.Prelude.{◌≡◌, ℕ, ◌≤◌, false, map, length, vec_len, vec_capacity};
ghost use Rattle.houses.specs.declared.openings.Opening.{Opening};
ghost use Rattle.houses.specs.Lists.{first_told};
ghost use Rattle.houses.specs.Openings.{handed_in, opened, faulty};

use crate::openings::Opening;
use crate::telling::Tells;

pub(crate) trait Keeps: Tells {
    ghost kept_of: { Opening → Self };

    // The account as it is kept, which tells what was handed in.
    fn keep(opening: &Opening) -> Self
        requires { opening.now.account ≤ 9999 }
        ensures { result ≡ kept_of opening.now };

    ghost same: { (o : Opening) (k : ℕ) → Self.tells (kept_of o) k ≡ handed_in o k };
}

// The list, which is empty and has room for all of them, with these accounts.
pub(crate) fn filled<T: Keeps>(openings: &[Opening], list: Vec<T>) -> Vec<T>
    requires faultless { faulty openings.now ≡ false }
    requires empty { vec_len list ≡ 0 }
    requires room { length openings.now ≤ vec_capacity list }
    ensures items { result.items ≡ map T.kept_of openings.now }
    ensures balances { first_told T.tells result.items ≡ opened openings.now }
    ensures capacity { vec_capacity result ≡ vec_capacity list }
{
    let mut kept = list;
    // not by `extend`, which may ask for memory
    for opening in openings {
        kept.push_reserved(T::keep(opening));
    }
    kept
}
