// What an item of a list tells of an account, and what a list tells first.
ghost use Rattle.std.specs.Prelude.{◌≡◌, ℕ, Option};
ghost use Rattle.houses.specs.Lists.{first_told};

pub(crate) trait Tells {
    ghost tells: { Self → ℕ → Option ℕ };

    // The balance that the item tells for the account.
    fn tells(&self, account: u64) -> Option<u64>
        ensures { result ≡ tells self.now account };
}

// The first balance that an item tells for the account.
pub(crate) fn first_told<T: Tells>(items: &[T], account: u64) -> Option<u64>
    ensures { result ≡ first_told T.tells items.now account }
{
    items.iter().find_map(|item| item.tells(account))
}
