// What a member's standing allows, and what becomes of it.
ghost use Rattle.std.specs.Prelude.{◌≡◌, is_ok, is_some, IfErr};
ghost use Rattle.std.specs.Option.{unwrap_or};
ghost use Rattle.book.specs.declared.faults.Fault.TheVariants.{NotActive};
ghost use Rattle.book.specs.Standings.{next};

use crate::faults::Fault;
use crate::rows::Standing;

// The calls that ask for a standing.
#[derive(Clone, Copy)]
pub(crate) enum Event {
    Update,
    Regulate,
    OpenCase,
    CloseCase,
}

impl Standing {
    // Changes the standing as the call asks, or refuses and leaves it as it was.
    pub(crate) fn turn(&mut self, event: Event) -> Result<(), Fault>
        ensures allowed { is_ok result ≡ is_some (next self.old event) }
        ensures refused { IfErr result (λ fault. fault ≡ NotActive) }
        ensures left { self.new ≡ unwrap_or (next self.old event) self.old }
    {
        match (*self, event) {
            (Standing::Active, Event::Update | Event::Regulate | Event::CloseCase)
            | (Standing::Barred, Event::CloseCase) => {}
            (Standing::Active, Event::OpenCase) => *self = Standing::Defaulting,
            (Standing::Defaulting, Event::CloseCase) => *self = Standing::Barred,
            (
                Standing::Defaulting | Standing::Barred,
                Event::Update | Event::Regulate | Event::OpenCase,
            ) => return Err(Fault::NotActive),
        }
        Ok(())
    }
}
