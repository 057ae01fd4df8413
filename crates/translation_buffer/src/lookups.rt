// What is looked up for an access.

ghost use Rattle.std.specs.Prelude.{◌≡◌};
ghost use Rattle.translation_buffer.specs.Lookups.{lookup_by, lookup_place};

use two_stage_walk::SecondAnswer;

/// What is made of an access for which no table of the first stage is walked. The hart has no device page.
#[derive(Clone, Copy)]
pub enum Lookup {
    /// It is made at this place in memory.
    InMemory(u64),
    /// The second stage has no leaf for this guest physical address, or does not permit the access.
    GuestPageFault(u64),
    /// An entry, or the place of the access, is outside memory.
    AccessFault,
    /// Neither Bare nor a cached translation passes the access on.
    NotPassed,
}

impl Lookup {
    /// Of an access at a guest physical address, of which the second stage makes this.
    #[inline(always)]
    pub fn of(address: u64, answer: SecondAnswer) -> Lookup
        ensures { result ≡ lookup_by address answer }
    {
        match answer {
            SecondAnswer::InMemory(place) => Lookup::InMemory(place),
            SecondAnswer::GuestPageFault => Lookup::GuestPageFault(address),
            SecondAnswer::OnDevice | SecondAnswer::AccessFault => Lookup::AccessFault,
        }
    }

    /// The place in memory.
    #[inline(always)]
    pub fn place(self) -> Option<u64>
        ensures { result ≡ lookup_place self }
    {
        match self {
            Lookup::InMemory(place) => Some(place),
            Lookup::GuestPageFault(_) | Lookup::AccessFault | Lookup::NotPassed => None,
        }
    }
}
