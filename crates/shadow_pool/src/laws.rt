// Laws of pools.

ghost use Rattle.shadow_pool.specs.Laws.{EnteredIsInFront, FarIsNotOnDevice, FrontGivesEntries, FrontGivesRam, FrontIsEnteredAgain, FrontMissesAreGuestPageFaults, HostIsApartFromSpaces, PoolLiesWithin, RamIsApartFromSpaces, TidyPoolLasts};

use arch_defs::Part;

/// A pool stays tidy in memory where the bytes of its own frames stay, whatever else changes.
pub fn tidy_pool_lasts()
    ensures { TidyPoolLasts }
{}

/// The second stage by the front table of a tidy pool, in memory that holds the guest's RAM, has each guest
/// physical address where the entries of the front space have it, at its place in machine memory. Any other
/// access is a guest-page fault. What the entries give is in the guest's RAM, and no access at an address
/// beyond guest physical addresses is on the device page.
pub fn front_gives_entries()
    ensures places { FrontGivesEntries }
    ensures faults { FrontMissesAreGuestPageFaults }
    ensures ram { FrontGivesRam }
    ensures far { FarIsNotOnDevice }
{}

/// The space that was entered is in front, and no more happens when it is entered once more.
pub fn entered_is_in_front()
    ensures front { EnteredIsInFront }
    ensures again { FrontIsEnteredAgain }
{}

/// The frames that a part has for that many spaces are frames of the part, apart from its RAM and from its
/// host table.
pub fn pool_is_apart(part: &Part)
    ensures within { PoolLiesWithin part.now }
    ensures ram { RamIsApartFromSpaces part.now }
    ensures host { HostIsApartFromSpaces part.now }
{
    part.names_each_once();
}
