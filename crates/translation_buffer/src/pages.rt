// The page of the last fetch.

ghost use Rattle.std.specs.Prelude.{◌≡◌, ℕ, ◌+◌, ◌*◌, ◌/◌, ◌%◌, ◌^◌, ◌<◌, List};
ghost use Rattle.arch_defs.specs.declared.walks.Privilege.{Privilege};
ghost use Rattle.arch_defs.specs.Frames.{Frames};
ghost use Rattle.translation_buffer.specs.Places.{Translator};

/// The page of the last fetch: the address at which it starts, and what is added to an address of it, modulo
/// 2^64, to get its place. Where there is none it starts at 4, which is the start of no page.
#[derive(Clone, Copy)]
pub struct Page {
    pub start: u64,
    pub delta: u64,
    ghost aligned: { start % 4 ≡ 0 },
}

impl Page {
    ghost use Rattle.translation_buffer.specs.Serving.{IsOffPage, IsOffPages, PageStands};

    /// No page.
    #[tactic(auto, using(crate::proofs::KeptPages::no_page_stands))]
    pub fn none() -> Page
        ensures stands { (frames : Frames) (memory : List ℕ) (under : Translator) (who : Privilege)
            → PageStands frames memory under who result }
        ensures none { result.start ≡ 4 }
    {
        Page { start: 4, delta: 0 }
    }

    /// Forgets the page.
    #[inline(always)]
    pub fn forget(&mut self)
        ensures stands { (frames : Frames) (memory : List ℕ) (under : Translator) (who : Privilege)
            → PageStands frames memory under who self.new }
        ensures none { self.new.start ≡ 4 }
    {
        *self = Page::none();
    }

    /// Forgets it, if it is this page.
    #[inline]
    #[tactic(auto, using(crate::proofs::KeptPages::no_page_off, crate::proofs::KeptPages::other_page_off))]
    pub fn forget_page(&mut self, page: u64)
        ensures stands { (frames : Frames) (memory : List ℕ) (under : Translator) (who : Privilege)
            → PageStands frames memory under who self.old → PageStands frames memory under who self.new }
        ensures off { IsOffPage page self.new }
        ensures others { (other : ℕ) → IsOffPage other self.old → IsOffPage other self.new }
    {
        if self.start / 4096 == page {
            self.forget();
        }
    }

    /// Forgets it, if it is one page, or another, if there is another.
    #[inline]
    pub fn forget_pages(&mut self, page: u64, other: Option<u64>)
        ensures stands { (frames : Frames) (memory : List ℕ) (under : Translator) (who : Privilege)
            → PageStands frames memory under who self.old → PageStands frames memory under who self.new }
        ensures off { IsOffPages page other self.new }
    {
        self.forget_page(page);
        match other {
            Some(other) => self.forget_page(other),
            None => {}
        }
    }

    /// The page of an address, by what is added to an address of it.
    #[inline]
    pub fn of(va: u64, delta: u64) -> Page
        ensures start { result.start ≡ va / 4096 * 4096 }
        ensures delta { result.delta ≡ delta }
    {
        Page {
            start: va / 4096 * 4096,
            delta,
        }
    }
}

/// What is added, modulo 2^64, to an address of a page to get its place, where one of them has this place.
pub fn delta(va: u64, place: u64) -> u64
    requires { place % 4096 ≡ va % 4096 }
    ensures { (near : ℕ) → near < 2 ^ 64 → near / 4096 ≡ va / 4096
        → (near + result) % 2 ^ 64 ≡ 4096 * (place / 4096) + near % 4096 }
{
    place.wrapping_sub(va)
}
