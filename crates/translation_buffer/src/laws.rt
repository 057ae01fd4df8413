// Laws of translations.

ghost use Rattle.translation_buffer.specs.Laws.{FillKeeps, HitIsPlace, HitsFindNothing, ServesStored, TranslationsStay};

/// A translation depends on the entries that it read alone, and all addresses of a page have their places
/// in one frame.
pub fn translations_stay()
    ensures { TranslationsStay }
{}

/// A buffer serves on after a store to a frame of which nothing was read.
pub fn buffers_serve_on()
    ensures { ServesStored }
{}

/// Where no table of the first stage is walked for an access, its place is that of the second stage, and
/// there is nothing to cache.
pub fn hits_are_known()
    ensures place { HitIsPlace }
    ensures none { HitsFindNothing }
{}

/// A fill changes what is known of two pages alone.
pub fn fills_keep_others()
    ensures { FillKeeps }
{}
