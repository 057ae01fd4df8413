// Laws of the definitions.

ghost use Rattle.caching_steps.specs.Remembering.{NamesSuffice, RemembersAlike, RemembersAtStart, RemembersOn, TellsSince};

/// The notes of what each step caches tell since when a translation is cached that a step uses: the last step
/// that has cached it, as the log says it. They tell it of each that is cached, so of each that is used.
pub fn notes_tell_since()
    ensures start { RemembersAtStart }
    ensures goes { RemembersOn }
    ensures tells { TellsSince }
{}

/// Notes can be exchanged for others that tell the same of what is cached, so for those that are renewed for
/// the names of all of it.
pub fn notes_can_be_renewed()
    ensures alike { RemembersAlike }
    ensures names { NamesSuffice }
{}
