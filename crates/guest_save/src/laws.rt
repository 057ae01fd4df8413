// Laws of forms.

ghost use Rattle.guest_save.specs.Laws.{BadExactly, FormIsSaved, FrontDecides, ReadIsStored, ResumedGoesOn, RoundTrip, RunKeepsSizes, SavableGoesOn, SavableIsFilled, SavedExactly, SavedFirstFresh, SavedUseFresh, StartIsSavable, UnsavedIsBad};

/// The form of a machine that can be saved gives it back, and other bytes than such a form are bad.
pub fn reading_is_exact()
    ensures machine { RoundTrip }
    ensures bad { BadExactly }
    ensures front { FrontDecides }
    ensures stored { ReadIsStored }
{}

/// A machine that was read goes on as the one that was saved, and the machine of each guest can be saved at
/// its start.
pub fn saved_machines_go_on()
    ensures goes_on { SavableGoesOn }
    ensures filled { SavableIsFilled }
    ensures start { StartIsSavable }
    ensures resumed { ResumedGoesOn }
    ensures fresh { SavedUseFresh }
    ensures first { SavedFirstFresh }
{}

/// A test tells exactly which bytes are the form of a machine that can be saved.
pub fn saved_is_decided()
    ensures exactly { SavedExactly }
    ensures form { FormIsSaved }
    ensures bad { UnsavedIsBad }
{}

/// A run keeps the sizes of a machine that caches and reserves in its RAM alone: they stay within the limits,
/// and RAM stays of whole blocks.
pub fn sizes_stay()
    ensures { RunKeepsSizes }
{}
