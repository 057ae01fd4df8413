// Laws of plans.

ghost use Rattle.nesthv_top.specs.OwnSections.{ReportIsSections, SectionsAreOwn};

/// A guest's section is its own: the report is the sections of the guests, and two configurations, on two
/// stores, that agree on a guest's settings, on its files and on the sum of its own turns give the same
/// section of it, and the same machine to be saved, whatever the other guests are, do or hold.
pub fn sections_are_own()
    ensures report { ReportIsSections }
    ensures own { SectionsAreOwn }
{}
