// Laws of the hart that stands for a guest.

ghost use Rattle.hosted_steps.specs.DevicePages.{RunKeepsDevice};
ghost use Rattle.hosted_steps.specs.HartSteps.{StepsFollow, TimeExits, WaitsExit};

/// A step of the hart, loaded for a guest, is a try of the guest's lone machine. What is saved of the hart is
/// the machine after it, or the hart leaves the step to the host, which reads it by `exit_of`: so each WFI,
/// and each read of time.
pub fn hart_steps_follow()
    ensures steps { StepsFollow }
    ensures waits { WaitsExit }
    ensures time { TimeExits }
{}

/// A run caches entries of the device page only where the machine has one.
pub fn device_stays()
    ensures { RunKeepsDevice }
{}
