// Laws of packets and of digits.

ghost use Rattle.gdb_packets.specs.Laws.{CutIsNone, FramedIsRead, HexIsRead};

/// What is framed is read back, whatever follows it, and a packet that is cut anywhere is none yet.
pub fn frames_are_read_back()
    ensures whole { FramedIsRead }
    ensures cut { CutIsNone }
{}

/// The digits of bytes give them back.
pub fn digits_are_read_back()
    ensures { HexIsRead }
{}
