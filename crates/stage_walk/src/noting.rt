// Where a walk notes the frames of what it reads.

ghost use Rattle.std.specs.Prelude.{◌≡◌, true};
ghost use Rattle.arch_defs.specs.Frames.{Frames, Within};

/// What notes the frames of the entries that a walk reads.
pub trait Notes {
    // The frames that it holds.
    ghost held: { Self → Frames };

    // Those of them that were noted of late.
    ghost recent: { Self → Frames };

    /// Notes a frame.
    fn note(&mut self, frame: u64)
        ensures more { Within (held self.old) (held self.new) }
        ensures recent { Within (recent self.old) (recent self.new) }
        ensures noted { recent self.new frame ≡ true };
}

// Of a walk that notes nothing all frames count as noted.
impl Notes for () {
    ghost held = { λ notes frame. true };

    ghost recent = { λ notes frame. true };

    #[inline(always)]
    fn note(&mut self, _frame: u64) {}
}
