// A program line by line.

ghost use Rattle.std.specs.Prelude.{◌≡◌, true, OnOk};
ghost use Rattle.work_images.specs.Lines.{can_add, can_add_all, id_of, with_line, with_all_lines};

use no_memory::NoMemory;
use op_defs::Op;
use rv64_asm::{Image, encode};

/// The labels of a program.
#[derive(Clone, Copy)]
pub enum Label {
    Again,
    Unfenced,
    Put,
    Done,
}

impl Label {
    fn id(self) -> u32
        ensures { result ≡ id_of self }
    {
        match self {
            Label::Again => 0,
            Label::Unfenced => 1,
            Label::Put => 2,
            Label::Done => 3,
        }
    }
}

/// A line of a program.
#[derive(Clone, Copy)]
pub enum Line {
    /// An instruction.
    Op(Op),
    /// A branch or jump to a label.
    To(Op, Label),
    /// A label, at the next instruction.
    Label(Label),
    /// An instruction at a place.
    OpAt(u64, Op),
    /// A doubleword at a place.
    DoubleAt(u64, u64),
    /// A byte at a place.
    ByteAt(u64, u8),
}

impl Line {
    /// Adds the line to an image.
    pub fn add(self, image: &mut Image) -> Result<(), NoMemory>
        requires { can_add image.old self ≡ true }
        ensures { OnOk result (image.new ≡ with_line image.old self) }
    {
        match self {
            Line::Op(op) => image.push(op),
            Line::To(op, label) => image.push_to(op, label.id()),
            Line::Label(label) => image.label(label.id()),
            Line::OpAt(place, op) => image.place(place, &encode(&op).to_le_bytes()),
            Line::DoubleAt(place, value) => image.place(place, &value.to_le_bytes()),
            Line::ByteAt(place, value) => image.place(place, &[value]),
        }
    }
}

/// Adds lines to an image, in order.
pub fn add_all(image: &mut Image, lines: &[Line]) -> Result<(), NoMemory>
    requires { can_add_all image.old lines.now ≡ true }
    ensures { OnOk result (image.new ≡ with_all_lines image.old lines.now) }
{
    for line in lines {
        line.add(image)?;
    }
    Ok(())
}
