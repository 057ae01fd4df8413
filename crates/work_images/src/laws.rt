// Laws of the definitions.

ghost use Rattle.work_images.specs.Laws.{ImageLength};

/// How long the image of a generated guest is.
pub fn image_length()
    ensures { ImageLength }
{}
