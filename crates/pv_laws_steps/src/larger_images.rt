//! Laws of a run on an image and on a larger one.

ghost use Rattle.pv_laws_steps.specs.Images.{LargerImagesKeepTraces};

/// If a schedule starts on an image, it starts with the same turns on a larger image with the same nodes. If the first
/// run has no ENAMETOOLONG, EFBIG or ENOSPC, both have the same text, byte for byte, and leave equal nodes under the
/// same numbers.
pub fn larger_images_keep_traces()
    ensures { LargerImagesKeepTraces }
{}
