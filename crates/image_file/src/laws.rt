//! What images and frames are to each other, for all frames and all bytes.

ghost use Rattle.image_file.specs.Image.{ImageIsRead, ReadIsImage};

/// The image of frames has no fault, and these frames and this entry number are read from it. Bytes without a fault are the
/// image of the frames and the entry number that are read from them. So frames have one image each, and an image has one
/// reading.
pub fn law_of_images()
    ensures read { ImageIsRead }
    ensures image { ReadIsImage }
{}
