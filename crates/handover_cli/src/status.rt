//! How a run ends.

/// How a run ended.
#[derive(Clone, Copy, Debug, PartialEq)]
pub enum Status {
    /// The whole history was written.
    Done,
    /// The script was refused, and a line on the output says where and why.
    Script,
    /// The words aren't those of a run, and a line on the output says which are.
    Usage,
    /// Memory of the host was wanted.
    Memory,
    /// The script or the image couldn't be read.
    ReadFault,
    /// The output couldn't be written.
    WriteFault,
    /// The image was refused, and a line on the output says why.
    Image,
}
