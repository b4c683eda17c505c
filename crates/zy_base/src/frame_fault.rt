/// Why bytes are no frame.
#[derive(Clone, Copy, Debug, PartialEq, Eq)]
pub enum FrameFault {
    /// The bytes end before a field does.
    Short,
    /// The first byte is no version that is spoken.
    Version,
    /// The second byte is no kind of frame.
    Kind,
    /// There are more bytes than a frame may have.
    TooLong,
    /// Bytes stand after the last field.
    Trailing,
    /// A field's bytes or its length are outside what is allowed.
    Range,
}
