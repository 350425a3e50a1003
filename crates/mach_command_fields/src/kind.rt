//! How the fields of load commands are read.

/// How a field is read.
#[derive(Clone, Copy, Debug)]
pub enum FieldKind {
    /// A number.
    Number,
    /// A number that is shown in hexadecimal, such as an offset or an address.
    Hexadecimal,
    /// A version of 16, 8 and 8 bits.
    Version,
    /// A version of sources, of 24, 10, 10, 10 and 10 bits.
    SourceVersion,
    /// The number of a platform.
    Platform,
    /// The bits of what memory allows.
    Protection,
    /// A name of at most 16 bytes.
    Name,
    /// The offset of a text in the command.
    Text,
    /// A UUID.
    Uuid,
}
