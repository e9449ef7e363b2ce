use byte_path::Bytes;

/// What is said of an attribute (gitattributes(5), "DESCRIPTION").
#[derive(Drop)]
pub enum AttrState {
    /// `name`.
    Set,
    /// `-name`.
    Unset,
    /// `!name`, or nothing is said.
    Unspecified,
    /// `name=value`.
    Value(Bytes),
}
