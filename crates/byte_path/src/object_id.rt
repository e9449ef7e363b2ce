//! The name of an object.

/// The name of an object: the 20 bytes of the SHA-1 of what it stores (gitformat-index(5), gitformat-pack(5)).
pub type ObjectId = [u8; 20];
