ghost use Rattle.std.specs.Prelude.{◌≡◌, ◌++◌, ◌∷◌, List, ℕ};
ghost use Rattle.ident_convert.specs.Ident.{expanded, BeginsWithKeyword};

/// The law that a keyword at the front of a text becomes the new one, and what follows it is expanded. It does nothing.
pub fn keyword_is_replaced(text: &[u8], behind: &[u8])
    requires { BeginsWithKeyword text.now behind.now }
    ensures { (keyword : List ℕ) → expanded keyword text.now ≡ keyword ++ expanded keyword behind.now }
{}

/// The law that a byte at which no keyword begins is kept, and what follows it is expanded. It does nothing.
pub fn other_byte_is_kept(byte: u8, text: &[u8])
    requires { (behind : List ℕ) → ¬ BeginsWithKeyword (byte ∷ text.now) behind }
    ensures { (keyword : List ℕ) → expanded keyword (byte ∷ text.now) ≡ byte ∷ expanded keyword text.now }
{}
