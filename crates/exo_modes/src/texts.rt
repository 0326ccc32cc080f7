//! Texts as bytes: whether two are the same, and whether one names the data of a parameter.
ghost use Rattle.std.specs.Prelude.{◌≡◌, ◌++◌};
ghost use Rattle.exo_meaning.specs.Units.{is_text, data_ending};

/// Whether the texts are the same.
pub fn is_same(one: &[u8], other: &[u8]) -> bool
    ensures { result ≡ is_text one.now other.now }
{
    one == other
}

/// Whether the text is the name with `_data` behind it.
pub fn is_data_of(text: &[u8], name: &[u8]) -> bool
    ensures { result ≡ is_text text.now (name.now ++ data_ending) }
{
    if text.len() < name.len() {
        return false;
    }
    let (front, back) = text.split_at(name.len());
    is_same(front, name) && is_same(back, b"_data")
}
