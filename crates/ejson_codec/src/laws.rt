//! Laws of what is read and written.
ghost use Rattle.std.specs.Prelude.{◌≡◌, ◌↔◌, length};
ghost use Rattle.serde_json.specs.Data.{Data};
ghost use Rattle.serde_json.specs.Written.{compact_text};
ghost use Rattle.value_model.specs.Val.{Val};
ghost use Rattle.value_model.specs.Valid.{IsValue};
ghost use Rattle.value_model.specs.Size.{size};
ghost use Rattle.ejson_codec.specs.Reads.{Reads};
ghost use Rattle.ejson_codec.specs.Trees.{IsTree, IsEscapedExactly};
ghost use Rattle.ejson_codec.specs.Written.{written};

/// Of the well-formed trees with `$escape` exactly round the objects whose keys are special, the
/// written one alone reads as the value.
pub fn one_tree()
    ensures { (d : Data) (v : Val) → IsValue v → IsTree d → IsEscapedExactly d → (Reads d v ↔ (d ≡ written v)) }
{}

/// A value's size is the length of its text.
pub fn size_of_text()
    ensures { (v : Val) → IsValue v → size v ≡ length (compact_text (written v)) }
{}
