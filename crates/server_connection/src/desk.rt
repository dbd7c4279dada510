//! What is kept beside a link.
use ejson_value::Text;

/// A text that the link handed back, which is offered next; a text that the session refused, which it is to take next; and
/// whether the link ever handed a text back.
#[derive(Drop)]
pub struct Desk {
    pub(crate) back: Option<Text>,
    pub(crate) held: Option<Text>,
    pub(crate) refused: bool,
}
