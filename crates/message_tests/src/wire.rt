//! Wire forms of ids.
use ddp_messages::own_id;
use ejson_value::Text;
use std::alloc::Global;
use std::test::Fail;

/// The id of a wire form, `no id` where there is none.
pub(crate) fn own(alloc: Global, wire: &Text) -> Result<Text, Fail> {
    match own_id(alloc, wire)? {
        Some(id) => Ok(id),
        None => Ok(Text::from_str(alloc, "no id")?),
    }
}
