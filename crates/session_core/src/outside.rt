//! What others take out of a session.
ghost use Rattle.session_core.specs.Kept.{seen, IsKept};
ghost use Rattle.session_core.specs.session_laws.Events.{Sends};

use crate::inner::Inner;
use ejson_value::Text;

/// The text that is sent next.
pub(crate) fn send(inner: &mut Inner) -> Option<Text>
    requires { IsKept inner.old }
    ensures sends { Sends (seen inner.old) (seen inner.new) result }
    ensures kept { IsKept inner.new }
{
    if inner.dropped {
        return None;
    }
    inner.parts.outbox.pop_front()
}
