//! Values by name, in one lane or more.
ghost use Rattle.std.specs.Prelude.{◌≡◌, None, OnOk, OnErr};
ghost use Rattle.std.specs.Borrow.{sem};
ghost use Rattle.std.specs.Option.{option_copied, option_copied_mut};
ghost use Rattle.std.specs.BTreeMap.{insert_entry};
ghost use Rattle.map_model.specs.Maps.{at};
ghost use Rattle.value_model.specs.Order.{text_cmp};
ghost use Rattle.lanes.specs.Lanes.{Named};
ghost use Rattle.lanes.specs.Lent.{LendsValue};

use ejson_value::{Mem, Text};

/// Values by name, in one lane or more.
pub trait Lanes<X> {
    /// All of them, whichever lane they are in.
    ghost values: { Self → Named X };

    /// How many values the lane has that has the fewest.
    fn fewest(&self) -> usize;

    /// The value of this name.
    fn get(&self, name: &Text) -> Option<&X>
        ensures value { option_copied result ≡ at text_cmp (values self.now) name.now };

    /// The value of this name, to be written.
    fn get_mut(&mut self, name: &Text) -> Option<&mut X>
        ensures* written { sem 𝓛 (LendsValue Self.row X.row values self.entry name.now result) }
        ensures value { option_copied_mut result ≡ at text_cmp (values self.old) name.now };

    /// Puts a value of a name that none has. Where memory runs out, none is there that wasn't.
    fn put(&mut self, name: Text, value: X) -> Result<(), Mem>
        requires { at text_cmp (values self.old) name ≡ None }
        ensures ok { OnOk result (values self.new ≡ insert_entry text_cmp (values self.old) name value) }
        ensures err { OnErr result (values self.new ≡ values self.old) };
}
