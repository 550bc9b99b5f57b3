//! Opening a file.

ghost use Rattle.std.specs.Prelude.{◌≡◌};
ghost use Rattle.hart_step.specs.Core.{core_of};
ghost use Rattle.plain_runner.specs.Outcomes.{OpenComesTo};

use crate::answering::settle;
use crate::ending::Ending;
use file_calls::errno::ENOENT;
use file_calls::{Change, Files};
use hart_step::Hart;
use spec_base::Name;
use world_io::{Look, Store};

/// Opens a file: one look.
pub fn open<S: Store>(
    hart: &mut Hart,
    files: &mut Files,
    name: &Name,
    store: &mut S,
) -> Option<Ending>
    ensures { OpenComesTo name.now (S.state store.old) (core_of hart.old) files.old result (S.state store.new) (core_of hart.new) files.new }
{
    match store.look(name) {
        Look::Found(size) => {
            let after = files.found(*name, size);
            settle(hart, files, &after.0, &after.1);
            None
        }
        Look::Absent => {
            settle(hart, files, &Change::Nothing, &ENOENT);
            None
        }
        Look::Failed => Some(Ending::StoreFault),
    }
}
