ghost use Rattle.std.specs.Prelude.{◌≡◌, ℕ, List, [], Ok, None, IfOk};
ghost use Rattle.chl_inputs.specs.Inputs.{input_from};
ghost use Rattle.chl_inputs.specs.Stages.{Conforms, reading};

use crate::stop::Stop;
use crate::stops_at::{StopsAt, stop_at_end, stop_at_opening};
use desk_io::{Desk, Reader, read_all_into};

/// The value that the named input of this kind comes to, or why the command stops there. The input is opened and read to its
/// end; a reading that is refused leaves the rest unread.
pub fn read_input<D: Desk, R: Reader + Drop, K: StopsAt<R>>(
    desk: &mut D,
    name: &str,
    mut reader: R,
) -> Result<R::Value, Stop>
    requires { R.refused reader [] ≡ None }
    ensures came { IfOk result (λ value. (bytes : List ℕ) × (R.comes_to reader bytes ≡ Ok value)) }
    ensures goes { Conforms D.Desk (reading (input_from (R.refused reader) (R.comes_to reader) K.stop_of name.now)) result desk.old desk.new }
{
    match desk.open_in(name) {
        Ok(()) => {}
        Err(fault) => return Err(stop_at_opening(fault)),
    }
    match read_all_into(desk, &mut reader) {
        Ok(()) => {}
        Err(end) => return Err(stop_at_end::<R, K>(end)),
    }
    match reader.finish() {
        Ok(value) => Ok(value),
        Err(fault) => Err(K::stop(fault)),
    }
}
