// The fences of one session, fired by hand.
ghost use Rattle.std.specs.Prelude.{◌≡◌, []};

use std::alloc::Global;
use std::test::Fail;
use write_fence::Fences;

// Each row: the least cursor, `-` where there is none, `opening` where a subscription is opened, and what fires.
const CALLS: &str = "2 => -
3 opening => -
3 => 1
4 => 0
3 => 2
3 => -
4 => 4
4 => -
- opening => -
- => 3
- => -
";

fn arm(fences: &mut Fences) -> Result<(), Fail>
    requires { fences.old ≡ [] }
{
    fences.arm(0, 4)?;
    fences.arm(1, 3)?;
    fences.arm(2, 3)?;
    fences.arm(3, 9)?;
    fences.arm(4, 4)?;
    Ok(())
}

fn is_right(fences: &mut Fences, row: &str) -> bool {
    let Some((call, fires)) = row.split_once(" => ") else {
        return false;
    };
    let (least, opening) = match call.split_once(" ") {
        None => (call, false),
        Some((least, _)) => (least, true),
    };
    fences.fired(least.parse::<u64>().ok(), opening) == fires.parse::<u64>().ok()
}

fn wrong_row(fences: &mut Fences) -> &'static str {
    for row in CALLS.lines() {
        if !is_right(fences, row) {
            return row;
        }
    }
    ""
}

// The first row that isn't right, or nothing.
pub(crate) fn wrong(alloc: Global) -> Result<&'static str, Fail> {
    let mut fences = Fences::new(alloc);
    arm(&mut fences)?;
    Ok(wrong_row(&mut fences))
}
