//! A mapping in which one DSCP has a priority of its own.
ghost use Rattle.std.specs.Prelude.{◌≡◌, ◌<◌};
ghost use Rattle.expectation_rows.specs.Only.{only_map};

use tag_view::DscpMap;

/// The mapping in which this DSCP has a priority, under 8, and each other one priority 0. Of a DSCP over 63 all have priority 0.
pub(crate) fn only_map(dscp: u8, priority: u8) -> DscpMap
    requires { priority < 8 }
    ensures { result.0 ≡ only_map dscp priority }
{
    let mut map = [0; 24];
    if dscp < 64 {
        let group = u32::from(priority) << (3 * (7 - dscp % 8));
        let place = 3 * usize::from(dscp / 8);
        map[place] = (group / 0x1_0000) as u8;
        map[place + 1] = (group / 0x100 % 0x100) as u8;
        map[place + 2] = (group % 0x100) as u8;
    }
    DscpMap(map)
}
