//! An elapse: ticks with the bands settled after each, from stop to stop and not tick by tick.
#![tactic(auto)]

ghost use Rattle.elapse.specs.Jumps.{Elapses};

use drive::Drive;

/// The most ticks of an elapse.
pub const MOST_TICKS: u64 = 4_294_967_295;

/// Lets n ticks pass, in at most one turn more than there are stops, and hands back how many stops there were. The quiet ticks of a turn
/// change no condition, so the bands settle once after all of a turn.
pub fn elapse(drive: &mut Drive, n: u32) -> u64
    ensures { Elapses n drive.old result drive.new }
{
    let mut left = n;
    let mut stops: u64 = 0;
    // stays: (4) a turn says how many ticks it leaves, so there is nothing to count by a `for`
    while 0 < left {
        let turn = sensors::turn_once(&mut drive.sensors, left);
        drive.settle();
        left = turn.left;
        stops += turn.stops;
    }
    stops
}
