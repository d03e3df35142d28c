// The loop over the lanes, once for every family.
ghost use Rattle.std.specs.Prelude.{◌≡◌, ◌+◌, ◌*◌, ◌<◌};
ghost use Rattle.pool.specs.Growth.{Room};
ghost use Rattle.lower.specs.Lanes.{Plan, Ready, Fits, MakesLane, MakesLanes};

use neon::Lane;
use pool::Built;

// A family of instructions that makes its lanes one by one.
pub trait Lanes {
    ghost plan: { Self → Plan };

    // How many lanes there are.
    fn lanes(&self) -> u64
        ensures { result ≡ (plan self.now).lanes };

    // Lane `index`.
    fn make(&self, pool: &mut [u64], count: usize, index: Lane) -> Built
        requires room { Room pool.old count (plan self.now).nodes }
        requires ready { Ready (plan self.now) count × (index.0 < (plan self.now).lanes) }
        ensures { MakesLane pool.old count pool.new result (plan self.now) index.0 };
}

// Every lane, each put above those below it as it arises.
pub fn concat_each<L: Lanes>(pool: &mut [u64], count: usize, family: &L) -> Built
    requires room { Room pool.old count (((L.plan family.now).nodes + 1) * (L.plan family.now).lanes) }
    requires ready { Ready (L.plan family.now) count × Fits (L.plan family.now) }
    ensures { MakesLanes pool.old count pool.new result (L.plan family.now) }
{
    let mut all = family.make(pool, count, Lane::first());
    for i in 1..family.lanes() {
        let lane = family.make(pool, all.count, Lane(i));
        all = lower_simd::concat_lanes(pool, lane.count, lane.node, all.node);
    }
    all
}
