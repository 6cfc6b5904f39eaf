ghost use Rattle.block_pool.specs.Pools.{LooksUp};

use crate::pool::Pool;

/// Law: what a look-up gives after a put, a take, and the calls on all values.
pub fn looks_up<T>(_values: &Pool<T>)
    ensures { LooksUp T }
{}
