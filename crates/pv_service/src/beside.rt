ghost use Rattle.pv_service.specs.Beside.{Accepts, Changes};

use std::thread::{Threads, join_mut};

/// Changes two values side by side: the first on a thread of its own, or after the other if none can be started.
pub fn change_beside<R: Threads, A: Send, B, F: Fn(&mut A) + Sync, G: Fn(&mut B)>(
    rt: &R,
    one: &mut A,
    other: &mut B,
    change_one: &F,
    change_other: &G,
)
    requires one_accepted { Accepts F.Fn change_one.now one.old }
    requires other_accepted { Accepts G.Fn change_other.now other.old }
    ensures one { Changes F.Fn change_one.now one.old one.new }
    ensures other { Changes G.Fn change_other.now other.old other.new }
{
    let mut first = || -> ()
        requires { Accepts F.Fn change_one.now one.now }
        ensures { Changes F.Fn change_one.entry.now one.entry.now one.exit.now }
    { change(one, change_one) };
    let mut second = || -> ()
        requires { Accepts G.Fn change_other.now other.now }
        ensures { Changes G.Fn change_other.entry.now other.entry.now other.exit.now }
    { change(other, change_other) };
    join_mut(rt, &mut first, &mut second);
}

/// Changes a value in place.
fn change<T, F: Fn(&mut T)>(value: &mut T, how: &F)
    requires { Accepts F.Fn how.now value.old }
    ensures { Changes F.Fn how.now value.old value.new }
{
    how(value);
}
