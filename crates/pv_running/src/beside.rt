//! Works that are done side by side.
ghost use Rattle.std.specs.Thread.{IsSync};

use std::thread::{Threads, join_mut};

/// Does two works side by side.
fn do_two<GA: FnMut() + Send, GB: FnMut() + Send, R: Threads + Sync>(rt: &R, a: &mut GA, b: &mut GB)
    requires accepted { GA.pre a.old × GB.pre b.old }
{
    join_mut(rt, a, b);
}

/// Does four works side by side.
fn do_four<
    GA: FnMut() + Send,
    GB: FnMut() + Send,
    GC: FnMut() + Send,
    GD: FnMut() + Send,
    R: Threads + Sync,
>(rt: &R, a: &mut GA, b: &mut GB, c: &mut GC, d: &mut GD)
    requires accepted { GA.pre a.old × GB.pre b.old × GC.pre c.old × GD.pre d.old }
{
    let mut one = || -> ()
        requires { IsSync R.row × GA.pre a.now × GB.pre b.now }
    { do_two(rt, a, b) };
    let mut other = || -> ()
        requires { IsSync R.row × GC.pre c.now × GD.pre d.now }
    { do_two(rt, c, d) };
    join_mut(rt, &mut one, &mut other);
}

/// Does five works side by side. If no thread can be started for the last, it is done after the others.
fn do_five<
    GA: FnMut() + Send,
    GB: FnMut() + Send,
    GC: FnMut() + Send,
    GD: FnMut() + Send,
    GE: FnMut() + Send,
    R: Threads + Sync,
>(rt: &R, a: &mut GA, b: &mut GB, c: &mut GC, d: &mut GD, e: &mut GE)
    requires accepted { GA.pre a.old × GB.pre b.old × GC.pre c.old × GD.pre d.old × GE.pre e.old }
{
    let mut four = || -> ()
        requires { IsSync R.row × GA.pre a.now × GB.pre b.now × GC.pre c.now × GD.pre d.now }
    { do_four(rt, a, b, c, d) };
    join_mut(rt, e, &mut four);
}

/// Does five works side by side, with four others beside them. If no thread can be started for the four, they are done after the five.
pub(crate) fn do_beside<
    GA: FnMut() + Send,
    GB: FnMut() + Send,
    GC: FnMut() + Send,
    GD: FnMut() + Send,
    GE: FnMut() + Send,
    GF: FnMut() + Send,
    GG: FnMut() + Send,
    GH: FnMut() + Send,
    GI: FnMut() + Send,
    R: Threads + Sync,
>(rt: &R, a: GA, b: GB, c: GC, d: GD, e: GE, f: GF, g: GG, h: GH, i: GI)
    requires five { GA.pre a × GB.pre b × GC.pre c × GD.pre d × GE.pre e }
    requires others { GF.pre f × GG.pre g × GH.pre h × GI.pre i }
{
    let (mut a, mut b, mut c, mut d, mut e) = (a, b, c, d, e);
    let (mut f, mut g, mut h, mut i) = (f, g, h, i);
    let (a, b, c, d, e) = (&mut a, &mut b, &mut c, &mut d, &mut e);
    let (f, g, h, i) = (&mut f, &mut g, &mut h, &mut i);
    let mut five = || -> ()
        requires { IsSync R.row × GA.pre a.now × GB.pre b.now × GC.pre c.now × GD.pre d.now
            × GE.pre e.now }
    { do_five(rt, a, b, c, d, e) };
    let mut others = || -> ()
        requires { IsSync R.row × GF.pre f.now × GG.pre g.now × GH.pre h.now × GI.pre i.now }
    { do_four(rt, f, g, h, i) };
    join_mut(rt, &mut others, &mut five);
}
