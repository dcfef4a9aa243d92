// A feeder's shift: eighteen readings of a yarn's tension, one of which is lost on the wire and three
// of which are refused. Writes a line for each step, and then what became of the readings. Then ten
// readings of another yarn, by the record of one state, which is blind for a while.
#![tactic(auto)]

mod table;
mod work;

use std::io;

fn main(rt: HostRuntime) -> io::Result<()> {
    table::head(&rt)?;
    let t = work::run(&rt)?;
    table::foot(&rt, t)?;
    table::yarn_head(&rt)?;
    let yarn = work::watch(&rt)?;
    table::yarn_foot(&rt, yarn)
}
