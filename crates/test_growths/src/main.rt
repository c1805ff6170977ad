// Makes calls of the stores and of a topology that take memory, and says after a refused one whether the value is as before.
//
// A refused call is made once more. So where one growth is refused, each call is done in the end, and the text of the topology,
// which is written last, is the same. tools/sweep refuses each growth in turn.
#![tactic(auto)]

mod call;
mod errors;
mod features;
mod value;

use call::{Call, Made};
use dirty_area::Dirt;
use error_store::Errors;
use errors::{DIRT, ERRORS};
use feature_store::Store;
use features::{STORE, TOPOLOGY};
use grid_plane::NoMemory;
use rules::PosterRules;
use std::io;
use std::io::{ErrorKind, Write};
use topo_core::Topology;
use value::Value;

// A result of a value, as the program's own result.
fn given<T>(ended: Result<T, NoMemory>) -> io::Result<T> {
    match ended {
        Ok(value) => Ok(value),
        Err(_) => Err(io::Error::from(ErrorKind::OutOfMemory)),
    }
}

// Makes a call; where it is refused it says whether the value is as before, and makes it once more.
fn make<V: Value, C: Call<V>>(
    rt: &HostRuntime,
    of: &str,
    value: &mut V,
    call: &C,
) -> io::Result<()> {
    let alloc = rt.alloc();
    let name = call.name();
    let before = given(value.text(alloc))?;
    if given(call.make(alloc, value))? == Made::NoMemory {
        let after = given(value.text(alloc))?;
        let is_same = after.as_slice() == before.as_slice();
        let end = if is_same { "as before" } else { "changed" };
        println!(rt; "{of}, {name}: refused, {end}")?;
        given(call.make(alloc, value))?;
    }
    println!(rt; "{of}, {name}: done")
}

// Makes these calls of a value, in their order.
fn make_all<V: Value, C: Call<V>>(
    rt: &HostRuntime,
    of: &str,
    value: &mut V,
    calls: &[C],
) -> io::Result<()> {
    for call in calls {
        make(rt, of, value, call)?;
    }
    Ok(())
}

fn main(rt: HostRuntime) -> io::Result<()> {
    let alloc = rt.alloc();
    make_all(&rt, "store", &mut Store::new(alloc), &STORE)?;
    make_all(&rt, "errors", &mut Errors::new(alloc), &ERRORS)?;
    make_all(&rt, "dirt", &mut Dirt::new(alloc), &DIRT)?;
    let mut town = Topology::new(alloc, PosterRules);
    make_all(&rt, "topology", &mut town, &TOPOLOGY)?;
    let text = given(town.text(alloc))?;
    rt.stdout().write_all(&text)
}
