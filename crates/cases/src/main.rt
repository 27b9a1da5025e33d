// Document 01's cases without a star, run: the whole case, and setups with its cable resistances; then two sessions of two leads. Reads
// nothing; what it prints is held to the second implementation's answers.
#![tactic(auto)]

use std::io;

mod calls;
mod resistances;
mod sessions;
mod text;
mod whole;

fn main(rt: HostRuntime) -> io::Result<()> {
    whole::whole_case(&rt)?;
    resistances::resistances(&rt)?;
    sessions::stopped(&rt)?;
    sessions::cut_off(&rt)
}
