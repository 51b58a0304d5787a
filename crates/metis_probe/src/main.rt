//! Prints what inner calls answer: for each line of the file `probes.txt`, in the folder that it runs in, the tables of a
//! universe, what names mean in it, its layers, the waits of a plan's actions, why a goal is never attained, or the life
//! lines for some targets with the graph of their events; or the order of a plain graph; or what a call puts that writes a
//! text whole, and how it ends.
#![tactic(auto)]

mod event_graph;
mod goals;
mod graphs;
mod layers;
mod life_lines;
mod lists;
mod names;
mod outputs;
mod plan_texts;
mod plans;
mod probe;
mod reasons;
mod refusal_texts;
mod rounds;
mod scripts;
mod stop;
mod tables;
mod waits;
mod writers;

use probe::probe_file;
use stop::Stop;

fn main(rt: HostRuntime) -> Result<(), Stop> {
    probe_file(&rt, "probes.txt")
}
