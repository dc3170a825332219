// Runs worked examples of the buyer's documents and of the DPA guide, and some of our own, through the public calls and
// prints the results. What cannot be written is left out.
#![tactic(auto)]

mod gateways;
mod line;
mod nodes;
mod print;

fn main(rt: HostRuntime) {
    nodes::print_nodes(&rt);
    line::print_line(&rt);
    gateways::print_gateways(&rt);
}
