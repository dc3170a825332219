// Prints the library's constants as lines `NAME value`, by the names of include/grelfint.h without their prefix. A test compares the
// lines with the header and with the Rust bindings, so that neither can differ from the code. What cannot be written is left out.
#![tactic(auto)]

mod numbers;
mod records;
mod sizes;

use dpa::settings::step_ok;

// Prints each name with its value.
pub fn print_all(rt: &impl Print, constants: &[(&str, u64)]) {
    for (name, value) in constants {
        let _ = println!(rt; "{name} {value}");
    }
}

// The dimming steps that settings may have, as one list.
fn dimming_steps(rt: &impl Print) {
    let _ = print!(rt; "DIMMING_STEPS");
    for step in (0..=u8::MAX).filter(|&step| step_ok(step)) {
        let _ = print!(rt; " {step}");
    }
    let _ = println!(rt);
}

fn main(rt: HostRuntime) {
    sizes::print_sizes(&rt);
    numbers::print_numbers(&rt);
    records::print_records(&rt);
    dimming_steps(&rt);
}
