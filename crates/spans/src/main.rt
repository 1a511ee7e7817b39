// Prints document 01's metres and their seconds, and which bit patterns are a distance. Each
// distance is given by its bit pattern, as tables give it.
#![tactic(auto)]

use std::io;

// A line such as `1.6 metres 2 seconds`.
fn print_span(rt: HostRuntime, metres: &str, bits: u32) -> io::Result<()> {
    if shared::distance_ok(bits) {
        let span = shared::time_to_walk(shared::distance_of(bits));
        println!(rt; "{metres} metres {} seconds", span.0)
    } else {
        println!(rt; "{metres} is no distance")
    }
}

// A line such as `infinity no`.
fn print_answer(rt: HostRuntime, name: &str, bits: u32) -> io::Result<()> {
    if shared::distance_ok(bits) {
        println!(rt; "{name} yes")
    } else {
        println!(rt; "{name} no")
    }
}

fn main(rt: HostRuntime) -> io::Result<()> {
    print_span(rt, "0", 0x0000_0000)?;
    print_span(rt, "-0", 0x8000_0000)?;
    print_span(rt, "1.5", 0x3FC0_0000)?;
    print_span(rt, "1.6", 0x3FCC_CCCD)?;
    print_span(rt, "3", 0x4040_0000)?;
    print_span(rt, "100", 0x42C8_0000)?;
    print_span(rt, "150", 0x4316_0000)?;
    print_span(rt, "100000", 0x47C3_5000)?;
    println!(rt; "distances")?;
    print_answer(rt, "NaN", 0x7FC0_0000)?;
    print_answer(rt, "-NaN", 0xFF80_0001)?;
    print_answer(rt, "infinity", 0x7F80_0000)?;
    print_answer(rt, "100000", 0x47C3_5000)?;
    print_answer(rt, "next above 100000", 0x47C3_5001)?;
    print_answer(rt, "-0", 0x8000_0000)?;
    print_answer(rt, "next below -0", 0x8000_0001)?;
    print_answer(rt, "-1", 0xBF80_0000)
}
