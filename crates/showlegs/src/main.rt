// Prints the legs of the journey bytes on standard input, then how many they are; of bytes that are none, `bad` and the offset of the bad
// leg's first byte. More than 4,096 bytes are `long`; an input that cannot be read is `unreadable`, and no journey.
#![tactic(auto)]

use std::io;

fn show(rt: HostRuntime, bytes: &[u8]) -> io::Result<()> {
    match journey::read(bytes) {
        Ok(legs) => {
            print::legs(&rt, bytes, b"", b" -", b"\n")?;
            println!(rt; "legs {legs}")
        }
        Err(bad) => println!(rt; "bad {}", bad.at),
    }
}

fn main(rt: HostRuntime) -> io::Result<()> {
    let mut bytes = [0u8; 4097];
    match input::read_or_unreadable(&mut rt.stdin(), &mut bytes) {
        Ok(n) if n <= 4096 => show(rt, &bytes[..n]),
        Ok(_) => println!(rt; "long"),
        Err(_) => println!(rt; "unreadable"),
    }
}
