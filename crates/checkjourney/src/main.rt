// Says whether the journey bytes on standard input are a journey that the query asks for: `yes` or `no`; `bad` and the offset of the bad
// leg's first byte, where they are no legs; or the number of a refusal and what it means. The buffers of the program take 59 KiB in all.
#![tactic(auto)]

ghost use Rattle.std.specs.Prelude.{◌≤◌, length};

use handheld::NoVerdict;
use network::Ready;
use questions::Question;
use std::io;

// The most bytes of a journey.
const MOST: usize = 32_768;

// Asks the judge, and tells the verdict.
fn tell(rt: HostRuntime, ready: Ready<'_>, bytes: &[u8], asked: Question) -> io::Result<()>
    requires { length bytes.now ≤ 32_768 }
{
    let mut text = [0u8; 16];
    let verdict = judge::judge(ready.tables, bytes, asked.query);
    let n = verdict_line::write_line(verdict, &mut text);
    print::text(&rt, &text[..n])?;
    match verdict {
        Err(NoVerdict::Refused(refusal)) => {
            refusing::print_meaning(&rt, ready, refusal.into(), asked)
        }
        _ => Ok(()),
    }
}

// The verdict on what is on standard input.
fn tell_input(rt: HostRuntime, ready: Ready<'_>, asked: Question) -> io::Result<()> {
    let mut bytes = [0u8; MOST + 1];
    match input::read_or_unreadable(&mut rt.stdin(), &mut bytes) {
        Ok(n) if n <= MOST => tell(rt, ready, &bytes[..n], asked),
        Ok(_) => println!(rt;
            "the input has more than {MOST} bytes, and this program has no room for more: link the library (see README)"
        ),
        Err(_) => println!(rt; "the input cannot be read"),
    }
}

// The verdict by the tables that the query names.
fn tell_asked(rt: HostRuntime, buffer: &mut [u8], asked: Question) -> io::Result<()> {
    let mut tables = [0u32; 6144];
    match network::load(&rt, buffer, asked.file, &mut tables)? {
        Some(ready) => tell_input(rt, ready, asked),
        None => Ok(()),
    }
}

fn print_usage(rt: HostRuntime) -> io::Result<()> {
    println!(rt;
        "usage: checkjourney FROM TO depart|arrive MOMENT [walks:yes|walks:no] [tables:FILE] [midnight:SECONDS] \
        [mode:source|mode:rescan] [bytes]"
    )
}

fn main(rt: HostRuntime) -> io::Result<()> {
    let mut buffer = [0u8; 1024];
    if querying::asks_help(&rt, &mut buffer) {
        return print_usage(rt);
    }
    match querying::read_query(&rt, &mut buffer)? {
        Some(asked) => tell_asked(rt, &mut buffer, asked),
        None => print_usage(rt),
    }
}
