// Answers one query for a person: where from, where to, when; the journey comes in plain words, or why there is none. The buffers of the
// program take 57 KiB in all.
#![tactic(auto)]

use network::Ready;
use questions::Question;
use std::io;

// Asks the search, and tells the answer.
fn answer(rt: HostRuntime, ready: Ready<'_>, asked: Question) -> io::Result<()> {
    let mut words = [0u32; 6144];
    let mut marks = [0u64; 64];
    let mut places = [0u32; 256];
    let mut journey = [0u8; 4096];
    let told = asking::ask(
        ready.tables,
        &mut words,
        &mut marks,
        &mut places,
        &mut journey,
        asked.query,
    );
    telling::tell_asked(&rt, ready, &journey, told, asked)
}

// The query on the tables that it names.
fn answer_asked(rt: HostRuntime, buffer: &mut [u8], asked: Question) -> io::Result<()> {
    let mut tables = [0u32; 6144];
    match network::load(&rt, buffer, asked.file, &mut tables)? {
        Some(ready) => answer(rt, ready, asked),
        None => Ok(()),
    }
}

fn print_usage(rt: HostRuntime) -> io::Result<()> {
    println!(rt;
        "usage: kiosk FROM TO depart|arrive MOMENT [walks:yes|walks:no] [mode:source|mode:rescan] [tables:FILE] [midnight:SECONDS] [bytes]"
    )
}

fn main(rt: HostRuntime) -> io::Result<()> {
    let mut buffer = [0u8; 1024];
    if querying::asks_help(&rt, &mut buffer) {
        return print_usage(rt);
    }
    match querying::read_query(&rt, &mut buffer)? {
        Some(asked) => answer_asked(rt, &mut buffer, asked),
        None => print_usage(rt),
    }
}
