// The tables that a program is asked on: those of the file that an argument names, or network N where none does.
#![tactic(auto)]

mod words; // words.rt: network N, which is built in

use std::io;
use std::rt::{Env, Files};
use words::WORDS;

// The tables that are ready, and the name of their file; no name, for network N.
#[derive(Clone, Copy)]
pub struct Ready<'a> {
    pub tables: &'a [u32],
    pub path: &'a [u8],
}

// Network N, where there is room for it.
fn load_built_in(tables: &mut [u32]) -> Option<Ready<'_>> {
    let tables = tables.get_mut(..WORDS.len())?;
    tables.copy_from_slice(&WORDS);
    Some(Ready { tables, path: b"" })
}

// The tables of the file that an argument `tables:FILE` names; says what is wrong with them.
fn load_named<'a>(
    rt: &(impl Files + Print),
    arg: &'a [u8],
    tables: &'a mut [u32],
) -> io::Result<Option<Ready<'a>>> {
    let path = &arg[arguments::bytes::after(arg, b"tables:")..];
    match loading::load(rt, path, tables) {
        Ok(count) => Ok(tables.get(..count).map(|tables| Ready { tables, path })),
        Err(fault) => {
            loading::print_fault(rt, path, fault)?;
            Ok(None)
        }
    }
}

// The tables of the file that argument `file` names, which is left in `buffer`; network N where it names none. An error is that of a write
// which failed: what is wrong with the tables could not be said.
pub fn load<'a>(
    rt: &(impl Env + Files + Print),
    buffer: &'a mut [u8],
    file: Option<usize>,
    tables: &'a mut [u32],
) -> io::Result<Option<Ready<'a>>> {
    let Some(file) = file else {
        return Ok(load_built_in(tables));
    };
    let n = rt.arg(file, buffer).unwrap_or(0);
    load_named(rt, &buffer[..n], tables)
}
